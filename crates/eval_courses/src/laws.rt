//! What holds for courses, whatever the rule. Each function here is empty: its contract is the law.
ghost use Rattle.std.specs.Prelude.{◌≡◌, ◌↔◌, ◌∷◌, ◌++◌, Bool, ℕ, List, Option, Some, codes, length, true, false};
ghost use Rattle.text_bytes.specs.Text.{Text};
ghost use Rattle.builtin_devices.specs.Knowledge.{Known};
ghost use Rattle.rule_types.specs.declared.part.UpMatch.{UpMatch};
ghost use Rattle.rule_types.specs.Rules as rules;
ghost use Rattle.eval_state.specs.declared.scene.Scene.{Scene};
ghost use Rattle.eval_state.specs.declared.state.State.{State};
ghost use Rattle.eval_rendering.specs.Laws.{IsFirstToMeet, NoneMeets};
ghost use Rattle.eval_rules.specs.Idle.{is_idle};
ghost use Rattle.eval_rules.specs.Steps.{apply, before_sets};
ghost use Rattle.eval_effects.specs.Since as finals;
ghost use Rattle.eval_courses.specs.Courses.{course};
ghost use Rattle.eval_courses.specs.Skipped.{skipped_text};
ghost use Rattle.eval_courses.specs.Upward.{meets_all, name_at, search_reports};
ghost use Rattle.eval_courses.specs.Fates.{fate, fates_from, keys_of, keys_reached};
ghost use Rattle.eval_courses.specs.declared.fate.Fate.TheVariants as fates;
ghost use Rattle.eval_courses.specs.Laws.{last_of};

/// The last text of a course is `stops there` exactly if the rule's end was not reached, unless the rule is
/// skipped.
pub fn course_ends_as_its_rule()
    ensures { (known : Known) (since : finals.Since) (r : rules.Rule) (s : Scene) → is_idle r s.state.event ≡ false
        → (last_of (course known since r s) ≡ Some (codes "stops there")) ↔ ((apply known r s).1 ≡ false) }
{}

/// The last text of the course of a rule that is skipped says what of it does nothing exactly if all its keys let it
/// go on.
pub fn course_says_what_is_skipped()
    ensures { (known : Known) (since : finals.Since) (r : rules.Rule) (s : Scene) → is_idle r s.state.event ≡ true
        → (last_of (course known since r s) ≡ Some (skipped_text r s.state.event)) ↔ ((before_sets known r s).1 ≡ true) }
{}

/// What is reported for a search names the nearest device that meets all of the matches; in a rule that is skipped,
/// where no device is selected, it would meet them.
pub fn search_names_the_first_to_meet()
    ensures { (idle : Bool) (part : UpMatch) (parts : List UpMatch) (state : State) (place : ℕ) → IsFirstToMeet (part ∷ parts) state place
        → last_of (search_reports idle (part ∷ parts) state) ≡ Some (name_at state place ++ meets_all idle) }
{}

/// What is reported for a search that finds none begins with `no device meets `.
pub fn search_names_no_device_where_none_meets()
    ensures { (idle : Bool) (part : UpMatch) (parts : List UpMatch) (state : State) → NoneMeets (part ∷ parts) state
        → (rest : Text) × (last_of (search_reports idle (part ∷ parts) state) ≡ Some (codes "no device meets " ++ rest)) }
{}

/// A rule that is reached is met exactly if all its keys let it go on, whether it is then skipped or not.
pub fn rule_is_met_where_all_its_keys_let_it_go_on()
    ensures { (known : Known) (r : rules.Rule) (s : Scene) → (fate known r s ≡ fates.Met) ↔ ((before_sets known r s).1 ≡ true) }
{}

/// The keys of a rule that were reached are the first of its keys, so that their number names the last of them.
pub fn keys_reached_are_the_first_of_a_rule()
    ensures { (known : Known) (r : rules.Rule) (s : Scene) → (others : List Text) × (keys_of r ≡ keys_reached known r s ++ others) }
{}

/// Each rule has one fate at an event.
pub fn each_rule_has_its_fate()
    ensures { (known : Known) (sought : Option Text) (read : List rules.Rule) (s : Scene) → length (fates_from known sought read s) ≡ length read }
{}
