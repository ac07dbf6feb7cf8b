//! What an author of rules relies on, whatever the rules, the event and the database are.
//!
//! Each function here is empty: its contract is the law.
ghost use Rattle.std.specs.Prelude.{◌≡◌, ◌↔◌, ◌∷◌, ◌++◌, true, false, codes, fold, List, Option, Some};
ghost use Rattle.std.specs.List.{list_any};
ghost use Rattle.text_bytes.specs.declared.profile.Profile.TheVariants.{Manual};
ghost use Rattle.text_tables.specs.Pairs.{Pair, named, value_of};
ghost use Rattle.text_tables.specs.Sorted.{NamesRise};
ghost use Rattle.text_bytes.specs.Text.{Text};
ghost use Rattle.builtin_devices.specs.Knowledge.{Known};
ghost use Rattle.rule_laws.specs.Outcomes.{HasLabel};
ghost use Rattle.rule_types.specs.Rules.{Rule};
ghost use Rattle.device_core.specs.Values.{EventValue, NumberValue};
ghost use Rattle.eval_state.specs.Properties.{given_properties};
ghost use Rattle.eval_state.specs.Finals.{is_final};
ghost use Rattle.eval_state.specs.Scenes.{start};
ghost use Rattle.eval_state.specs.Start.{reported_by};
ghost use Rattle.eval_state.specs.declared.finals.FinalKey.{FinalKey};
ghost use Rattle.eval_state.specs.declared.scene.Scene.{Scene};
ghost use Rattle.eval_assignments.specs.Steps.{set_step};
ghost use Rattle.eval_laws.specs.AssignmentLaws.{Keeps, may_be_final};
ghost use Rattle.eval_laws.specs.Reaching.{LetGoOn};
ghost use Rattle.eval_rules.specs.Idle.{is_idle};
ghost use Rattle.eval_rules.specs.Jumps.{run, run_all};
ghost use Rattle.eval_rules.specs.Laws.{SameButNotes, SameOutcomeButNotes, plain_hold};
ghost use Rattle.eval_rules.specs.Outcomes.{outcome, outcome_of};
ghost use Rattle.eval_rules.specs.Steps.{apply};

/// An event begins with the properties that its device has by the profile, each with its last value, and over these what the
/// event itself says.
pub fn an_event_begins_with_what_its_block_says()
    ensures action { (event : EventValue) → value_of (start event).state.env (codes "ACTION") ≡ Some event.action }
    ensures path { (event : EventValue) → value_of (start event).state.env (codes "DEVPATH") ≡ Some event.device.path }
    ensures subsystem { (event : EventValue) (subsystem : Text) → event.device.subsystem ≡ Some subsystem
        → value_of (start event).state.env (codes "SUBSYSTEM") ≡ Some subsystem }
    ensures node { (event : EventValue) (node : Text) → event.device.node ≡ Some node
        → value_of (start event).state.env (codes "DEVNAME") ≡ Some (codes "/dev/" ++ node) }
    ensures number { (event : EventValue) (number : NumberValue) → event.device.number ≡ Some number
        → (value_of (start event).state.env (codes "MAJOR") ≡ Some number.major) × (value_of (start event).state.env (codes "MINOR") ≡ Some number.minor) }
    ensures properties { (event : EventValue) (before following : List Pair) (name value : Text)
        → given_properties event.profile event.device.env ≡ before ++ (name, value) ∷ following
        → named following name ≡ false → named (reported_by event) name ≡ false → value_of (start event).state.env name ≡ Some value }
{}

/// The end of a rule is reached if and only if all its keys let it go on: its matches of the event hold, one device of the
/// chain meets all others, each act lets it go on, and so do the matches of the result. The nearest such device is then
/// selected, and the assignments are made over what the acts left. By the manual no rule is skipped, as some are by udev.
pub fn a_rule_goes_on_just_where_all_its_keys_let_it()
    ensures reached { (known : Known) (r : Rule) (s : Scene)
        → ((apply known r s).1 ≡ true) ↔ ((is_idle r s.state.event ≡ false) × ((done : Scene) × LetGoOn known r s done)) }
    ensures leaves { (known : Known) (r : Rule) (s done : Scene) → is_idle r s.state.event ≡ false → LetGoOn known r s done
        → apply known r s ≡ (fold (set_step r) done r.sets, true) }
    ensures manual { (r : Rule) (event : EventValue) → event.profile ≡ Manual → is_idle r event ≡ false }
{}

/// A rule with a match of the event that does not hold changes nothing but the notes.
pub fn unmatched_rules_change_nothing()
    ensures { (known : Known) (r : Rule) (s : Scene) → plain_hold s.state r ≡ false → SameButNotes s (apply known r s).0 }
{}

/// If no rule's matches of the event hold, the outcome of an event is what it began with, apart from notes.
pub fn unmatched_events_stay_as_they_are()
    ensures { (known : Known) (rules : List Rule) (event : EventValue) → list_any (plain_hold (start event).state) rules ≡ false
        → SameOutcomeButNotes (outcome_of (start event)) (outcome rules known event) }
{}

/// A rule that jumps and whose end is reached is followed by the next rule that has the label, which is evaluated;
/// the rules between them are skipped. That this rule is in the same file is a law of rules as they are read,
/// `jumps_stay_in_their_files`.
pub fn jumps_lead_to_the_next_label()
    ensures { (known : Known) (name : Text) (landing : Rule) (following : List Rule) → landing.label ≡ Some name
        → (r : Rule) (between : List Rule) (s : Scene) → r.goto ≡ Some name → (apply known r s).1 ≡ true → ¬ HasLabel name between
        → run_all known (r ∷ (between ++ landing ∷ following)) s ≡ run_all known (landing ∷ following) (apply known r s).0 }
{}

/// A key that is final keeps its value through any further rules, of whatever files, and stays final. For udev the
/// priority of links is never final.
pub fn final_keys_stay_through_all_rules()
    ensures { (known : Known) (sought : Option Text) (rules : List Rule) (key : FinalKey) (s : Scene) → may_be_final s.state.event.profile key ≡ true
        → is_final s.finals key ≡ true → Keeps key s (run known sought rules s) }
{}

/// The names of the properties in the outcome of an event rise, so that none is there twice.
pub fn properties_are_sorted()
    ensures { (rules : List Rule) (known : Known) (event : EventValue) → NamesRise (outcome rules known event).env }
{}
