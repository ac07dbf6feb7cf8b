//! What is true of the lines of `--why` on rules.
//!
//! Each function here is empty: its contract is the law.
ghost use Rattle.std.specs.Prelude.{◌≡◌, ◌≤◌, ◌+◌, ◌++◌, ◌∷◌, [], Contains, List, None, Some, codes, false, if◌then◌else◌, length, true};
ghost use Rattle.text_bytes.specs.Text.{Text};
ghost use Rattle.builtin_devices.specs.Knowledge.{Known};
ghost use Rattle.rule_types.specs.Rules.{Rule};
ghost use Rattle.device_core.specs.Values.{EventValue};
ghost use Rattle.device_core.specs.Tried.{lacks_event};
ghost use Rattle.eval_rules.specs.Jumps.{is_passed, run_all};
ghost use Rattle.eval_state.specs.Scenes.{start};
ghost use Rattle.eval_state.specs.declared.scene.Scene.{Scene};
ghost use Rattle.eval_effects.specs.Since.{Since, no_since};
ghost use Rattle.eval_courses.specs.Courses.{course};
ghost use Rattle.engine_courses.specs.Asked.{asks};
ghost use Rattle.engine_courses.specs.Nearest.{Candidate, Place, candidate_of, nearest};
ghost use Rattle.engine_courses.specs.WhyLines.{passed_texts, reported_for, reported_if_asked, sought_by};
ghost use Rattle.eval_laws.specs.Told.{jumping_over, lines_reached, since_through};

/// What is told of a rule after others is its course over the scene that these leave, or which jump passes over it; and the
/// rules are told in their order. At a device without an event no rule is tried, and none is told.
pub fn each_rule_is_told_over_the_scene_that_those_before_it_leave()
    ensures tried { (why : List Text) (before : List Rule) (r : Rule) (known : Known) (event : EventValue) → lacks_event event ≡ false
        → reported_for why (before ++ r ∷ []) known event
        ≡ reported_for why before known event
        ++ reported_if_asked why r
        (if is_passed (sought_by (jumping_over known None before (start event))) r then passed_texts (jumping_over known None before (start event))
        else course known (since_through known no_since None before (start event)) r (run_all known before (start event))) }
    ensures none { (why : List Text) (rules : List Rule) (known : Known) (event : EventValue) → lacks_event event ≡ true
        → reported_for why rules known event ≡ [] }
{}

/// A course has a line for each key that the rule reaches, one for the outcome of a search, and one for its end.
pub fn a_course_is_as_long_as_the_keys_that_it_reaches()
    ensures { (known : Known) (since : Since) (r : Rule) (s : Scene) → length (course known since r s) ≡ lines_reached known r s + 1 }
{}

/// Of the places in the file that a text of `--why` names, none is nearer to its line than the one that is reported.
pub fn no_place_is_nearer_than_the_nearest()
    ensures { (text : Text) (places : List Place) (place other : Place) (near far : Candidate) → nearest text places ≡ Some place
        → Contains places other → candidate_of text place ≡ Some near → candidate_of text other ≡ Some far → near.0 ≤ far.0 }
{}

/// A path asks for the file that is read under the name that it ends in, and a name alone for the file that was named by
/// a path; of files that were named by paths, a path asks for its own alone.
#[tactic(auto, using(crate::proofs::Paths::by_path, crate::proofs::Paths::by_name, crate::proofs::Paths::other_path))]
pub fn a_path_asks_for_the_file_of_its_name()
    ensures path { asks (codes "d/r.rules") (codes "r.rules", 2) ≡ true }
    ensures name { asks (codes "r.rules") (codes "d/r.rules", 1) ≡ true }
    ensures other { asks (codes "e/r.rules") (codes "d/r.rules", 1) ≡ false }
{}
