//! What becomes of rules one after another, and of what they leave, whatever the rules, the event and
//! the database are.
//!
//! Each function here is empty: its contract is the law.
ghost use Rattle.std.specs.Prelude.{◌≡◌, ◌∷◌, ◌++◌, [], false, map, List, None};
ghost use Rattle.text_bytes.specs.Text.{Text};
ghost use Rattle.text_tables.specs.Texts.{AreOnce};
ghost use Rattle.text_tables.specs.Pairs.{Pair, names, value_of};
ghost use Rattle.text_tables.specs.Sorted.{by_name};
ghost use Rattle.builtin_devices.specs.Knowledge.{Known};
ghost use Rattle.rule_types.specs.Rules.{Rule};
ghost use Rattle.eval_state.specs.Runs.{RunValue, run_kind};
ghost use Rattle.eval_state.specs.Texts.{filled};
ghost use Rattle.eval_state.specs.declared.scene.Scene.{Scene};
ghost use Rattle.eval_rendering.specs.Rendering.{render};
ghost use Rattle.eval_rendering.specs.declared.rendered.Mode.TheVariants.{Plain};
ghost use Rattle.eval_rendering.specs.declared.rendered.Rendered.TheVariants as rendered;
ghost use Rattle.eval_assignments.specs.Tags.{current_tags};
ghost use Rattle.eval_rules.specs.Jumps.{run_all};
ghost use Rattle.eval_rules.specs.Outcomes.{commands, late_notes, made_command, outcome_of};
ghost use Rattle.eval_rules.specs.Steps.{apply};

/// A rule whose end is not reached, or that has no jump, is followed by the next one.
pub fn the_next_rule_follows()
    ensures stopped { (known : Known) (r : Rule) (rules : List Rule) (s : Scene) → (apply known r s).1 ≡ false
        → run_all known (r ∷ rules) s ≡ run_all known rules (apply known r s).0 }
    ensures plain { (known : Known) (r : Rule) (rules : List Rule) (s : Scene) → r.goto ≡ None
        → run_all known (r ∷ rules) s ≡ run_all known rules (apply known r s).0 }
{}

/// An outcome has what the last scene has, each under its own name: the properties sorted, the tags that are not removed, and a
/// name if it is not empty. Its notes are those of the scene, and those of the runs that it keeps.
pub fn an_outcome_is_what_the_last_scene_has()
    ensures name { (s : Scene) → (outcome_of s).name ≡ filled s.state.name }
    ensures owner { (s : Scene) → (outcome_of s).owner ≡ s.owner }
    ensures group { (s : Scene) → (outcome_of s).group ≡ s.group }
    ensures mode { (s : Scene) → (outcome_of s).mode ≡ s.mode }
    ensures options { (s : Scene) → ((outcome_of s).priority ≡ s.priority) × ((outcome_of s).watch ≡ s.watch) × ((outcome_of s).persist ≡ s.persist) }
    ensures labels { (s : Scene) → (outcome_of s).labels ≡ s.labels }
    ensures links { (s : Scene) → (outcome_of s).links ≡ s.state.links }
    ensures tags { (s : Scene) → (outcome_of s).tags ≡ current_tags s }
    ensures properties { (s : Scene) → (outcome_of s).env ≡ by_name s.state.env }
    ensures written { (s : Scene) → ((outcome_of s).attrs ≡ s.attrs) × ((outcome_of s).sysctls ≡ s.sysctls) }
    ensures notes { (s : Scene) → (outcome_of s).notes ≡ s.notes ++ late_notes s.state s.runs }
{}

/// Properties have the same values when they are sorted.
pub fn sorted_properties_have_their_values()
    ensures { (env : List Pair) (name : Text) → AreOnce (names env) → value_of (by_name env) name ≡ value_of env name }
{}

/// A RUN that is kept when no rule is left is a command at its place among the others, rendered by what is then
/// known about the event, with the device that was selected when its rule was reached. Those that udev rendered at
/// their rules follow them, in their order.
pub fn commands_are_rendered_in_the_end()
    ensures kept { (s : Scene) (before following : List RunValue) (kept : RunValue) (text : Text) → s.runs ≡ before ++ kept ∷ following
        → render kept.template (record s.state { selected = kept.selected }) Plain ≡ rendered.Text text
        → (outcome_of s).runs ≡ commands s.state before ++ record { kind = run_kind kept.braces; text = text } ∷ (commands s.state following
        ++ map made_command s.made) }
    ensures made { (s : Scene) → s.runs ≡ [] → (outcome_of s).runs ≡ map made_command s.made }
{}
