//! What is true of the lines of an answer and of the rules that they come from.
//!
//! Each function here is empty: its contract is the law.
ghost use Rattle.std.specs.Prelude.{◌≡◌, ◌&&◌, ◌++◌, [], ◌∷◌, false, filter, is_some, List, map, not, true};
ghost use Rattle.text_tables.specs.Pairs.{Pair};
ghost use Rattle.builtin_devices.specs.Knowledge.{Known};
ghost use Rattle.rule_types.specs.Rules.{Rule};
ghost use Rattle.device_core.specs.Values.{EventValue};
ghost use Rattle.eval_state.specs.Runs.{RunValue};
ghost use Rattle.eval_state.specs.Scenes.{start};
ghost use Rattle.eval_state.specs.declared.made_runs.MadeRun.{MadeRun};
ghost use Rattle.eval_state.specs.declared.scene.Scene.{Scene};
ghost use Rattle.eval_state.specs.declared.state.State.{State};
ghost use Rattle.eval_rules.specs.Jumps.{run_all};
ghost use Rattle.eval_rules.specs.Outcomes.{command, made_command, outcome_of, run_text};
ghost use Rattle.eval_unread.specs.Unread.{whole_outcome};
ghost use Rattle.eval_effects.specs.Items.{items};
ghost use Rattle.eval_sources.specs.Sources.{Stage, is_present_throughout, source_of};
ghost use Rattle.eval_effects.specs.Items.{is_present};
ghost use Rattle.eval_sources.specs.Reported.{sourced_commands, sourced_made, stages};
ghost use Rattle.engine_answers.specs.Answers.{answer_lines, lines_by};
ghost use Rattle.engine_answers.specs.Items.{item_lines};
ghost use Rattle.eval_laws.specs.Told.{is_told, with_sorted};

/// Taking the sources away gives the answer: with nothing before any line, the lines are those of the
/// answer, each once and in their order.
pub fn without_their_sources_the_lines_are_the_answer()
    ensures { (rules : List Rule) (known : Known) (event : EventValue)
        → lines_by (λ source. []) rules known event ≡ answer_lines event (whole_outcome rules known event) }
{}

/// An item comes from a rule if and only if it is there at the end and was not there like this at all stages from
/// the start on.
pub fn what_was_there_from_the_start_comes_from_no_rule()
    ensures { (rules : List Rule) (known : Known) (event : EventValue) (item : Pair)
        → is_some (source_of (stages rules known event) item)
        ≡ (is_present item (items (run_all known rules (start event))) && not (is_present_throughout item (stages rules known event))) }
{}

/// An item comes from a stage if it is there at this stage and all later ones, and not at the stage before.
pub fn an_item_comes_from_the_stage_since_which_it_is_there()
    ensures { (before later : List Stage) (last stage : Stage) (item : Pair) → is_present item last.1 ≡ false
        → is_present_throughout item (stage ∷ later) ≡ true → source_of (before ++ last ∷ stage ∷ later) item ≡ stage.0 }
{}

/// The lines of an answer but the first, those of commands and notes are about the items of the last scene, each once and in their
/// order, properties by name and without those that are for rules alone.
pub fn each_line_is_about_an_item_of_the_last_scene()
    ensures { (s : Scene) → map (λ l. l.0) (item_lines s.state.event.profile (outcome_of s)) ≡ filter is_told (items (with_sorted s)) }
{}

/// Each command comes from the rule of its own RUN.
pub fn each_command_comes_from_the_rule_of_its_run()
    ensures kept { (state : State) (before later : List RunValue) (run : RunValue) → sourced_commands state (before ++ run ∷ later)
        ≡ sourced_commands state before ++ (map (λ c. (c, run.rule)) (command run (run_text state run)) ++ sourced_commands state later) }
    ensures made { (run : MadeRun) → sourced_made run ≡ (made_command run, run.run.rule) }
{}
