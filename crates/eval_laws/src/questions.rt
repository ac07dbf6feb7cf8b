//! What holds of questions, whatever the rules. Each function here is empty: its contract is the law.
ghost use Rattle.std.specs.Prelude.{◌≡◌, ◌↔◌, ◌≤◌, ◌&&◌, ◌++◌, ◌^◌, true, not, List, [], None, Ok, filter, is_none, length, map};
ghost use Rattle.std.specs.List.{list_all, list_any};
ghost use Rattle.text_bytes.specs.Texts.{word_of};
ghost use Rattle.text_bytes.specs.declared.profile.Profile.TheVariants.{Manual, Udev};
ghost use Rattle.text_bytes.specs.Text.{Text};
ghost use Rattle.text_tables.specs.Texts.{AreOnce, is_among};
ghost use Rattle.text_tables.specs.Pairs.{value_of};
ghost use Rattle.builtin_devices.specs.Knowledge.{Known};
ghost use Rattle.rule_tokens.specs.Template as templates;
ghost use Rattle.rule_types.specs.Rules as rules;
ghost use Rattle.rule_types.specs.declared.part.Act.{Act};
ghost use Rattle.rule_types.specs.declared.part.ActKind.TheVariants as act_kind;
ghost use Rattle.rule_types.specs.declared.part.Import.TheVariants as import;
ghost use Rattle.device_core.specs.Faults.{block_gives};
ghost use Rattle.device_core.specs.Values.{EventValue};
ghost use Rattle.eval_acts.specs.Acts.{act_step};
ghost use Rattle.eval_rules.specs.Idle.{act_kind_counts};
ghost use Rattle.eval_rules.specs.Outcomes.{outcome};
ghost use Rattle.eval_state.specs.Notes.{note_about};
ghost use Rattle.eval_state.specs.Scenes.{start};
ghost use Rattle.eval_state.specs.declared.note_kind.NoteKind.TheVariants.{NoAnswer};
ghost use Rattle.eval_state.specs.declared.scene.Scene.{Scene};
ghost use Rattle.eval_laws.specs.Filled.{filled, filled_event};
ghost use Rattle.eval_laws.specs.Noted.{is_no_answer};
ghost use Rattle.eval_courses.specs.Questions.{act_asks, can_be_asked, questions, rules_ask};

/// No command is asked that the event's block answers, and none that no line of a block can have.
#[tactic(auto, using(crate::proofs::Unanswered::all_unanswered))]
pub fn no_answered_command_is_asked()
    ensures { (read : List rules.Rule) (known : Known) (event : EventValue)
        → list_all (λ command. is_none (value_of event.programs command) && can_be_asked command) (questions read known event) ≡ true }
{}

/// No command is asked twice.
#[tactic(auto, using(crate::proofs::Once::asked_once))]
pub fn each_command_is_asked_once()
    ensures { (read : List rules.Rule) (known : Known) (event : EventValue) → AreOnce (questions read known event) }
{}

/// A command is asked if and only if the rules ask it and a line of a block can have it.
#[tactic(auto, using(crate::proofs::Once::asked_if))]
pub fn each_command_that_rules_ask_is_asked()
    ensures { (read : List rules.Rule) (known : Known) (event : EventValue) (command : Text) → is_among (questions read known event) command
        ≡ (is_among (rules_ask known None read (start event)) command && can_be_asked command) }
{}

/// Rules without PROGRAM and IMPORT ask nothing.
#[tactic(auto, using(crate::proofs::Unanswered::nothing_asked))]
pub fn rules_without_programs_ask_nothing()
    ensures { (read : List rules.Rule) (known : Known) (event : EventValue)
        → list_all (λ r. not (list_any (λ act. act_kind_counts act.kind) r.acts)) read ≡ true → questions read known event ≡ [] }
{}

/// The notes of a PROGRAM that its command has no answer are those of the commands that it looks up and the block does
/// not answer. Of udev's IMPORT{program} it is the same.
#[tactic(auto, using(crate::proofs::Noting::program_noted, crate::proofs::Noting::import_noted))]
pub fn programs_ask_where_they_have_no_answer()
    ensures program { (known : Known) (r : rules.Rule) (act : Act) (template : templates.Parts) (s : Scene) → act.kind ≡ act_kind.Program template
        → filter is_no_answer (act_step known r act s).0.notes ≡ filter is_no_answer s.notes ++ map (note_about r NoAnswer) (act_asks act.kind s.state) }
    ensures imported { (known : Known) (r : rules.Rule) (act : Act) (template : templates.Parts) (s : Scene)
        → act.kind ≡ act_kind.Import (import.Program template) → s.state.event.profile ≡ Udev
        → filter is_no_answer (act_step known r act s).0.notes ≡ filter is_no_answer s.notes ++ map (note_about r NoAnswer) (act_asks act.kind s.state) }
{}

/// A command can be asked just where a block that asks and answers it has that answer under it. So every command that any
/// block answers can be asked.
#[tactic(auto, using(crate::proofs::Reading::asked_is_answered, crate::proofs::Reading::block_fine))]
pub fn filled_in_questions_are_answers()
    ensures filled { (command : Text) → length command ≤ 2 ^ 15 → (can_be_asked command ≡ true) ↔ (block_gives (filled command) ≡ Ok (filled_event command)) }
    ensures others { (block : Text) (event : EventValue) → block_gives block ≡ Ok event → list_all (λ answer. can_be_asked answer.0) event.programs ≡ true }
{}

/// By the manual, the notes of an event that a command has no answer are those of the commands that its rules ask, one for
/// each time that they do.
#[tactic(auto, using(crate::proofs::Saying::asked_is_noted))]
pub fn rules_ask_what_their_notes_say()
    ensures { (read : List rules.Rule) (known : Known) (event : EventValue) → event.profile ≡ Manual
        → map (λ note. note.word) (filter is_no_answer (outcome read known event).notes) ≡ map word_of (rules_ask known None read (start event)) }
{}
