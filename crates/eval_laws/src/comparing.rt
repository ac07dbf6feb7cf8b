//! What is true of the lines of `compare`, and of what it and `events` tell of an input without a block.
//!
//! Each function here is empty: its contract is the law.
ghost use Rattle.std.specs.Prelude.{◌≡◌, ◌==◌, ◌&&◌, [], ◌∷◌, ◌++◌, Ok, codes, false, true, flat_map, if◌then◌else◌, is_ok, length};
ghost use Rattle.std.specs.List.{list_all};
ghost use Rattle.text_bytes.specs.Lines.{lines};
ghost use Rattle.text_bytes.specs.Names.{newline};
ghost use Rattle.text_bytes.specs.Text.{Text};
ghost use Rattle.builtin_devices.specs.Knowledge.{FilesFound};
ghost use Rattle.device_core.specs.Faults.{block_gives};
ghost use Rattle.device_core.specs.Runs.{runs};
ghost use Rattle.device_core.specs.Values.{EventValue, by_profile};
ghost use Rattle.engine_sessions.specs.EventLine.{event_line};
ghost use Rattle.engine_formats.specs.Masked.{shown_in};
ghost use Rattle.engine_answers.specs.Differences.{differences, itself};
ghost use Rattle.engine_answers.specs.Objects.{compared};
ghost use Rattle.engine_core.specs.Comparing.{compare_outcome, compared_answer};
ghost use Rattle.engine_core.specs.Outcomes.{asks_more, is_json, known_for, outcome_by};
ghost use Rattle.engine_sessions.specs.Readers.{is_for_people};
ghost use Rattle.engine_sessions.specs.declared.line.Line.{Line};
ghost use Rattle.engine_reports.specs.Openings.{OpeningValue};
ghost use Rattle.engine_sessions.specs.Answers.{answers_of};
ghost use Rattle.engine_sessions.specs.Sessions.{answers_as};
ghost use Rattle.engine_sessions.specs.Turns.{joined};

/// What is said of an event is what disappears from the answer by the old rules and appears in that by the new ones, in
/// the old line's format; if that line asks for sources, each line is shown after the rule that it comes from, which is not
/// compared.
pub fn the_old_answer_is_compared_with_the_new_one()
    ensures { (old_line new_line : Line) (old_found new_found : FilesFound) (old new : OpeningValue) (input : Text)
        → (compare_outcome old_line new_line old_found new_found (Ok old) (Ok new) input).output
        ≡ joined (answers_of (answers_as old_line.profile (λ (event : EventValue).
        compared (is_json old_line.format) event (compared_answer old_line.sources old.rules (known_for old_line old_found old) event)
        (compared_answer old_line.sources new.rules (known_for new_line new_found new) event))) input).texts }
{}

/// Over an input of one block, what is written is what differs between that which `events` writes by the old line and by the
/// new one, if both evaluate rules by one profile and neither asks for more than answers.
pub fn what_events_answers_is_compared()
    ensures { (old_line new_line : Line) (old_found new_found : FilesFound) (old new : OpeningValue) (input block : Text) (event : EventValue)
        → runs input ≡ block ∷ [] → block_gives block ≡ Ok event → new_line.profile ≡ old_line.profile
        → asks_more old_line ≡ false → old_line.questions ≡ false → old_line.unused ≡ false
        → asks_more new_line ≡ false → new_line.questions ≡ false → new_line.unused ≡ false
        → (compare_outcome old_line new_line old_found new_found (Ok old) (Ok new) input).output
        ≡ differences (by_profile old_line.profile event) (itself (outcome_by old_line old_found (Ok old) input).output)
        (itself (outcome_by new_line new_found (Ok new) input).output) }
{}

/// With `--all` or for people it is told after the messages that an input has no block, and otherwise not. The status stays 0.
pub fn an_input_without_a_block_is_told_if_that_is_asked_for()
    ensures all { (line : Line) (found : FilesFound) (opening : OpeningValue) → line.unused ≡ false → line.all ≡ true
        → outcome_by line found (Ok opening) []
        ≡ record { output = []; messages = shown_in line.format opening.messages ++ codes "devdry: no event block in the input\n"; status = 0 } }
    ensures people { (line : Line) (found : FilesFound) (opening : OpeningValue) → line.unused ≡ false → is_for_people line.format ≡ true
        → outcome_by line found (Ok opening) []
        ≡ record { output = []; messages = shown_in line.format opening.messages ++ codes "devdry: no event block in the input\n"; status = 0 } }
    ensures unasked { (line : Line) (found : FilesFound) (opening : OpeningValue) → line.unused ≡ false → line.all ≡ false → is_for_people line.format ≡ false
        → outcome_by line found (Ok opening) [] ≡ record { output = []; messages = shown_in line.format opening.messages; status = 0 } }
{}

/// A line `nowatch` is compared, though it begins as a note does, and notes are not.
pub fn no_line_but_a_note_is_passed_over()
    ensures { (event : EventValue) → differences event
        (itself (codes "event add /d\nnowatch\nnote a\n\n")) (itself (codes "event add /d\nlink n\nnote b\n\n"))
        ≡ event_line event.action event.device.path ++ codes "-nowatch\n+link n\n\n" }
{}

/// If both sides can be opened, the status of `compare` is 0 if nothing appears or disappears and each block of the input
/// gives an event, and otherwise 1.
pub fn what_differs_makes_the_status()
    ensures { (old_line new_line : Line) (old_found new_found : FilesFound) (old new : OpeningValue) (input : Text)
        → (compare_outcome old_line new_line old_found new_found (Ok old) (Ok new) input).status
        ≡ (if length (compare_outcome old_line new_line old_found new_found (Ok old) (Ok new) input).output == 0
        && list_all (λ block. is_ok (block_gives block)) (runs input) then 0 else 1) }
{}

/// If both sides can be opened, the messages of `compare` begin with those about the old rules, each line after `[OLD] `, and
/// go on with those about the new ones, each line after `[NEW] `; for people signs stand in them for what a terminal obeys.
pub fn messages_say_which_rules_they_are_about()
    ensures { (old_line new_line : Line) (old_found new_found : FilesFound) (old new : OpeningValue) (input : Text)
        → (later : Text) × ((compare_outcome old_line new_line old_found new_found (Ok old) (Ok new) input).messages
        ≡ shown_in old_line.format (flat_map (λ line. codes "[OLD] " ++ line ++ newline ∷ []) (lines old.messages)
        ++ flat_map (λ line. codes "[NEW] " ++ line ++ newline ∷ []) (lines new.messages)) ++ later) }
{}
