//! What holds of the answers to lines. Each law is the contract of a function that does nothing.
ghost use Rattle.std.specs.Prelude.{◌≡◌, ◌+◌, List, false, true, [], ◌∷◌, ◌++◌, flat_map, length};
ghost use Rattle.std.specs.List.{AllByRecursion};
ghost use Rattle.text_bytes.specs.Names.{newline};
ghost use Rattle.file_messages.specs.declared.message.Message.{Message};
ghost use Rattle.text_bytes.specs.Text.{Text};
ghost use Rattle.trie_nodes.specs.declared.entry.Entry.{Entry};
ghost use Rattle.device_core.specs.RunBlocks.{newline_count};
ghost use Rattle.engine_sessions.specs.declared.line.Line.{Line};
ghost use Rattle.engine_reports.specs.Messages.{message_lines};
ghost use Rattle.engine_reports.specs.Outcomes.{query_outcome};
ghost use Rattle.engine_reports.specs.LookupOutcomes.{answer_to, is_too_long, lines_outcome, too_long_line};

/// Over an input of one line everything is as `query` has it for that modalias, except for the empty line after
/// the properties.
pub fn a_line_alone_is_a_query()
    ensures { (line : Line) (entries : List Entry) (messages : List Message) → newline_count line.modalias.now ≡ 0 → is_too_long line.modalias.now ≡ false
        → lines_outcome (message_lines messages) (answer_to line.sources entries) (line.modalias.now ++ newline ∷ []) ≡ record {
          output = (query_outcome line entries messages).output ++ newline ∷ [];
          messages = (query_outcome line entries messages).messages;
          status = (query_outcome line entries messages).status;
        } }
{}

/// An input that is put after a newline of another gets its answers after those to the other, in which no
/// line is too long, and its status.
pub fn answers_to_lines_follow_one_another()
    ensures output { (messages : Text) (answer : Text → Text) (first second : Text) → (lines_outcome messages answer (first ++ newline ∷ [])).status ≡ 0
        → (lines_outcome messages answer (first ++ newline ∷ second)).output ≡ (lines_outcome messages answer (first ++ newline ∷ [])).output
        ++ (lines_outcome messages answer second).output }
    ensures status { (messages : Text) (answer : Text → Text) (first second : Text) → (lines_outcome messages answer (first ++ newline ∷ [])).status ≡ 0
        → (lines_outcome messages answer (first ++ newline ∷ second)).status ≡ (lines_outcome messages answer second).status }
{}

/// After lines that are not too long, one that is too long ends the answers, whatever follows it. It is reported by its
/// number, counted from 1.
pub fn a_line_too_long_is_reported_by_its_number()
    ensures { (messages : Text) (answer : Text → Text) (before : List Text) (long later : Text)
        → AllByRecursion (λ line. (newline_count line ≡ 0) × (is_too_long line ≡ false)) before → newline_count long ≡ 0 → is_too_long long ≡ true
        → lines_outcome messages answer (flat_map (λ line. line ++ newline ∷ []) before ++ (long ++ later)) ≡ record {
          output = flat_map answer before;
          messages = messages ++ too_long_line (length before + 1);
          status = 1;
        } }
{}
