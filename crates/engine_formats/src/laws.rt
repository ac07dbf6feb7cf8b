//! Laws that show the definitions cited by the other contracts to be right.
//!
//! Each function has an empty body, and its contract is a law of the definitions.
ghost use Rattle.std.specs.Prelude.{◌≡◌, ◌+◌, ◌-◌, ◌*◌, ◌^◌, ◌<◌, ◌≤◌, Bool, ◌==◌, not, false, if◌then◌else◌, List, [], ◌∷◌, ◌++◌};
ghost use Rattle.std.specs.Prelude.{All, bytes_eq, codes, encode_utf8, flat_map, length, map};
ghost use Rattle.std.specs.List.{filter, list_any, range_with_len};
ghost use Rattle.text_bytes.specs.Text.{Text};
ghost use Rattle.text_bytes.specs.Lines.{lines, numbered_lines};
ghost use Rattle.text_bytes.specs.Texts.{word_of};
ghost use Rattle.file_messages.specs.declared.message.Message.{Message};
ghost use Rattle.text_bytes.specs.declared.source_file.SourceFile.{SourceFile};
ghost use Rattle.hwdb_core.specs.Sources.{messages_of};
ghost use Rattle.engine_sessions.specs.declared.line.Format.{Format};
ghost use Rattle.engine_reports.specs.Messages.{message_lines};
ghost use Rattle.engine_formats.specs.Diagnostics.{DiagnosticValue};
ghost use Rattle.engine_formats.specs.Formats.{formatted};
ghost use Rattle.engine_formats.specs.Github.{github_place, github_property, github_text};
ghost use Rattle.engine_formats.specs.Human.{human_lines, shown_byte};
ghost use Rattle.engine_formats.specs.Made.{AreMadeFrom, IsFoundIn};
ghost use Rattle.engine_formats.specs.Marks.{PointsAt, line_after};
ghost use Rattle.engine_formats.specs.Masked.{masked};
ghost use Rattle.engine_formats.specs.Placing.{placed};
ghost use Rattle.engine_formats.specs.Readers.{HasPlace, ends_line, ends_property, github_read, property_at};

/// Diagnostics that are made from messages are by default written as these messages are.
pub fn messages_are_plain_diagnostics()
    ensures { (messages : List Message) (diagnostics : List DiagnosticValue) → AreMadeFrom messages diagnostics
        → formatted Format.Plain diagnostics ≡ message_lines messages }
{}

/// No line ends in what a workflow command says, and neither does a property in its text.
pub fn commands_end_nowhere_within()
    ensures text { (said : Text) → list_any ends_line (github_text said) ≡ false }
    ensures property { (value : Text) → list_any ends_property (github_property value) ≡ false }
{}

/// What a workflow command says is read back as it was, and so is a property; the path is the one by which the file
/// was opened.
pub fn commands_are_read_back()
    ensures text { (said : Text) → github_read (github_text said) ≡ said }
    ensures property { (value : Text) → github_read (github_property value) ≡ value }
    ensures path { (d : DiagnosticValue) → github_read (property_at (codes " file=") (github_place d)) ≡ d.path }
{}

/// The text at the place of a message about a database is the one whose first bytes the message keeps, if the
/// file's lines are few enough to be reported by number. If the lines are short enough, it is at the columns that
/// are reported, in the line that is reported.
pub fn messages_are_at_their_words()
    ensures word { (file : SourceFile) → length (lines file.bytes) < 2 ^ 32
        → All (λ m. word_of (placed (numbered_lines file.bytes) m).word ≡ m.word) (messages_of (file ∷ [])) }
    ensures place { (file : SourceFile) → length (lines file.bytes) < 2 ^ 32 → All (λ line. length line < 2 ^ 32 - 1) (lines file.bytes)
        → All (λ m. IsFoundIn (numbered_lines file.bytes) m.line (placed (numbered_lines file.bytes) m)) (messages_of (file ∷ [])) }
{}

/// In the format for people the mark `^` is below the first byte of the place, in colors and without.
/// A line of at most 160 bytes is shown whole.
pub fn marks_are_below_their_places()
    ensures mark { (in_color : Bool) (d : DiagnosticValue) → HasPlace d → d.column ≤ length d.source + 1
        → PointsAt (masked d.source) d.column (line_after 1 (human_lines in_color d)) (line_after 2 (human_lines in_color d)) }
    ensures whole { (in_color : Bool) (d : DiagnosticValue) → HasPlace d → length d.source ≤ 160
        → line_after 1 (human_lines in_color d) ≡ codes "  " ++ map shown_byte (masked d.source) }
{}

/// What a terminal would obey, what changes the order of a line, and what ends one elsewhere becomes a sign that a terminal
/// shows: of the first 8,448 characters of Unicode just the control characters U+0080 to U+009F, the marks of direction, U+2028
/// and U+2029. A text is as long as it was, and has nothing left to mask. Bytes that are no characters stay.
pub fn terminals_are_not_obeyed()
    ensures characters { filter (λ c. not (bytes_eq (masked (encode_utf8 c)) (encode_utf8 c))) (range_with_len 0 8448)
        ≡ range_with_len 128 32 ++ 1564 ∷ range_with_len 8206 2 ++ range_with_len 8232 7 ++ range_with_len 8294 4 }
    ensures signs { masked (flat_map encode_utf8 (128 ∷ 159 ∷ 1564 ∷ 8206 ∷ 8207 ∷ 8232 ∷ 8238 ∷ 8294 ∷ 8297 ∷ []))
        ≡ flat_map encode_utf8 (191 ∷ 191 ∷ 1542 ∷ 8253 ∷ 8253 ∷ 8253 ∷ 8253 ∷ 8263 ∷ 8263 ∷ []) }
    ensures nothing_left { (text : Text) → masked (masked text) ≡ masked text }
    ensures as_long { (text : Text) → length (masked text) ≡ length text }
    ensures others { masked (155 ∷ 156 ∷ 128 ∷ 174 ∷ 225 ∷ 128 ∷ 174 ∷ 226 ∷ 130 ∷ 174 ∷ []) ≡ 155 ∷ 156 ∷ 128 ∷ 174 ∷ 225 ∷ 128 ∷ 174 ∷ 226 ∷ 130 ∷ 174 ∷ [] }
{}

/// The formats for people and for GitHub have a line for each diagnostic, or four if its line is shown, whatever
/// bytes the file's name, its path, its line and the word have.
pub fn diagnostics_have_their_lines()
    ensures plain { (diagnostics : List DiagnosticValue) → All HasPlace diagnostics → length (lines (formatted Format.Plain diagnostics)) ≡ length diagnostics }
    ensures gcc { (diagnostics : List DiagnosticValue) → All HasPlace diagnostics → length (lines (formatted Format.Gcc diagnostics)) ≡ length diagnostics }
    ensures github { (diagnostics : List DiagnosticValue) → All HasPlace diagnostics
        → length (lines (formatted Format.Github diagnostics)) ≡ length diagnostics }
    ensures human { (diagnostics : List DiagnosticValue) → All HasPlace diagnostics
        → length (lines (formatted Format.Human diagnostics)) ≡ 4 * length diagnostics }
    ensures in_color { (diagnostics : List DiagnosticValue) → All HasPlace diagnostics
        → length (lines (formatted Format.HumanInColor diagnostics)) ≡ 4 * length diagnostics }
{}
