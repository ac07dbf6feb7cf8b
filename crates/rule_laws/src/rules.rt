//! What is true of the rules of files, whatever is in the files.
//!
//! Each function here is empty: its contract is the law.
ghost use Rattle.std.specs.Prelude.{◌≡◌, [], List, ℕ, None, Some, All};
ghost use Rattle.text_bytes.specs.declared.profile.Profile.{Profile};
ghost use Rattle.text_bytes.specs.declared.profile.Profile.TheVariants.{Manual};
ghost use Rattle.text_bytes.specs.declared.source_file.SourceFile.{SourceFile};
ghost use Rattle.rule_laws.specs.Jumps.{JumpsStayInTheirFiles};
ghost use Rattle.rule_laws.specs.Laws.{IsUnderstood};
ghost use Rattle.rule_laws.specs.Order.{AreInOrder};
ghost use Rattle.rule_laws.specs.Outcomes.{IsAbandoned, IsReadByLine};
ghost use Rattle.rule_core.specs.Ends.{abandoned};
ghost use Rattle.rule_core.specs.Rules.{file_messages, set_of_as};

/// In files about which there is no message, every line is a rule or part of one, empty, or a comment. Every rule
/// is then its joined line, just as it is written.
pub fn files_without_messages_are_understood()
    ensures { (by : Profile) (files : List SourceFile) → (set_of_as by files).messages ≡ [] → All (IsUnderstood by) files }
{}

/// Every joined line of a file is one rule, or no rule and exactly one message. A rule has its jump if and only if
/// a later rule of its file has the label. A file that udev gives up has no rule and one message.
pub fn each_line_is_a_rule_or_a_message()
    ensures kept { (by : Profile) (file : SourceFile) → abandoned by file.bytes ≡ None → IsReadByLine by file }
    ensures lost { (by : Profile) (file : SourceFile) (line : ℕ) → abandoned by file.bytes ≡ Some line → IsAbandoned by file line }
{}

/// By the manual the messages about a file are ordered by line, and those about one line by kind: the V by number,
/// then S1 to S3, and S4 last.
pub fn messages_are_in_order()
    ensures { (file : SourceFile) → AreInOrder (file_messages Manual file) }
{}

/// Of the rules of all files, the next after a jump that has its label is in the jump's own file, even if two files
/// have the same name. So a jump has to skip just the rules up to that one.
pub fn jumps_stay_in_their_files()
    ensures { (files : List SourceFile) → JumpsStayInTheirFiles files }
{}
