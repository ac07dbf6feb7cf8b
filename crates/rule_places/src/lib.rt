//! Where the findings of a rules file are, and its style mended.
//!
//! Each finding about a joined line has its place among the joined bytes. The physical place, which is the line, the column and
//! the whole text of a message, follows from the lines of the file that were kept, each with the place at which it begins among
//! these bytes.
//!
//! What is mended is commas and blanks between tokens, and nothing else. What is proposed for a file is read again, and counts
//! only if it is read as the same rules, line by line, with nothing left to mend. Where a line is cut, its indentation, its
//! comments and its tokens stay as they are.
#![tactic(auto)]

mod abandoned;
mod alike;
mod examples;
mod faults;
mod file_findings;
mod format_laws;
mod gaps;
mod kept;
mod laws;
mod lines;
mod mending;
mod placed_finding;
mod placed_spots;
mod proposing;
mod rewriting;
mod stretches;

pub use abandoned::abandoned_findings;
pub use examples::{
    commas_and_blanks_are_mended, continued_lines_keep_their_indentation, other_lines_stay,
};
pub use file_findings::placed_lines;
pub use format_laws::{
    changed_files_are_mended_whole, comments_stay, files_without_such_messages_stay,
    joined_lines_say_the_same, mended_files_stay, mended_lines_keep_their_tokens,
    nothing_is_mended_twice, rules_stay, what_is_reported_is_mended,
};
pub use kept::KeptLines;
pub use laws::{
    abandoned_files_are_reported_for_one_line, findings_are_in_their_lines,
    findings_are_the_messages, first_commas_precede_tokens, joined_lines_are_kept_lines,
    last_commas_follow_tokens, long_lines_are_reported_as_a_whole,
    open_lines_are_reported_at_their_backslash, places_are_in_their_lines, places_show_their_bytes,
    rules_are_reported_as_a_whole, values_are_between_quotes, words_are_at_their_places,
};
pub use mending::mended_rules;
pub use placed_finding::PlacedFinding;
pub use placed_spots::place_spots;
