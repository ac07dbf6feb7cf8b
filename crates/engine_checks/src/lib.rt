//! The checks of files: what `verify` and `update` report, and in which format.
//!
//! With `--lint`, the messages about each rule are followed by its lints. `--ignore` names codes, and messages and
//! lints with these codes are neither printed nor counted. If the word `comments` is among them, comments in the files
//! can name codes too. The report is assembled as diagnostics, file by file, and written in the format that was
//! asked for. Plain lines are written as they are found.
#![tactic(auto)]

mod asked;
mod by_line;
mod checks;
mod codes;
mod comment_laws;
mod comment_remarks;
mod counted;
mod database_lints;
mod database_reported;
mod file_text;
mod found;
mod ignores;
mod in_format;
mod laws;
mod line_codes;
mod lines_found;
mod link_checks;
mod link_faults;
mod link_paths;
mod lint_laws;
mod lints;
mod met;
mod reads;
mod reported;
mod rules_found;
mod rules_reported;
mod silenced;
mod single;
mod starts;
mod told;
mod told_lines;
mod updates;

pub use checks::report_on_verify;
pub use comment_laws::{
    codes_are_in_their_comments, comments_are_about_what_follows, comments_silence_or_are_reported,
    found_is_reported_or_silenced,
};
pub use laws::ignored_codes_alone_are_left_out;
pub use link_checks::{report_on_links, serve_links};
pub use lint_laws::{
    comments_count_for_lints, lints_are_reported_where_asked,
    messages_are_reported_as_without_lints,
};
pub use reads::FileRead;
pub use reported::Asked;
pub use single::{
    a_file_by_itself_is_reported_alike, diagnostics_of_database, diagnostics_of_rules,
};
pub use updates::report_on_update;
