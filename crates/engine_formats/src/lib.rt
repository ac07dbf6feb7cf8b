//! Diagnostics: messages about a place in a file, in each of the formats in which they can be written.
//!
//! A diagnostic is made from a message about a file and the place that the message is about. The whole report is built
//! as one text before any of it is written.
#![tactic(auto)]

mod columns;
mod diagnostic;
mod fingerprints;
mod formats;
mod gcc;
mod github;
mod github_escapes;
mod gitlab;
mod hints;
mod human;
mod json_members;
mod laws;
mod marks;
mod meant;
mod near;
mod near_laws;
mod objects;
mod paint;
mod parts;
mod paths;
mod placing;
mod plain;
mod reader_laws;
mod sarif;
mod signs;
mod uris;

pub use diagnostic::Diagnostic;
pub use formats::{formatted, is_report};
pub use hints::push_advice_for;
pub use laws::{
    commands_are_read_back, commands_end_nowhere_within, diagnostics_have_their_lines,
    marks_are_below_their_places, messages_are_at_their_words, messages_are_plain_diagnostics,
    terminals_are_not_obeyed,
};
pub use marks::shown_byte;
pub use meant::meant_as;
pub use near::nearest;
pub use near_laws::{
    options_that_are_meant_are_known, some_unknown_names_are_found, the_nearest_name_is_found,
};
pub use paths::path_of;
pub use placing::{TextPlace, file_lines, line_numbered, placed_message};
pub use reader_laws::{
    a_gitlab_report_is_an_array, a_sarif_log_is_an_object, each_json_line_is_an_object,
    fingerprints_differ, fingerprints_stay, fingerprints_tell_lines_apart, logs_are_read_back,
};
pub use signs::{masked, shown_in};
