//! What a command says about the files that were read: the messages about them, and the answer.
//!
//! This crate opens no file and knows no terminal: files are bytes and outputs are sinks. The report is built first, as
//! one text for each output, and then written, so that running out of memory never leaves half an answer. For `events`
//! this is only what comes before the first answer; the answers are made by the crates above, since they need
//! everything that evaluates rules.
//!
//! For `query -` it answers the modaliases of an input, one a line, each before the next read. Nothing of a line is kept after
//! its answer, and nothing more is read after more than 65,536 bytes of one that has not ended.
#![tactic(auto)]

mod answers;
mod counts;
mod database;
mod databases;
mod delivery;
mod file_choice;
mod held;
mod indexes;
mod inputs;
mod law;
mod laws;
mod lookup_answers;
mod lookups;
mod messages;
mod opening;
mod refusal;
mod report;
mod turning;

pub use answers::answer_lines;
pub use counts::{Named, report_on_files};
pub use database::{open_database, report_on_query};
pub use databases::serve_lookups;
pub use delivery::{deliver_refusal, deliver_report, deliver_usage_error};
pub use file_choice::files_read;
pub use indexes::open_index;
pub use law::an_index_opens_to_one_thing;
pub use laws::{
    a_line_alone_is_a_query, a_line_too_long_is_reported_by_its_number,
    answers_to_lines_follow_one_another,
};
pub use opening::{RulesRead, open_rules, open_with_database};
pub use refusal::Refusal;
pub use report::Report;
