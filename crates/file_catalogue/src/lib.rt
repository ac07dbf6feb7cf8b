//! The catalogue of codes: for each, what it is reported for, what it says, how to fix the file, and what it means, with a
//! file that causes it and the corrected file.
//!
//! A code is a row of one table, and a section, which is that of `docs/messages.md`, for users who don't have the documents at
//! hand. All else that is known of codes is looked up there.
#![tactic(auto)]

mod comments;
mod database;
mod database_lints;
mod effects;
mod ignored;
mod laws;
mod link_faults;
mod lint_rows;
mod lints;
mod message_rows;
mod remark;
mod rules;
mod sections;
mod style;
mod texts;
mod udev;
mod values;

pub use ignored::{ignored_codes, unknown_ignored};
pub use laws::{
    a_heading_is_its_code_and_text, each_remark_is_found, each_section_is_on_its_code,
    style_is_a_warning,
};
pub use remark::{Remark, Row, Severity, known_codes, remark_of, remarks};
pub use sections::explanation;
