//! What TEST, PROGRAM and IMPORT do, which builtin a command names with which options, and what a match that is
//! reached leaves.
#![tactic(auto)]

mod act_texts;
mod acting;
mod builtin_runs;
mod hwdb_runs;
mod imports;
mod printed;
mod questions;
mod reaching;
mod root_imports;
mod stored;
mod unread;

pub use act_texts::{import_text, names_text, program_text, test_text};
pub use acting::act_step;
pub use reaching::match_reached;
pub use stored::{is_removal, is_stored_known};
pub use unread::first_unread;
