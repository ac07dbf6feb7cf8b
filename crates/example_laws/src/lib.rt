//! Examples of what `events`, `verify`, `update` and the language server answer: each is the contract of an empty function, and says
//! by the texts of files and that of an input what the whole answer is.
//!
//! The definitions compute, from the bytes of the files to those of the answer, so that a wrong one fails some example. No
//! crate depends on this one.
#![tactic(auto)]

pub mod acts;
pub mod assignments;
pub mod checks;
pub mod events;
pub mod links;
pub mod matches;
pub mod reports;
pub mod sessions;
pub mod stored;
pub mod substitutions;
pub mod udev;
pub mod unused;
