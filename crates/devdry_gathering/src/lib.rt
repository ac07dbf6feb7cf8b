//! What a run of the program takes, gathered before it begins.
//!
//! The words of a command line are read, then all that they ask for: the standard input if they name it as a file,
//! files of users and groups, `.link` files, rules, databases, an index, and what rules import. What comes of that is
//! one value, with all that is reported before the run, in its order. Nothing is written here, and from here on no file
//! is opened.
#![tactic(auto)]

mod gathered;
mod gathering;
mod links;
mod notes;
mod reading;
mod said;
mod terminals;
mod words;

pub use gathered::{Ended, Gathered, Inputs, Work};
pub use gathering::gather;
pub use terminals::Terminals;
pub use words::all_words;
