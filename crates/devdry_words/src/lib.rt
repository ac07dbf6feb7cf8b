//! Parses the command line of `devdry`, with `clap`.
//!
//! This is a crate of its own because everything that depends on `clap` is slow to check: the types that the arguments
//! become are in `engine_sessions`, and only the program needs this crate.
#![tactic(auto)]

mod added;
mod arguments;
mod commands;
mod endings;
mod ignored;
mod laws;
mod line_reading;
mod options;
mod parse;
mod piped;
mod refusals;
mod reporting;
mod subcommands;
mod values;

pub use laws::no_reason_is_met_by_what_is_taken;
pub use options::{options_in, with_options};
pub use parse::parse_line;
