//! The hardware database as it is written: reads its files into entries and messages, and lints them.
//!
//! The format is that of hwdb(7): paragraphs of matches with properties below them, which become one entry for each
//! pair of match and property. A file is read by lines, in one pass. Each paragraph is then cut into its four parts and
//! read part by part, so that each part has a small function with a clause of its own. The entries of `trie_nodes` come
//! with this crate.
//!
//! A lint is about a line that is read, but most likely not as it was meant. It looks at the line, and at the matches and
//! properties that come before it in its file. The matches that a device can fit are in the tables of `modaliases`, the
//! values of properties in those of `properties`.
#![tactic(auto)]

mod before;
mod database;
mod earlier_laws;
mod fault;
mod file_lints;
mod forms;
mod gathered;
mod laws;
mod line_lints;
mod lines;
mod lint;
mod matches;
mod modaliases;
mod names;
mod paragraph;
mod placed_lint;
mod properties;
mod reading;
mod record_keys;
mod ruling;
mod values;

pub use database::{Database, read_fitting, read_sources};
pub use earlier_laws::{
    all_earlier_matches_count, earlier_keys_of_the_record_count,
    lines_are_looked_at_by_those_before_them,
};
pub use fault::HwdbFault;
pub use file_lints::database_lints;
pub use laws::{
    a_match_is_given_twice_in_its_file, blanks_belong_to_nothing,
    digits_have_the_case_of_their_prefix, matches_end_where_modaliases_do, names_are_those_of_udev,
    properties_take_their_values, reported_matches_fit_no_modalias,
};
pub use lint::DatabaseLint;
pub use placed_lint::PlacedLint;
pub use trie_nodes::{Entry, Lookup, PlainDb, Sourced, rising, winners_are_the_answer};
