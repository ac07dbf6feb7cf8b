//! Laws of events and answers: of blocks and devices, of what a rule changes and what an answer weighs, of the lines of answers
//! and where they come from, of questions, of what is told of rules, and of the status of checks.
//!
//! A law is the contract of a function with an empty body. No crate depends on this one.
#![tactic(auto)]

mod acts;
mod asking;
mod assignments;
mod blocks;
mod builtins;
mod changes;
mod checks;
mod comparing;
mod courses;
mod devices;
mod events;
mod lengths;
mod lookups;
mod matching;
mod naming;
mod outputs;
mod printed;
mod programs;
mod questions;
mod rendering;
mod root_files;
mod root_lookups;
mod safe_texts;
mod shown_changes;
mod sketches;
mod sources;
mod stored;
mod turns;
mod weight;
mod words;
