//! `events --unused`: the rules that no event of a run met, each with the key that stopped most events.
//!
//! Rules are evaluated by `eval_courses` once more for each event, which says what became of each rule. Only counts are kept
//! from one event to the next: for each rule how many events reached it, and how many of these ended at each of its keys.

pub(crate) mod laws;
mod lines;
mod rows;
pub(crate) mod tally;
