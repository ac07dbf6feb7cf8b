//! Why rules did what they did, for the rules that `--why` asks for, the commands that rules ask for, as `--questions` lists
//! them, and the rules that no event met, as `--unused` does.
//!
//! An argument of `--why` is the name of a rules file, or `FILE:LINE`. One that matches nothing is reported before any
//! event. The answer to an event is followed by lines on the rules that were asked for: why a line is not a rule,
//! which rule's GOTO skips a rule, or what each of its keys found. For these lines the rules are evaluated again, while
//! something watches them.
//!
//! What rules ask and the event's block does not answer is written as lines that can be filled in and put into the block.
#![tactic(auto)]

mod answers;
mod asked;
mod laws;
mod lines;
mod meant;
mod named;
mod nearest;
mod places;
mod questions;
mod reporter;
mod reporting;
mod unknown;
mod unused;

pub use answers::push_why_lines;
pub use laws::{
    a_file_that_may_be_meant_was_read, first_unknown_is_reported, nothing_is_reported_unasked,
    rules_are_reported_where_asked, unknown_asks_for_nothing,
};
pub use questions::question_answer;
pub use unknown::first_unknown;
pub use unused::laws::{
    a_rule_that_an_event_met_has_no_line, a_rule_that_no_event_reached_is_not_reached,
    each_event_is_counted_where_it_ended, each_rule_is_counted_by_its_own_fates,
    no_key_stopped_more_events_than_the_one_named,
};
pub use unused::tally::UnusedTally;
