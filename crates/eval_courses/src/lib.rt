//! The course of a rule over an event: the keys that were reached, what each of them found, and how the rule ended; and
//! what rules ask of an event that its block does not answer.
//!
//! Rules are evaluated by `eval_rules` while something watches. Each key is reported along with its step: what a match
//! looks at before the step, and what an act sets after it. After a key that stops the rule, only the fact that it stops
//! is reported.
//!
//! A command is asked if a PROGRAM looks it up while the rules are evaluated, under udev also an IMPORT{program}, and the
//! event has no answer to it. What an act asks is looked at before the act is done. So an answer that is filled in may
//! lead to further questions, since rules then go on.
#![tactic(auto)]

mod acts;
mod answers;
mod asking;
mod asks;
mod commands;
mod fate;
mod imports;
mod key_lists;
mod keys;
mod laws;
mod moments;
mod noting;
mod plain;
mod properties;
mod skipped;
mod subjects;
mod upward;

pub use acts::report_act;
pub use asking::questions;
pub use commands::can_be_asked;
pub use fate::Fate;
pub use key_lists::rule_keys;
pub use laws::{
    course_ends_as_its_rule, course_says_what_is_skipped, each_rule_has_its_fate,
    keys_reached_are_the_first_of_a_rule, rule_is_met_where_all_its_keys_let_it_go_on,
    search_names_no_device_where_none_meets, search_names_the_first_to_meet,
};
pub use moments::report_moment;
pub use noting::fates;
