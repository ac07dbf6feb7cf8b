//! Warnings about rules that are probably not what their author meant, among the rules of their file.
//!
//! The lints of one rule come from `rule_lints`. Here are those that need all rules of a file: properties that are
//! imported only further down, assignments that are compared elsewhere, and rules that are never reached. All lints of
//! a file have their places here.
#![tactic(auto)]

mod beside;
mod by_name;
mod file_laws;
mod file_lints;
mod file_rule;
mod guarded;
mod imported;
mod imported_below;
mod late;
mod matches;
mod meant;
mod reached;
mod valued;

pub use file_laws::{
    abandoned_files_have_no_lints, assignments_come_before_matches, imports_are_further_down,
    lints_are_those_of_the_rules, rules_that_are_reached_are_not_reported, some_late_files,
    some_later_families, some_tokens_of_access,
};
pub use file_lints::{FileNames, RulesAbove, lints_of_line, lints_of_lines};
