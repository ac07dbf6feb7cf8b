//! What udev reports about rules that it keeps: values, attributes and options that it accepts although something is
//! wrong with them, and tokens of one rule that say the same or exclude each other.
//!
//! A line that is not a rule is reported when it is read, and not here. Each report has the place that it is about,
//! so that it can be sorted among the findings of reading. Each token is reduced to its subject and its comparison, so that two
//! tokens are compared regardless of their spelling.
#![tactic(auto)]

mod account_lines;
mod account_list;
mod accounts;
mod attributes;
mod examples;
mod files;
mod form;
mod known;
mod laws;
mod matter;
mod order;
mod pair_finding;
mod pair_laws;
mod pairs;
mod relations;
mod rule_remarks;
mod said;
mod token_remarks;
mod values;
mod words;

pub use account_lines::read_accounts;
pub use account_list::AccountList;
pub use accounts::{Account, AccountKind, Accounts};
pub use examples::{some_act_kinds, some_matches};
pub use files::{line_remarks, remarks_of_lines};
pub use laws::{
    late_programs_follow_results, lines_never_fall, no_tokens_have_no_remarks,
    remarks_are_reported_for_rules, some_accounts, the_manual_reports_findings_alone,
    values_are_between_quotes, ways_up_are_in_their_names, words_are_at_their_places,
};
pub use pair_laws::{
    likeness_has_no_order, no_pair_is_of_both_kinds, no_text_begins_with_both,
    same_words_are_one_set, the_first_pair_of_a_kind_is_reported,
    what_two_tokens_say_makes_the_message, words_are_the_parts_between_bars,
};
