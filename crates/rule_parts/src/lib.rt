//! Reads a token as a part of a rule, after checking its key, its attribute, its operator and its value.
//!
//! Faults of a token are found here, in the order in which udev looks for them: the key, the attribute, the operator,
//! the value. `rule_types` says what each key takes, so that no key needs a case of its own here.
#![tactic(auto)]

mod finding;
mod options;
mod reading;
mod refusals;
mod values;

pub use finding::{Finding, PartFault};
pub use options::{is_known_option, level_of, option_of};
pub use reading::{is_read_as_assign, is_something, read_part};
pub use rule_types::{
    Act, ActKind, Assignment, Change, Comparison, Import, Part, PlainMatch, RuleOption, UpMatch,
};
