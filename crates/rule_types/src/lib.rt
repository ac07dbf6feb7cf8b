//! What a rule is: its keys, what each of them takes, its parts, the builtins of udev, and the rules of files with their jumps
//! and labels.
//!
//! Evaluating rules needs these types and not how rules are read, so this crate is below both. Of jumps it says which have no
//! later label, which labels have no jump, and how many rules each jump skips.
#![tactic(auto)]

mod builtins;
mod jumps;
mod keys;
mod modes;
mod operators;
mod part;
mod passed;
mod passes;
mod roles;
mod rule;
mod rule_option;
mod rule_set;
mod spot;
mod topics;
mod types;
mod written;
mod written_part;
mod written_parts;

pub use builtins::{BUILTINS, Builtin, builtin_of, first_word};
pub use jumps::{Jump, Landing};
pub use keys::{Key, key_of};
pub use modes::mode_of;
pub use operators::{is_add_or_final, is_read_as_assign, read_as};
pub use part::{Act, ActKind, Assignment, Change, Comparison, Import, Part, PlainMatch, UpMatch};
pub use passed::skipped;
pub use passes::landings;
pub use roles::{AssignOperator, MatchOperator, PlainKey, Role, Target, UpKey, role_of};
pub use rule::Rule;
pub use rule_option::RuleOption;
pub use rule_set::RuleSet;
pub use rule_tokens::Operator;
pub use spot::{Spot, spot_at_key, value_spot};
pub use topics::{Topic, topic_of};
pub use types::{ImportType, RunType, import_type_of, run_type_of};
pub use written_part::WrittenPart;
