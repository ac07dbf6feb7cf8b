//! Where the parts of an outcome come from: the rule that is responsible for each item.
//!
//! Rules are evaluated as they were read, while a table keeps the current items, each with the rule that changed it
//! last; after each rule the items that it may have changed are looked at, and only after a rule that acts or replaces
//! links or tags all of them. The definition needs no walk: an item comes from the first rule after which it is present,
//! unchanged, until the end.
#![tactic(auto)]

mod commands;
mod evaluating;
mod found;
mod look_ups;
mod node;
mod reporting;
mod sources;
mod touched;

pub use commands::SourcedCommand;
pub use evaluating::{Sourced, evaluate_sources};
pub use sources::Sources;
