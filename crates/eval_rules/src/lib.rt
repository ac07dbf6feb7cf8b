//! All rules over one event, as they were read.
//!
//! A rule is evaluated in five steps, each a sequence of parts that may stop the rule. The rules of all files are one
//! list, and a jump skips rules up to the one with its label. Both are defined as folds over the scene, so that what
//! holds for each step holds for all rules. Commands are rendered when no rule is left, and only then is the outcome
//! made. Under udev's profile, a rule with nothing that counts for the event is skipped, and commands are rendered at
//! their rule.
#![tactic(auto)]

mod evaluating;
mod idle;
mod laws;
mod outcome;
mod rules;
mod steps;
mod watch;

pub use evaluating::{evaluate_plain, finish, made_command, run_text};
pub use idle::{is_idle, note_all};
pub use laws::{manual_evaluates_every_rule, skipped_rule_lacks_nothing};
pub use outcome::{Command, Commands, Outcome};
pub use rules::{is_passed, run_watched, sought_after};
pub use steps::{apply, apply_watched, plain_step, search};
pub use watch::{Moment, Watch};
