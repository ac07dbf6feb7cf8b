//! Programs: rules laid out for evaluation, which give the same answers as the rules that were read, faster.
//!
//! `compile` keeps the rules as they are and puts lists beside them: for each rule, how many rules its jump skips, and
//! its *course*, which is what can be known of it in advance. A rule may be a label or a jump alone; it may begin with
//! a match of the action, of which it is known in advance for which actions it holds; it may begin with another match
//! of the event that has a *check*; it may be one `!=` match with a check; it may search the chain for a device
//! with a *mark*; or nothing is known. A check compares a 64-bit number made of one text of the event (a *sketch*), or
//! its first byte. A mark is one of 2,048 numbers made of a thing and its value, such as an attribute. For each event
//! the checks and marks are looked up once. If they decide the outcome of a rule, it is not evaluated; every other rule
//! is evaluated by the same function as without a program.
//!
//! This is right for four reasons, each a lemma: rules skipped by a jump are as many as were counted; no rule changes
//! what the event says about its devices; a text with another sketch or first byte does not fit; and a device without
//! the mark does not meet the match. If two things have the same sketch or mark, the rule is evaluated, and so is every
//! rule under udev's profile.
#![tactic(auto)]

mod actions;
mod checks;
mod courses;
mod heads;
mod marks;
mod program;
mod running;
mod seen;
mod sketches;

pub use builtin_devices::Knowledge;
pub use device_core::Event;
pub use eval_rendering::{Mode, Rendered, render};
pub use eval_rules::{Command, Commands, Outcome, apply, evaluate_plain, finish};
pub use eval_state::{Chain, Label, Labels, Note, NoteKind, Notes, Scene, State};
pub use heads::{exact_head, first_byte};
pub use program::{Program, compile};
pub use rule_types::{Rule, RuleSet, RunType};
pub use sketches::{exact_sketch, sketch};
pub use text_tables::{CowPairs, OwnedTexts, SortedPairs};
