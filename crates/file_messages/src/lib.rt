//! Messages about a line of a file: of the database, of rules, and of how rules are written.
//!
//! Whoever reads files stands on this crate, and nobody else does: a new kind of message leaves the crates of texts,
//! tries, blocks and evaluation as they are.
#![tactic(auto)]

mod message;

pub use message::{Message, MessageKind};
