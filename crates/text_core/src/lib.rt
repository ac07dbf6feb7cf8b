//! Patterns of bytes, choices between them, and which texts fit.
//!
//! Rules and the hardware database both match texts against patterns, so patterns are below the crates that read them.
//! `text_bytes` comes with this crate.
#![tactic(auto)]

mod brackets;
mod byte_class;
mod byte_set;
mod choice;
mod closings;
mod elements;
mod fnmatch;
mod glob;
mod glob_fault;
mod item;
mod one_pattern;
mod packed;
mod pattern;
mod reading;
mod sets;
mod spell;
mod symbols;

pub use byte_set::ByteSet;
pub use choice::Choice;
pub use fnmatch::is_special;
pub use glob_fault::GlobFault;
pub use item::Item;
pub use packed::PackedPattern;
pub use pattern::Pattern;
pub use reading::Reading;
pub use text_bytes::{Bytes, FileKind, SourceFile, escape, find, order_files};
