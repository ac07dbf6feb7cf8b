//! The two readings of a text.
//!
//! Both are read by the same code, and differ in two places: which bytes a byte that means itself
//! stands for, and which bytes the members of a set have.

/// How a text is read.
#[derive(Clone, Copy, PartialEq, Eq)]
pub enum Reading {
    /// Each byte is itself.
    Exact,
    /// An ASCII letter stands for both its cases.
    Blind,
}
