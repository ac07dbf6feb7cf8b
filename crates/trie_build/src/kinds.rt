//! The kinds of nodes: the root, and one for each item of a pattern that leads to a node.

/// The root, to which nothing leads.
pub const ROOT: u8 = 0;

/// A node that one byte leads to.
pub const BYTE: u8 = 1;

/// A node that any byte leads to.
pub const ONE: u8 = 2;

/// A node that any number of bytes lead to, also none.
pub const MANY: u8 = 3;

/// A node that a byte of a set leads to, the last of the kinds.
pub const AMONG: u8 = 4;
