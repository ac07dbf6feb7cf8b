//! A node, as a contract sees it.

use text_core::Item;

/// A node of a tree whose nodes are ordered level by level: its label, and where its children and its values are
/// among all.
#[derive(Clone, Copy)]
pub struct Node {
    /// What a text has to have next to reach this node from its parent. The root's is never used.
    pub label: Item,
    /// The number of its first child; the others follow.
    pub first: u32,
    /// How many children it has.
    pub count: u32,
    /// The number of its first value; the others follow.
    pub first_value: u32,
    /// How many values it has.
    pub values: u32,
}
