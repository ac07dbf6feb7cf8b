//! Nodes by number, however they are held.
ghost use Rattle.std.specs.Prelude.{◌≡◌, ◌+◌, ◌<◌, ◌≤◌, List, length};
ghost use Rattle.trie_nodes.specs.Found.{found_entry};
ghost use Rattle.trie_nodes.specs.Tree.{Shape, is_star, node_at};
ghost use Rattle.trie_nodes.specs.Values.{Value, bare, value_at};
ghost use Rattle.trie_nodes.specs.declared.node.Node.{Node};
ghost use Rattle.text_core.specs.Items.{takes};

use crate::found::Found;
use std::ops::Range;

/// A tree of labels, the root being node 0, and the values that its nodes have.
///
/// Nodes are ordered level by level, so that the children of a node follow one another, and each of them follows
/// its parent.
pub trait Nodes {
    /// The nodes, by number.
    ghost nodes: { Self → List Node };

    /// How many nodes there are.
    fn len(&self) -> u32
        ensures { result ≡ length (nodes self.now) };

    /// The number of the root; its contract says that the nodes are a tree.
    fn root(&self) -> u32
        ensures value { result ≡ 0 }
        ensures tree { Shape (nodes self.now) };

    /// The numbers of a node's children.
    fn children(&self, i: u32) -> Range<u32>
        requires { i < length (nodes self.now) }
        ensures start { result.start ≡ (node_at (nodes self.now) i).first }
        ensures end { result.end ≡ (node_at (nodes self.now) i).first + (node_at (nodes self.now) i).count };

    /// Whether a node's label is `*`.
    fn is_star(&self, i: u32) -> bool
        requires { i < length (nodes self.now) }
        ensures { result ≡ is_star (node_at (nodes self.now) i).label };

    /// Whether a node's label takes a byte.
    fn takes(&self, i: u32, byte: u8) -> bool
        requires { i < length (nodes self.now) }
        ensures { result ≡ takes (node_at (nodes self.now) i).label byte };
}

/// A tree whose values are the properties of a database.
pub trait Database: Nodes {
    /// The values, by number.
    ghost values: { Self → List Value };

    /// The numbers of a node's values.
    fn values_of(&self, i: u32) -> Range<u32>
        requires { i < length (Self.nodes self.now) }
        ensures start { result.start ≡ (node_at (Self.nodes self.now) i).first_value }
        ensures end { result.end ≡ (node_at (Self.nodes self.now) i).first_value + (node_at (Self.nodes self.now) i).values }
        ensures within { result.end ≤ length (values self.now) };

    /// A value.
    fn value(&self, j: u32) -> Found<'_>
        requires { j < length (values self.now) }
        ensures { found_entry result ≡ bare (value_at (values self.now) j) };
}
