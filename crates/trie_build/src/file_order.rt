//! The order of the values of an index: node by node.
//!
//! The values of a trie are ordered by patterns, so that its nodes are ranges of them. Those of an index are
//! ordered level by level, as its nodes are.
ghost use Rattle.std.specs.Prelude.{◌≡◌, ◌+◌, ◌≤◌, All, IfOk, flat_map, length};
ghost use Rattle.trie_build.specs.Held.{own_numbers};

use std::alloc::{AllocError, Global};
use trie_nodes::Node;

/// The numbers of the entries that the values of nodes are, node by node.
pub(crate) fn by_nodes(
    alloc: Global,
    nodes: &[Node],
    numbers: &[u32],
) -> Result<Vec<u32>, AllocError>
    requires { All (λ n. n.first_value + n.values ≤ length numbers.now) nodes.now }
    ensures { IfOk result (λ order. order.items ≡ flat_map (own_numbers numbers.now) nodes.now) }
{
    let mut order = Vec::with_capacity(alloc, numbers.len())?;
    for node in nodes {
        let first = node.first_value as usize;
        let end = first + node.values as usize;
        order.extend_from_slice(&numbers[first..end])?;
    }
    Ok(order)
}
