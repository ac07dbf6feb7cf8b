//! Writing the nodes of an index.
ghost use Rattle.std.specs.Prelude.{◌≡◌, ◌++◌, ◌<◌, OnOk, ℕ, flat_map, length, sum_by};
ghost use Rattle.text_core.specs.declared.item.Item.TheVariants.{Among};
ghost use Rattle.text_core.specs.declared.byte_set.ByteSet.{ByteSet};
ghost use Rattle.trie_nodes.specs.Tree.{node_at};
ghost use Rattle.trie_build.specs.Distinct.{IsIn};
ghost use Rattle.trie_build.specs.Numbers.{IsSmall};
ghost use Rattle.trie_build.specs.Records.{node_bytes};
ghost use Rattle.trie_build.specs.Content.{shown};
ghost use Rattle.trie_build.specs.Writing.{AreTexts, node_records, record_of};

use crate::kinds::ROOT;
use crate::labels::{byte_of, kind_of, set_of};
use crate::records::NodeRecord;
use std::alloc::AllocError;
use trie_nodes::Node;

/// A node as it is written, with its values after so many others.
fn record_of(node: &Node, is_root: bool, first_value: u32, sets: &[&[u8]]) -> NodeRecord
    requires sets { AreTexts (shown sets.now) }
    requires there { (set : ByteSet) → node.now.label ≡ Among set → IsIn set.bits (shown sets.now) }
    ensures { result ≡ record_of (shown sets.now) is_root first_value node.now }
{
    NodeRecord {
        kind: if is_root { ROOT } else { kind_of(&node.label) },
        byte: byte_of(&node.label),
        first_zero: 0,
        second_zero: 0,
        set: set_of(sets, &node.label),
        first: node.first,
        count: node.count,
        first_value,
        values: node.values,
    }
}

/// Adds the nodes of a trie, with their values ordered node by node.
pub(crate) fn push_nodes(
    out: &mut Vec<u8>,
    nodes: &[Node],
    sets: &[&[u8]],
) -> Result<(), AllocError>
    requires values { IsSmall (sum_by (λ n. n.values) nodes.now) }
    requires sets { AreTexts (shown sets.now) }
    requires there { (i : ℕ) (set : ByteSet) → i < length nodes.now → (node_at nodes.now i).label ≡ Among set → IsIn set.bits (shown sets.now) }
    ensures { OnOk result (out.new.items ≡ out.old.items ++ flat_map node_bytes (node_records (shown sets.now) nodes.now)) }
{
    let mut first_value = 0;
    for i in 0..nodes.len() {
        let node = &nodes[i];
        record_of(node, i == 0, first_value, sets).write(out)?;
        first_value += node.values;
    }
    Ok(())
}
