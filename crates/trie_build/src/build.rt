//! The nodes of the trie of sorted patterns, level by level.
//!
//! The groups of rows are in the order of the nodes. Each is cut once into its children, which are added at the
//! end: so the nodes are ordered by the length of their paths, and then label by label.
ghost use Rattle.std.specs.Prelude.{◌≡◌, ◌-◌, ◌<◌, ◌≤◌, All, IfOk, MatchResult, length};
ghost use Rattle.trie_nodes.specs.Bounds.{max_entries, max_nodes};
ghost use Rattle.text_core.specs.declared.item.Item.TheVariants.{One};
ghost use Rattle.trie_build.specs.Building.{AreNodes};
ghost use Rattle.trie_build.specs.Groups.{IsGroup, label_at};
ghost use Rattle.trie_build.specs.Rows.{AreShared, HasPrefix, IsSorted, patterns};
ghost use Rattle.trie_build.specs.declared.fault.TrieFault.TheVariants.{TooLarge};
ghost use Rattle.trie_build.specs.Paths.{paths_among};

use crate::fault::TrieFault;
use crate::groups::{Group, label_of, longer_from, split};
use crate::rows::{Row, Sorted};
use std::alloc::Global;
use text_core::Item;
use trie_nodes::{MAX_NODES, Node};

/// The label that leads to a group; for the root, to which none leads, `?`.
fn last_label(rows: &[Row<'_>], group: Group) -> Item
    requires group { IsGroup (patterns rows.now) group }
    requires first_labels { All HasPrefix rows.now }
    ensures root { group.depth ≡ 0 → result ≡ One }
    ensures label { 0 < group.depth → result ≡ label_at (patterns rows.now) (group.depth - 1) group.start }
{
    if group.depth == 0 {
        return Item::One;
    }
    label_of(rows, group.depth - 1, group.start as usize)
}

/// The nodes of the trie of sorted patterns. More than 2^26 are too many.
pub(crate) fn nodes_of(alloc: Global, sorted: Sorted<'_, '_>) -> Result<Vec<Node>, TrieFault>
    requires few { length (patterns sorted.rows.now) ≤ max_entries }
    requires up { IsSorted (patterns sorted.rows.now) }
    requires shared { AreShared (patterns sorted.rows.now) sorted.shared.now }
    requires first_labels { All HasPrefix sorted.rows.now }
    ensures nodes { IfOk result (λ nodes. AreNodes (patterns sorted.entry.rows.now) nodes.items) }
    ensures fits { MatchResult result (λ _. length (paths_among (patterns sorted.entry.rows.now)) ≤ max_nodes) (λ fault. fault ≡ TooLarge
        → max_nodes < length (paths_among (patterns sorted.entry.rows.now))) }
{
    let mut nodes = Vec::new(alloc);
    let mut groups = Vec::new(alloc);
    groups.push(Group {
        start: 0,
        end: sorted.rows.len() as u32,
        depth: 0,
    })?;
    while nodes.len() < groups.len() {
        let group = groups[nodes.len()];
        let first = groups.len();
        let from = longer_from(sorted.rows, group);
        split(sorted, group, from, &mut groups)?;
        if groups.len() > MAX_NODES {
            return Err(TrieFault::TooLarge);
        }
        nodes.push(Node {
            label: last_label(sorted.rows, group),
            first: first as u32,
            count: (groups.len() - first) as u32,
            first_value: group.start,
            values: from as u32 - group.start,
        })?;
    }
    Ok(nodes)
}
