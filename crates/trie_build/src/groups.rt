//! Ranges of the sorted patterns that begin alike.
//!
//! Each node of a trie is such a range: first come the patterns that end there, then for each label those that go
//! on with it.
ghost use Rattle.std.specs.Prelude.{◌≡◌, ◌+◌, ◌<◌, ◌≤◌, ◌^◌, All, OnOk, length, take, ℕ};
ghost use Rattle.trie_build.specs.Groups.{AreChildren, IsGroup, IsRun, IsSplit, label_at};
ghost use Rattle.trie_build.specs.Rows.{AreShared, HasPrefix, IsSorted, pattern_at, patterns};

use crate::first_labels::{PREFIX, label_by};
use crate::rows::{Row, Sorted, items_at};
use std::alloc::AllocError;
use text_core::Item;

/// The rows whose patterns begin with one path.
#[derive(Clone, Copy)]
pub(crate) struct Group {
    /// The first of the rows.
    pub(crate) start: u32,
    /// The row after the last.
    pub(crate) end: u32,
    /// How many labels the path has.
    pub(crate) depth: usize,
}

/// The first row of a group whose pattern is longer than the group's path.
pub(crate) fn longer_from(rows: &[Row<'_>], group: Group) -> usize
    requires sorted { IsSorted (patterns rows.now) }
    requires group { IsGroup (patterns rows.now) group }
    ensures split { IsSplit (patterns rows.now) group result }
    ensures room { result < group.end → group.depth + 1 < 2 ^ 64 }
{
    for at in group.start as usize..group.end as usize {
        if items_at(rows, at).len() > group.depth {
            return at;
        }
    }
    group.end as usize
}

/// The label of a row after its first labels: by its front, or else by its pattern.
pub(crate) fn label_of(rows: &[Row<'_>], depth: usize, at: usize) -> Item
    requires within { at < length (patterns rows.now) }
    requires first_labels { All HasPrefix rows.now }
    requires longer { depth < length (pattern_at (patterns rows.now) at) }
    ensures { result ≡ label_at (patterns rows.now) depth at }
{
    if depth < PREFIX {
        if let Some(label) = label_by(rows[at].prefix[depth]) {
            return label;
        }
    }
    items_at(rows, at).item(depth)
}

/// The end of the run of rows that have the same label as the first, in a group whose patterns go on.
fn run_end(sorted: Sorted<'_, '_>, start: usize, end: usize, depth: usize) -> usize
    requires shared { AreShared (patterns sorted.rows.now) sorted.shared.now }
    requires within { end ≤ length (patterns sorted.rows.now) }
    requires some { start < end }
    requires longer { (x : ℕ) → start ≤ x → x < end → depth < length (pattern_at (patterns sorted.rows.now) x) }
    requires alike { (x : ℕ) → start ≤ x → x < end → take depth (pattern_at (patterns sorted.rows.now) x)
        ≡ take depth (pattern_at (patterns sorted.rows.now) start) }
    ensures run { IsRun (patterns sorted.entry.rows.now) start end depth result }
{
    for at in start + 1..end {
        if sorted.shared[at] <= depth {
            return at;
        }
    }
    end
}

/// Adds a group for each label that follows in a group, whose longer patterns begin at a row.
pub(crate) fn split(
    sorted: Sorted<'_, '_>,
    group: Group,
    from: usize,
    groups: &mut Vec<Group>,
) -> Result<(), AllocError>
    requires few { length (patterns sorted.rows.now) < 2 ^ 32 }
    requires up { IsSorted (patterns sorted.rows.now) }
    requires shared { AreShared (patterns sorted.rows.now) sorted.shared.now }
    requires group { IsGroup (patterns sorted.rows.now) group }
    requires from { IsSplit (patterns sorted.rows.now) group from }
    requires room { from < group.end → group.depth + 1 < 2 ^ 64 }
    ensures { OnOk result (AreChildren (patterns sorted.entry.rows.now) group groups.old.items groups.new.items) }
{
    let mut at = from;
    while at < group.end as usize {
        let end = run_end(sorted, at, group.end as usize, group.depth);
        groups.push(Group {
            start: at as u32,
            end: end as u32,
            depth: group.depth + 1,
        })?;
        at = end;
    }
    Ok(())
}
