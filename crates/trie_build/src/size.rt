//! How long the index file of some entries would be.
//!
//! An index gives its places in 32 bits. A trie whose index would be longer is never made, so that writing one
//! can't fail because of its length.
ghost use Rattle.std.specs.Prelude.{◌≡◌, ◌+◌, ◌<◌, ◌≤◌, ◌++◌, ◌↔◌, IfOk, IsTrue, MatchOption, OnOk, length, sum_by};
ghost use Rattle.trie_nodes.specs.Bounds.{max_entries};
ghost use Rattle.trie_build.specs.Content.{shown};
ghost use Rattle.trie_build.specs.Shown.{all_len, index_len_by, node_sets, own_len};
ghost use Rattle.trie_build.specs.Distinct.{distinct};
ghost use Rattle.trie_build.specs.Sizes.{max_index_len, names_of, set_in};
ghost use Rattle.text_bytes.specs.Insertion.{text_order};

use std::alloc::{AllocError, Global};
use text_core::Item;
use trie_nodes::{Entry, Node};

/// How many bytes an index may have.
const MAX_INDEX_LEN: u128 = (1 << 32) - 1;

/// Keeps each of some texts once, sorted. Equal texts are mostly side by side, and are dropped before the rest is
/// sorted.
fn keep_distinct(texts: &mut Vec<&[u8]>)
    ensures { shown texts.new.items ≡ distinct text_order (shown texts.old.items) }
{
    texts.dedup();
    texts.sort_unstable();
    texts.dedup();
}

/// Adds the bytes of a label's set, if it has one.
fn push_set<'a>(sets: &mut Vec<&'a [u8]>, label: &'a Item) -> Result<(), AllocError>
    ensures { OnOk result (shown sets.new.items ≡ shown sets.old.items ++ set_in label.now) }
{
    if let Item::Among(set) = label {
        sets.push(set.bits.as_slice())?;
    }
    Ok(())
}

/// The bytes of the sets that the labels of nodes have, each once, sorted.
pub(crate) fn sets_of(alloc: Global, nodes: &[Node]) -> Result<Vec<&[u8]>, AllocError>
    ensures { IfOk result (λ sets. shown sets.items ≡ node_sets nodes.now) }
{
    let mut sets = Vec::new(alloc);
    for node in nodes {
        push_set(&mut sets, &node.label)?;
    }
    keep_distinct(&mut sets);
    Ok(sets)
}

/// The names of the files that entries come from, each once, sorted.
pub(crate) fn names_of(alloc: Global, entries: &[Entry]) -> Result<Vec<&[u8]>, AllocError>
    ensures { IfOk result (λ names. shown names.items ≡ names_of entries.now) }
{
    let mut names = Vec::with_capacity(alloc, entries.len())?;
    for entry in entries {
        names.push(entry.file.as_slice())?;
    }
    keep_distinct(&mut names);
    Ok(names)
}

/// What the keys and values of entries leave of some room, if they fit into it.
fn after_entries(entries: &[Entry], room: u128) -> Option<u128>
    ensures { MatchOption result (room < sum_by own_len entries.now) (λ left. left + sum_by own_len entries.now ≡ room) }
{
    let mut left = room;
    for entry in entries {
        let len = entry.key.as_slice().len() as u128 + entry.value.as_slice().len() as u128;
        if len > left {
            return None;
        }
        left -= len;
    }
    Some(left)
}

/// Whether names fit into some room.
fn names_fit(names: &[&[u8]], room: u128) -> bool
    ensures { IsTrue result ↔ (sum_by (λ t. length t.now) names.now ≤ room) }
{
    let mut left = room;
    for name in names {
        let len = name.len() as u128;
        if len > left {
            return false;
        }
        left -= len;
    }
    true
}

/// Whether all texts of an index fit into some room.
fn texts_fit(entries: &[Entry], names: &[&[u8]], room: u128) -> bool
    ensures { IsTrue result ↔ (sum_by own_len entries.now + sum_by (λ t. length t.now) names.now ≤ room) }
{
    match after_entries(entries, room) {
        Some(left) => names_fit(names, left),
        None => false,
    }
}

/// Whether all texts of entries fit into some room, even if none were from the same file.
fn texts_fit_apart(entries: &[Entry], room: u128) -> bool
    ensures { IsTrue result → sum_by all_len entries.now ≤ room }
{
    let mut left = room;
    for entry in entries {
        let len = entry.key.as_slice().len() as u128
            + entry.value.as_slice().len() as u128
            + entry.file.as_slice().len() as u128;
        if len > left {
            return false;
        }
        left -= len;
    }
    true
}

/// Whether the index of some entries, with their nodes, is not too long even if each node had a set of its own and
/// each entry a file of its own. Mostly it is not, and then neither sets nor names have to be sorted.
fn fits_apart(entries: &[Entry], nodes: &[Node]) -> bool
    requires few { length entries.now ≤ max_entries }
    ensures { IsTrue result → index_len_by nodes.now entries.now ≤ max_index_len }
{
    let all = 32 + 56 * nodes.len() as u128 + 32 * entries.len() as u128;
    all <= MAX_INDEX_LEN && texts_fit_apart(entries, MAX_INDEX_LEN - all)
}

/// Whether the index of some entries, with their nodes, is not too long.
pub(crate) fn index_fits(
    alloc: Global,
    entries: &[Entry],
    nodes: &[Node],
) -> Result<bool, AllocError>
    requires few { length entries.now ≤ max_entries }
    ensures { IfOk result (λ fits. IsTrue fits ↔ (index_len_by nodes.now entries.now ≤ max_index_len)) }
{
    if fits_apart(entries, nodes) {
        return Ok(true);
    }
    let sets = sets_of(alloc, nodes)?;
    let names = names_of(alloc, entries)?;
    let records = 32
        + 24 * nodes.len() as u128
        + 32 * entries.len() as u128
        + 32 * sets.len() as u128;
    if records > MAX_INDEX_LEN {
        return Ok(false);
    }
    Ok(texts_fit(entries, &names, MAX_INDEX_LEN - records))
}
