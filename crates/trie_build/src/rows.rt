//! The entries, sorted by their patterns.
//!
//! Entries that begin alike are then side by side, so that a node is a range of them. They are sorted once, by
//! number, and are not moved themselves.
ghost use Rattle.std.specs.Prelude.{◌≡◌, ◌-◌, ◌<◌, ◌≤◌, ◌^◌, All, IfOk, OnOk, drop, length, map, slice_index_or, []};
ghost use Rattle.std.specs.List.{range_with_len};
ghost use Rattle.std.specs.List.Sorted.{IsPermutation};
ghost use Rattle.trie_nodes.specs.Bounds.{max_entries};
ghost use Rattle.trie_build.specs.Rows.{AreAlike, AreShared, HasPrefix, IsCommon, IsSorted, Reports, SameRise, pattern_at, patterns, row_cmp, undetermined};

use crate::first_labels::{PREFIX, compare_prefixes, prefix_of};
use crate::order::{compare_from, compare_labels};
use std::alloc::{AllocError, Global};
use std::cmp::Ordering;
use text_core::PackedPattern;
use trie_nodes::Entry;

/// The pattern of an entry, with the entry's number.
#[derive(Clone, Copy)]
pub(crate) struct Row<'a> {
    /// The items of the pattern.
    pub(crate) items: &'a PackedPattern,
    /// The bytes of the pattern's first labels.
    pub(crate) prefix: [u8; PREFIX],
    /// The entry's number.
    pub(crate) number: u32,
}

/// The place where the part of a row's pattern begins that the row's front leaves open: if the front has a last byte, it
/// says all labels before that.
fn undetermined_from(row: &Row<'_>) -> usize
    ensures value { drop result row.now.items.now ≡ undetermined row.now.prefix row.now.items.now }
    ensures within { result ≤ length row.now.items.now }
{
    if row.prefix[PREFIX - 1] == 0 {
        return 0;
    }
    row.items.len().min(PREFIX - 1)
}

/// How a row compares with another: by the patterns, which mostly differ in their first labels, and for equal
/// patterns by the numbers.
fn compare_rows(row: &Row<'_>, other: &Row<'_>) -> Ordering
    ensures { result ≡ row_cmp row.now other.now }
{
    match compare_prefixes(&row.prefix, &other.prefix) {
        Ordering::Equal => {
            let labels = compare_from(
                row.items,
                undetermined_from(row),
                other.items,
                undetermined_from(other),
            );
            labels.then(row.number.cmp(&other.number))
        }
        order => order,
    }
}

/// A row for each entry, in order.
fn rows_in_order<'a>(alloc: Global, entries: &'a [Entry]) -> Result<Vec<Row<'a>>, AllocError>
    requires { length entries.now ≤ max_entries }
    ensures numbers { IfOk result (λ rows. map (λ r. r.number) rows.items ≡ range_with_len 0 (length entries.now)) }
    ensures rows { IfOk result (λ rows. All (Reports entries.now) rows.items) }
{
    let mut rows = Vec::with_capacity(alloc, entries.len())?;
    for (i, entry) in entries.iter().enumerate() {
        rows.push(Row {
            items: &entry.pattern,
            prefix: prefix_of(&entry.pattern),
            number: i as u32,
        })?;
    }
    Ok(rows)
}

/// A row for each entry, sorted by pattern, and for equal patterns by number.
pub(crate) fn sorted_rows<'a>(
    alloc: Global,
    entries: &'a [Entry],
) -> Result<Vec<Row<'a>>, AllocError>
    requires { length entries.now ≤ max_entries }
    ensures numbers { IfOk result (λ rows. IsPermutation (range_with_len 0 (length entries.now)) (map (λ r. r.number) rows.items)) }
    ensures rows { IfOk result (λ rows. All (Reports entries.now) rows.items) }
    ensures sorted { IfOk result (λ rows. IsSorted (patterns rows.items)) }
    ensures rise { IfOk result (λ rows. SameRise rows.items) }
{
    let mut rows = rows_in_order(alloc, entries)?;
    rows.sort_by(|row, other| compare_rows(row, other))?;
    Ok(rows)
}

/// Sorted rows, and how many labels each has at its front in common with the row before it.
#[derive(Clone, Copy)]
pub(crate) struct Sorted<'r, 'a> {
    /// The rows.
    pub(crate) rows: &'r [Row<'a>],
    /// A number for each row.
    pub(crate) shared: &'r [usize],
}

/// How many labels two patterns have in common at their fronts.
fn common_prefix(pattern: &PackedPattern, other: &PackedPattern) -> usize
    ensures { IsCommon pattern.now other.now result }
{
    let len = pattern.len().min(other.len());
    for at in 0..len {
        if compare_labels(&pattern.item(at), &other.item(at)) != Ordering::Equal {
            return at;
        }
    }
    len
}

/// How many bytes two fronts have in common, up to the first in which they differ.
fn common_bytes(prefix: &[u8; PREFIX], other: &[u8; PREFIX]) -> usize
    ensures { AreAlike prefix.now other.now result }
{
    for at in 0..PREFIX {
        if prefix[at] != other[at] {
            return at;
        }
    }
    PREFIX
}

/// How many labels a row has in common with the row before it; the first has none. Mostly their fronts decide,
/// without a look at the patterns.
fn shared_at(rows: &[Row<'_>], at: usize) -> usize
    requires within { at < length (patterns rows.now) }
    requires first_labels { All HasPrefix rows.now }
    ensures { 0 < at → IsCommon (pattern_at (patterns rows.now) (at - 1)) (pattern_at (patterns rows.now) at) result }
{
    if at == 0 {
        return 0;
    }
    let bytes = common_bytes(&rows[at - 1].prefix, &rows[at].prefix);
    if bytes < PREFIX {
        return bytes;
    }
    common_prefix(items_at(rows, at - 1), items_at(rows, at))
}

/// How many labels each row has at its front in common with the row before it.
pub(crate) fn shared_prefixes(alloc: Global, rows: &[Row<'_>]) -> Result<Vec<usize>, AllocError>
    requires { All HasPrefix rows.now }
    ensures { IfOk result (λ shared. AreShared (patterns rows.now) shared.items) }
{
    let mut shared = Vec::with_capacity(alloc, rows.len())?;
    for at in 0..rows.len() {
        shared.push(shared_at(rows, at))?;
    }
    Ok(shared)
}

/// The numbers of the entries, row by row.
pub(crate) fn numbers_of(alloc: Global, rows: &[Row<'_>]) -> Result<Vec<u32>, AllocError>
    ensures { IfOk result (λ numbers. numbers.items ≡ map (λ r. r.number) rows.now) }
{
    let mut numbers = Vec::with_capacity(alloc, rows.len())?;
    for row in rows {
        numbers.push(row.number)?;
    }
    Ok(numbers)
}

/// The pattern of a row.
pub(crate) fn items_at<'a>(rows: &[Row<'a>], at: usize) -> &'a PackedPattern
    requires { at < length (patterns rows.now) }
    ensures { result.now ≡ pattern_at (patterns rows.now) at }
{
    rows[at].items
}
