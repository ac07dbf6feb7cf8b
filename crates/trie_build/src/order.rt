//! How patterns compare, label by label.
//!
//! A label compares by its rank and then by its byte or its set, without making a list of numbers.
ghost use Rattle.std.specs.Prelude.{◌≡◌, ◌≤◌, drop, length};
ghost use Rattle.trie_build.specs.Order.{label_cmp, label_rank, pattern_cmp};

use std::cmp::Ordering;
use text_core::{Item, PackedPattern};

/// The rank of a label: bytes come first, then `?`, `*` and the sets.
fn rank(label: &Item) -> u8
    ensures { result ≡ label_rank label.now }
{
    match label {
        Item::Byte(_) => 1,
        Item::One => 2,
        Item::Many => 3,
        Item::Among(_) => 4,
    }
}

/// How a label compares with another.
pub fn compare_labels(label: &Item, other: &Item) -> Ordering
    ensures { result ≡ label_cmp label.now other.now }
{
    match (label, other) {
        (Item::Byte(byte), Item::Byte(next)) => byte.cmp(next),
        (Item::Among(set), Item::Among(next)) => set.bits.cmp(&next.bits),
        _ => rank(label).cmp(&rank(other)),
    }
}

/// How the part of a pattern from a place on compares with the part of another from a place on, label by label: a
/// pattern comes before a longer one that begins with it, and of two labels a byte before `?`, that before `*`, and that
/// before a set.
pub fn compare_from(
    pattern: &PackedPattern,
    from: usize,
    other: &PackedPattern,
    other_from: usize,
) -> Ordering
    requires within { from ≤ length pattern.now }
    requires other { other_from ≤ length other.now }
    ensures { result ≡ pattern_cmp (drop from pattern.now) (drop other_from other.now) }
{
    let mut at = from;
    let mut next = other_from;
    while at < pattern.len() {
        if next == other.len() {
            return Ordering::Greater;
        }
        let order = compare_labels(&pattern.item(at), &other.item(next));
        if order != Ordering::Equal {
            return order;
        }
        at += 1;
        next += 1;
    }
    if next == other.len() {
        Ordering::Equal
    } else {
        Ordering::Less
    }
}
