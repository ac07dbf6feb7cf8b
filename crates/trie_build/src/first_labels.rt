//! The first labels of a pattern as bytes, for a quick sort.
//!
//! Most patterns differ in their first labels, and a row that holds a byte for each of these is compared without a
//! look at its pattern, which is elsewhere in memory.
ghost use Rattle.std.specs.Prelude.{◌≡◌, ◌+◌, ◌<◌, ◌≤◌, IfSome, OnSome, drop, length, take};
ghost use Rattle.std.specs.Cmp.Lexicographic.{slice_cmp};
ghost use Rattle.std.specs.Ordering.{nat_cmp, ordering_then};
ghost use Rattle.std.specs.Slice.Scan.{big_endian};
ghost use Rattle.text_core.specs.declared.item.Item.{Item};
ghost use Rattle.trie_build.specs.Prefixes.{code, codes, first_code, following, is_exact};

use std::cmp::Ordering;
use text_core::{Item, PackedPattern};

/// How many labels of a pattern have a byte in its row.
pub(crate) const PREFIX: usize = 24;

/// The byte of a label: the codes are in the order of labels, with one for all high bytes and one for all sets.
fn code_of(label: &Item) -> u8
    ensures { result ≡ code label.now }
{
    match label {
        Item::Byte(byte) => (*byte).min(250) + 1,
        Item::One => 252,
        Item::Many => 253,
        Item::Among(_) => 254,
    }
}

/// Whether just one label has a byte.
fn is_exact(code: u8) -> bool
    ensures { result ≡ is_exact code }
{
    code != 251 && code != 254
}

/// The byte of the label at a place of a pattern; 0 if it has none.
fn first_code(pattern: &PackedPattern, from: usize) -> u8
    requires { from ≤ length pattern.now }
    ensures { result ≡ first_code (drop from pattern.now) }
{
    if from < pattern.len() {
        code_of(&pattern.item(from))
    } else {
        0
    }
}

/// The place after that of a label, if its byte says which label it is, and otherwise the end of the pattern.
fn following(pattern: &PackedPattern, from: usize) -> usize
    requires { from ≤ length pattern.now }
    ensures value { drop result pattern.now ≡ following (drop from pattern.now) }
    ensures within { result ≤ length pattern.now }
{
    if from < pattern.len() && is_exact(code_of(&pattern.item(from))) {
        from + 1
    } else {
        pattern.len()
    }
}

/// The label that a byte of a front is for, if it is for one alone.
pub(crate) fn label_by(byte: u8) -> Option<Item>
    ensures some { OnSome result (0 < byte) }
    ensures label { IfSome result (λ x. (y : Item) → code y ≡ byte → y ≡ x) }
{
    if byte == 252 {
        Some(Item::One)
    } else if byte == 253 {
        Some(Item::Many)
    } else if byte == 0 || byte > 250 {
        None
    } else {
        Some(Item::Byte(byte - 1))
    }
}

/// The bytes of a pattern's first labels.
pub(crate) fn prefix_of(pattern: &PackedPattern) -> [u8; PREFIX]
    ensures { result ≡ codes 24 pattern.now }
{
    let mut prefix = [0; PREFIX];
    let mut from = 0;
    for at in 0..PREFIX {
        prefix[at] = first_code(pattern, from);
        from = following(pattern, from);
    }
    prefix
}

/// Eight bytes of a front as a number of which the first is the highest, so that numbers compare as the bytes do.
fn word(prefix: &[u8; PREFIX], from: usize) -> u64
    requires { from + 8 ≤ 24 }
    ensures { result ≡ big_endian 0 (take 8 (drop from prefix.now)) }
{
    u64::from_be_bytes([
        prefix[from],
        prefix[from + 1],
        prefix[from + 2],
        prefix[from + 3],
        prefix[from + 4],
        prefix[from + 5],
        prefix[from + 6],
        prefix[from + 7],
    ])
}

/// How eight bytes of a front compare with those of another.
fn compare_words(prefix: &[u8; PREFIX], other: &[u8; PREFIX], from: usize) -> Ordering
    requires { from + 8 ≤ 24 }
    ensures { slice_cmp nat_cmp (drop from prefix.now) (drop from other.now)
        ≡ ordering_then result (slice_cmp nat_cmp (drop (from + 8) prefix.now) (drop (from + 8) other.now)) }
{
    word(prefix, from).cmp(&word(other, from))
}

/// How a front compares with another, byte by byte; eight at a time are compared as a number.
pub(crate) fn compare_prefixes(prefix: &[u8; PREFIX], other: &[u8; PREFIX]) -> Ordering
    ensures { result ≡ slice_cmp nat_cmp prefix.now other.now }
{
    let first = compare_words(prefix, other, 0);
    if first != Ordering::Equal {
        return first;
    }
    let second = compare_words(prefix, other, 8);
    if second != Ordering::Equal {
        return second;
    }
    compare_words(prefix, other, 16)
}
