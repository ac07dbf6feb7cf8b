//! The items that a text spells, one at a time.
ghost use Rattle.std.specs.Prelude.{◌≡◌, ◌+◌, ◌^◌, ◌<◌, ◌≤◌, length, IfOk, IfSome};
ghost use Rattle.std.specs.List.{prefix_len};
ghost use Rattle.text_core.specs.Spell.{negated, sign_len, class_place, members_len, bracket, itself, is_plain, first_item};

use crate::glob_fault::GlobFault;
use crate::item::Item;
use crate::reading::Reading;
use crate::sets::{Between, set_of};
use text_bytes::find;

/// How a text begins.
#[derive(Clone, Copy)]
pub struct Head {
    /// The item that the first byte begins.
    pub item: Item,
    /// How many of the bytes after the first belong to it.
    pub following: usize,
}

pub(crate) fn is_negated(after: &[u8]) -> bool
    ensures { result ≡ negated after.now }
{
    match after.first() {
        Some(byte) => *byte == b'!' || *byte == b'^',
        None => false,
    }
}

/// How many bytes a sign takes: one if there is a sign, else none.
pub(crate) fn sign_len(after: &[u8]) -> usize
    ensures value { result ≡ sign_len after.now }
    ensures within { result ≤ length after.now }
    ensures bound { result ≤ 1 }
{
    if is_negated(after) { 1 } else { 0 }
}

/// The place of the first `[` directly followed by `:`, `.` or `=`.
fn class_place(members: &[u8]) -> Option<usize>
    ensures value { result ≡ class_place members.now }
    ensures within { IfSome result (λ n. n < length members.now) }
{
    members.iter().zip(members.iter().skip(1)).position(|(a, b)| *a == b'['
        && (*b == b':' || *b == b'.' || *b == b'='))
}

/// How many members are at the front of a text: the first byte is one, and the first `]` after it
/// ends them.
fn members_len(text: &[u8]) -> Option<usize>
    ensures value { result ≡ members_len text.now }
    ensures within { IfSome result (λ n. n < length text.now) }
{
    let (_, following) = text.split_first()?;
    let last = find(b']', following)?;
    Some(last + 1)
}

/// What a `[` at a place begins.
fn bracket(reading: Reading, at: usize, after: &[u8]) -> Result<Head, GlobFault>
    requires { at + length after.now < 2 ^ 63 }
    ensures value { result ≡ bracket reading at after.now }
    ensures len { IfOk result (λ head. head.following ≤ length after.now) }
{
    let sign = sign_len(after);
    let (_, unsigned) = after.split_at(sign);
    let Some(len) = members_len(unsigned) else {
        return Ok(alone(Item::Byte(b'[')));
    };
    let (members, _) = unsigned.split_at(len);
    if let Some(place) = class_place(members) {
        return Err(GlobFault::Class {
            at: at + 1 + sign + place,
        });
    }
    Ok(Head {
        item: Item::Among(set_of(reading, is_negated(after), Between::Members(members))),
        following: sign + len + 1,
    })
}

/// An item of one byte.
pub(crate) fn alone(item: Item) -> Head
    ensures { result ≡ record { item = item; following = 0 } }
{
    Head { item, following: 0 }
}

/// The item of a byte that means itself: read blind, a letter is the set of both its cases.
pub(crate) fn itself(reading: Reading, byte: u8) -> Item
    ensures { result ≡ itself reading byte }
{
    match reading {
        Reading::Blind if byte.is_ascii_alphabetic() => {
            Item::Among(set_of(Reading::Blind, false, Between::Members(&[byte])))
        }
        _ => Item::Byte(byte),
    }
}

/// Whether a byte is an item of its own, read exactly.
fn is_plain(reading: Reading, byte: u8) -> bool
    ensures { result ≡ is_plain reading byte }
{
    match reading {
        Reading::Exact => byte != b'*' && byte != b'?' && byte != b'[',
        Reading::Blind => false,
    }
}

/// How many bytes at the front of a text are items of their own.
pub(crate) fn plain_length(reading: Reading, text: &[u8]) -> usize
    ensures value { result ≡ prefix_len (is_plain reading) text.now }
    ensures within { result ≤ length text.now }
{
    text.iter()
        .take_while(|byte| is_plain(reading, **byte))
        .count()
}

/// The item that a byte at a place begins, and how many of the bytes after it belong to it.
#[tactic(auto, unfolding(crate::specs::Spell::first_item))]
pub(crate) fn first_item(
    reading: Reading,
    at: usize,
    byte: u8,
    after: &[u8],
) -> Result<Head, GlobFault>
    requires { at + length after.now < 2 ^ 63 }
    ensures value { result ≡ first_item reading at byte after.now }
    ensures len { IfOk result (λ head. head.following ≤ length after.now) }
{
    match byte {
        b'*' => Ok(alone(Item::Many)),
        b'?' => Ok(alone(Item::One)),
        b'[' => bracket(reading, at, after),
        _ => Ok(alone(itself(reading, byte))),
    }
}
