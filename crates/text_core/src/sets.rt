//! Sets from the members between their brackets.
//!
//! The set is made once, when a pattern is read, by asking for each byte whether it belongs.
ghost use Rattle.std.specs.Prelude.{◌≡◌, ◌+◌, ◌<◌, ◌≤◌, length, OnSome, nat_le, ◌&&◌};
ghost use Rattle.text_core.specs.Brackets.{between_takes};
ghost use Rattle.text_core.specs.Sets.{range_end, members_have, members_have_by, set_takes, set_of, bits_of};

use crate::byte_set::ByteSet;
use crate::elements::{Element, takes_among};
use crate::reading::Reading;

/// What is between the brackets of a set.
#[derive(Clone, Copy)]
pub(crate) enum Between<'a> {
    /// Members as udev(7) describes them: bytes, and ranges with a minus.
    Members(&'a [u8]),
    /// The elements of a pattern of fnmatch(3).
    Elements(&'a [Element]),
}

/// The last byte of a range, if `-` and that byte come next.
fn range_end(rest: &[u8]) -> Option<u8>
    ensures value { result ≡ range_end rest.now }
    ensures len { OnSome result (2 ≤ length rest.now) }
{
    if rest.len() >= 2 && rest[0] == b'-' {
        Some(rest[1])
    } else {
        None
    }
}

fn is_between(byte: u8, first: u8, last: u8) -> bool
    ensures { result ≡ (nat_le first byte && nat_le byte last) }
{
    first <= byte && byte <= last
}

/// Whether the members have a byte.
fn members_have(mut members: &[u8], byte: u8) -> bool
    ensures { result ≡ members_have members.now byte }
{
    while let Some((first, rest)) = members.split_first() {
        match range_end(rest) {
            Some(last) => {
                if is_between(byte, *first, last) {
                    return true;
                }
                (_, members) = rest.split_at(2);
            }
            None => {
                if *first == byte {
                    return true;
                }
                members = rest;
            }
        }
    }
    false
}

/// Whether the members have a byte, read exactly or in either case.
fn members_have_by(reading: Reading, members: &[u8], byte: u8) -> bool
    ensures { result ≡ members_have_by reading members.now byte }
{
    match reading {
        Reading::Exact => members_have(members, byte),
        Reading::Blind => {
            members_have(members, byte.to_ascii_lowercase())
                || members_have(members, byte.to_ascii_uppercase())
        }
    }
}

/// Whether the set of the members, or with a sign its complement, has a byte.
fn set_takes(reading: Reading, negated: bool, members: &[u8], byte: u8) -> bool
    ensures { result ≡ set_takes reading negated members.now byte }
{
    members_have_by(reading, members, byte) != negated
}

/// Whether the set of what is between brackets, or with a sign its complement, has a byte.
fn takes(reading: Reading, negated: bool, between: Between<'_>, byte: u8) -> bool
    ensures { result ≡ between_takes reading negated between.entry byte }
{
    match between {
        Between::Members(members) => set_takes(reading, negated, members, byte),
        Between::Elements(elements) => takes_among(reading, negated, elements, byte),
    }
}

/// Eight bytes of a set, from a byte on, as bits.
fn membership_byte(reading: Reading, negated: bool, between: Between<'_>, first: u8) -> u8
    requires { first + 8 ≤ 256 }
    ensures { result ≡ bits_of (between_takes reading negated between.entry) first 8 }
{
    let mut bits = 0;
    for j in 0..8 {
        bits = bits * 2 + u8::from(takes(reading, negated, between, first + (7 - j)));
    }
    bits
}

/// The set of what is between brackets.
pub(crate) fn set_of(reading: Reading, negated: bool, between: Between<'_>) -> ByteSet
    ensures { result ≡ set_of (between_takes reading negated between.entry) }
{
    let mut bits = [0; 32];
    for i in 0..32 {
        bits[i] = membership_byte(reading, negated, between, i as u8 * 8);
    }
    ByteSet { bits }
}
