//! Names with their first bytes as a number, so that most names are compared by one comparison.
ghost use Rattle.std.specs.Prelude.{◌≡◌, ◌+◌, ◌^◌, ◌<◌, ◌≤◌, get_or, length};
ghost use Rattle.text_bytes.specs.Insertion.{text_order};
ghost use Rattle.text_tables.specs.Heads.{four_at, head_of};

use std::cmp::Ordering;
use std::marker::Model;

/// How many numbers of four bytes there are.
const FOUR_BYTES: u64 = 1 << 32;

/// The byte at a place, zero after the end.
fn byte_at(name: &[u8], place: usize) -> u64
    ensures { result ≡ get_or name.now place 0 }
{
    match name.get(place) {
        Some(byte) => *byte as u64,
        None => 0,
    }
}

/// The four bytes from a place on, as a number whose highest byte is the first.
#[tactic(auto, unfolding(crate::specs::Heads::four_at))]
fn four_at(name: &[u8], place: usize) -> u64
    requires { place + 4 ≤ length name.now }
    ensures value { result ≡ four_at name.now place }
    ensures within { result < 2 ^ 32 }
{
    let four = [
        name[place],
        name[place + 1],
        name[place + 2],
        name[place + 3],
    ];
    u32::from_be_bytes(four) as u64
}

/// The first bytes of a name as a number whose highest byte is the first; a name that is shorter counts as if zeros
/// followed it.
fn head_of(name: &[u8]) -> u64
    ensures { result ≡ head_of 8 name.now }
{
    let len = name.len();
    if len >= 8 {
        four_at(name, 0) * FOUR_BYTES + four_at(name, 4)
    } else if len >= 4 {
        let last = four_at(name, len - 4) << (8 * (8 - len));
        four_at(name, 0) * FOUR_BYTES + last % FOUR_BYTES
    } else {
        (byte_at(name, 0) << 56) + (byte_at(name, 1) << 48) + (byte_at(name, 2) << 40)
    }
}

/// A name with its head, and its place among others.
#[derive(Drop)]
pub(crate) struct HeadedName<'a> {
    head: u64,
    name: &'a [u8],
    place: usize,
}

impl<'a> Model for HeadedName<'a> {
    ghost use Rattle.std.specs.Prelude.{ℕ};
    ghost use Rattle.text_bytes.specs.Text.{Text};
    ghost use Rattle.text_tables.specs.Heads.{IsHead};

    ghost Value = { Text × ℕ };

    ghost view = { λ n. (n.name.now, n.place) };

    ghost invariant = { λ n. IsHead n.head n.name.now };
}

impl<'a> HeadedName<'a> {
    /// A name at a place.
    pub(crate) fn new(name: &'a [u8], place: usize) -> HeadedName<'a>
        ensures { result ≡ (name.now, place) }
    {
        HeadedName {
            head: head_of(name),
            name,
            place,
        }
    }

    /// Its place.
    pub(crate) fn place(&self) -> usize
        ensures { result ≡ self.now.1 }
    {
        self.place
    }

    /// How the name compares with another, byte by byte.
    pub(crate) fn compare(&self, other: &HeadedName<'_>) -> Ordering
        ensures { result ≡ text_order self.now.0 other.now.0 }
    {
        if self.head == other.head {
            self.name.cmp(other.name)
        } else {
            self.head.cmp(&other.head)
        }
    }
}
