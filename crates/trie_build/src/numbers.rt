//! Numbers in an index: 32 bits each, the least significant byte first.
ghost use Rattle.std.specs.Prelude.{◌≡◌, ◌+◌, ◌*◌, ◌≤◌, flat_map, length};
ghost use Rattle.trie_build.specs.Numbers.{number_at, number_bytes};

use byteorder::{ByteOrder, LittleEndian};

/// The number that is at a place.
#[tactic(auto, unfolding(crate::specs::Numbers::number_at))]
pub(crate) fn number_at(bytes: &[u8], at: usize) -> u32
    requires { at + 4 ≤ length bytes.now }
    ensures { result ≡ number_at bytes.now at }
{
    LittleEndian::read_u32(&bytes[at..])
}

/// Writes numbers into bytes, one after another.
pub(crate) fn put_numbers(bytes: &mut [u8], numbers: &[u32])
    requires { length bytes.old ≡ 4 * length numbers.now }
    ensures { bytes.new ≡ flat_map number_bytes numbers.now }
{
    LittleEndian::write_u32_into(numbers, bytes);
}
