//! The search for a byte, by `memchr`, with its contract in the words of the standard library, so that crates above
//! need not know how `memchr` states its own.
ghost use Rattle.std.specs.Prelude.{◌≡◌, ◌==◌, ◌<◌, length, position, IfSome};

use memchr::memchr;

/// The first place of a byte in a text.
pub fn find(byte: u8, text: &[u8]) -> Option<usize>
    ensures value { result ≡ position (λ b. b == byte) text.now }
    ensures within { IfSome result (λ k. k < length text.now) }
{
    memchr(byte, text)
}
