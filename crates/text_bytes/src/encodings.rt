//! Texts encoded so that they can be read back.
ghost use Rattle.std.specs.Prelude.{◌≡◌, ◌<◌, ◌++◌, length, IfOk, OnOk};
ghost use Rattle.text_bytes.specs.Encoded.{encoded, encoded_byte, in_digits, is_own, read_back};

use crate::link_characters::is_in_character;
use crate::safe::{VALUE_MARKS, stays_anywhere};
use std::alloc::{AllocError, Global};

/// The digits of a hexadecimal number.
const DIGITS: &[u8; 16] = b"0123456789abcdef";

/// Whether the byte at a place stands for itself.
#[tactic(auto, unfolding(crate::specs::Encoded::is_own))]
fn is_own(text: &[u8], place: usize) -> bool
    requires { place < length text.now }
    ensures { result ≡ is_own text.now place }
{
    text[place] != b'\\'
        && (stays_anywhere(VALUE_MARKS, text[place]) || is_in_character(text, place))
}

/// A byte in hexadecimal digits.
fn in_digits(byte: u8) -> [u8; 4]
    ensures { result ≡ in_digits byte }
{
    [
        b'\\',
        b'x',
        DIGITS[usize::from(byte / 16)],
        DIGITS[usize::from(byte % 16)],
    ]
}

/// Appends what stands for the byte at a place.
#[tactic(auto, unfolding(crate::specs::Encoded::encoded_byte))]
fn push_encoded(made: &mut Vec<u8>, text: &[u8], place: usize) -> Result<(), AllocError>
    requires { place < length text.now }
    ensures { OnOk result (made.new.items ≡ made.old.items ++ encoded_byte text.now place) }
{
    if is_own(text, place) {
        Ok(made.push(text[place])?)
    } else {
        made.extend_from_slice(&in_digits(text[place]))
    }
}

/// A text as udev of systemd 257 encodes the value of a property whose name ends in `_ENC`: ASCII letters and
/// digits, `#+-.:=@_` and UTF-8 sequences of two to four bytes stay, but not those of numbers that no character has; every
/// other byte, also the backslash, is `\x` and two lower case hexadecimal digits.
#[tactic(auto, using(crate::proofs::ReadingBack::encoded_more), unfolding(crate::specs::Encoded::encoded))]
pub fn encoded(alloc: Global, text: &[u8]) -> Result<Vec<u8>, AllocError>
    ensures { IfOk result (λ made. made.items ≡ encoded text.now) }
{
    let mut made = Vec::with_capacity(alloc, text.len())?;
    for place in 0..text.len() {
        push_encoded(&mut made, text, place)?;
    }
    Ok(made)
}

/// A law: an encoded text is read back without loss.
pub(crate) fn encoded_is_read_back(text: &[u8])
    ensures { read_back (encoded text.now) ≡ text.now }
{
    let _text = text;
}
