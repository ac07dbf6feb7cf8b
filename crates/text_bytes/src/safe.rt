//! A text made safe, byte by byte.
ghost use Rattle.std.specs.Prelude.{◌≡◌, ◌<◌, IfOk, length};
ghost use Rattle.text_bytes.specs.Safe.{attribute_marks, is_hex_escape, is_in_sequence, stays_anywhere, is_reached};
ghost use Rattle.text_bytes.specs.Safe.{link_marks, safe, safe_byte, sequence_len, stays};

use crate::texts::is_whitespace;
use bstr::decode_utf8;
use std::alloc::{AllocError, Global};

/// The bytes other than letters and digits that stay in a link.
const LINK_MARKS: &[u8] = b"#+-.:=@_/";

/// The bytes other than letters and digits that stay in the value of an attribute.
const ATTRIBUTE_MARKS: &[u8] = b"#+-.:=@_/$%?,";

/// The bytes other than letters and digits that stay in a name that is made the value of a property.
pub(crate) const VALUE_MARKS: &[u8] = b"#+-.:=@_";

/// Whether a byte stays wherever it is.
pub(crate) fn stays_anywhere(marks: &[u8], byte: u8) -> bool
    ensures { result ≡ stays_anywhere marks.now byte }
{
    byte.is_ascii_alphanumeric() || marks.contains(&byte)
}

/// The length of the UTF-8 sequence of several bytes that a text begins with, or 0.
#[tactic(auto, unfolding(crate::specs::Safe::sequence_len))]
fn sequence_len(text: &[u8]) -> usize
    ensures { result ≡ sequence_len text.now }
{
    let (char, size) = decode_utf8(text);
    if char.is_some() && size > 1 { size } else { 0 }
}

/// Whether a UTF-8 sequence that begins so many bytes before a place covers it.
#[tactic(auto, unfolding(crate::specs::Safe::is_reached))]
fn is_reached(text: &[u8], place: usize, back: usize) -> bool
    requires { place < length text.now }
    ensures { result ≡ is_reached text.now place back }
{
    back <= place && back < sequence_len(&text[place - back..])
}

/// Whether a place is in a UTF-8 sequence of several bytes.
pub(crate) fn is_in_sequence(text: &[u8], place: usize) -> bool
    requires { place < length text.now }
    ensures { result ≡ is_in_sequence text.now place }
{
    is_reached(text, place, 0)
        || is_reached(text, place, 1)
        || is_reached(text, place, 2)
        || is_reached(text, place, 3)
}

/// Whether a backslash is at a place, and an `x` after it.
#[tactic(auto, unfolding(crate::specs::Safe::is_hex_escape))]
fn is_hex_escape(text: &[u8], place: usize) -> bool
    requires { place < length text.now }
    ensures { result ≡ is_hex_escape text.now place }
{
    text[place..].starts_with(b"\\x")
}

/// Whether the byte at a place stays.
#[tactic(auto, unfolding(crate::specs::Safe::stays))]
fn stays(marks: &[u8], text: &[u8], place: usize) -> bool
    requires { place < length text.now }
    ensures { result ≡ stays marks.now text.now place }
{
    stays_anywhere(marks, text[place]) || is_hex_escape(text, place) || is_in_sequence(text, place)
}

/// What is at a place of the safe text.
#[tactic(auto, unfolding(crate::specs::Safe::safe_byte))]
pub(crate) fn safe_byte(marks: &[u8], text: &[u8], place: usize) -> u8
    requires { place < length text.now }
    ensures { result ≡ safe_byte marks.now text.now place }
{
    if stays(marks, text, place) {
        text[place]
    } else if is_whitespace(text[place]) {
        b' '
    } else {
        b'_'
    }
}

/// A text made safe, with these marks staying.
#[tactic(auto, using(crate::proofs::LinkPlaces::made_more), unfolding(crate::specs::Safe::safe))]
fn safe(alloc: Global, marks: &[u8], text: &[u8]) -> Result<Vec<u8>, AllocError>
    ensures { IfOk result (λ made. made.items ≡ safe marks.now text.now) }
{
    let mut made = Vec::with_capacity(alloc, text.len())?;
    for place in 0..text.len() {
        made.push(safe_byte(marks, text, place))?;
    }
    Ok(made)
}

/// A text as it may be in the name of a link or of a network device: ASCII letters and digits,
/// `#+-.:=@_/`, a backslash directly before an `x`, and UTF-8 sequences of two to four bytes stay;
/// whitespace becomes a space, and every other byte `_`. The text keeps its length.
///
/// udev(7) says this of SYMLINK and NAME.
pub fn link_safe(alloc: Global, text: &[u8]) -> Result<Vec<u8>, AllocError>
    ensures { IfOk result (λ made. made.items ≡ safe link_marks text.now) }
{
    safe(alloc, LINK_MARKS, text)
}

/// The value of an attribute as it is put into any text: as [`link_safe`] has it, but `$`, `%`, `?` and `,` also
/// stay.
pub fn attribute_safe(alloc: Global, text: &[u8]) -> Result<Vec<u8>, AllocError>
    ensures { IfOk result (λ made. made.items ≡ safe attribute_marks text.now) }
{
    safe(alloc, ATTRIBUTE_MARKS, text)
}
