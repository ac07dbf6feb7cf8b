//! Numbers that no character of Unicode has, and what becomes of them in a text that a device reports about itself.
ghost use Rattle.std.specs.Prelude.{◌≡◌, ◌∷◌, ◌<◌, [], IfOk, codes, length};
ghost use Rattle.text_bytes.specs.Characters.{is_covered, is_in_character, is_in_noncharacter, is_no_character, is_noncharacter};
ghost use Rattle.text_bytes.specs.Characters.{noncharacter_len, value_byte, value_safe};
ghost use Rattle.text_bytes.specs.Encoded.{encoded};

use crate::safe::{VALUE_MARKS, is_in_sequence, safe_byte};
use bstr::decode_utf8;
use std::alloc::{AllocError, Global};

/// Whether no character ever has a number.
fn is_noncharacter(char: char) -> bool
    ensures { result ≡ is_noncharacter char }
{
    let number = char as u32;
    (0xFDD0 <= number && number <= 0xFDEF) || number % 0x10000 >= 0xFFFE
}

/// Whether there is a number that no character ever has.
fn is_no_character(char: Option<char>) -> bool
    ensures { result ≡ is_no_character char }
{
    match char {
        Some(char) => is_noncharacter(char),
        None => false,
    }
}

/// The length of the UTF-8 sequence of such a number that a text begins with, or 0.
#[tactic(auto, unfolding(crate::specs::Characters::noncharacter_len))]
fn noncharacter_len(text: &[u8]) -> usize
    ensures { result ≡ noncharacter_len text.now }
{
    let (char, size) = decode_utf8(text);
    if is_no_character(char) { size } else { 0 }
}

/// Whether such a sequence that begins so many bytes before a place covers it.
#[tactic(auto, unfolding(crate::specs::Characters::is_covered))]
fn is_covered(text: &[u8], place: usize, back: usize) -> bool
    requires { place < length text.now }
    ensures { result ≡ is_covered text.now place back }
{
    back <= place && back < noncharacter_len(&text[place - back..])
}

/// Whether a place is in such a sequence.
fn is_in_noncharacter(text: &[u8], place: usize) -> bool
    requires { place < length text.now }
    ensures { result ≡ is_in_noncharacter text.now place }
{
    is_covered(text, place, 0)
        || is_covered(text, place, 1)
        || is_covered(text, place, 2)
        || is_covered(text, place, 3)
}

/// Whether a place is in the UTF-8 sequence of a number that a character may have.
pub(crate) fn is_in_character(text: &[u8], place: usize) -> bool
    requires { place < length text.now }
    ensures { result ≡ is_in_character text.now place }
{
    is_in_sequence(text, place) && !is_in_noncharacter(text, place)
}

/// What is at a place of a text made safe as a value.
#[tactic(auto, unfolding(crate::specs::Characters::value_byte))]
fn value_byte(text: &[u8], place: usize) -> u8
    requires { place < length text.now }
    ensures { result ≡ value_byte text.now place }
{
    if is_in_noncharacter(text, place) {
        b'_'
    } else {
        safe_byte(VALUE_MARKS, text, place)
    }
}

/// A text that a device reports about itself, as the value of a property: as `link_safe` has it, but a slash does not
/// stay, and each byte of a number that no character has (U+FDD0 to U+FDEF, and U+FFFE and U+FFFF of each plane)
/// becomes `_`.
///
/// This is what udev of systemd 257 does with vendors, models and serial numbers.
#[tactic(auto, using(crate::proofs::LinkPlaces::values_more), unfolding(crate::specs::Characters::value_safe))]
pub fn value_safe(alloc: Global, text: &[u8]) -> Result<Vec<u8>, AllocError>
    ensures { IfOk result (λ made. made.items ≡ value_safe text.now) }
{
    let mut made = Vec::with_capacity(alloc, text.len())?;
    for place in 0..text.len() {
        made.push(value_byte(text, place))?;
    }
    Ok(made)
}

/// Examples: a text of bytes that are all one, as an empty memory gives it, has no character; the numbers beside those
/// that no character has stay.
pub fn no_character_has_these_numbers()
    ensures empty { value_safe (239 ∷ 191 ∷ 191 ∷ 239 ∷ 191 ∷ 191 ∷ []) ≡ codes "______" }
    ensures encoded { encoded (239 ∷ 191 ∷ 191 ∷ 47 ∷ []) ≡ codes "\\xef\\xbf\\xbf\\x2f" }
    ensures before { value_safe (239 ∷ 191 ∷ 189 ∷ 97 ∷ []) ≡ 239 ∷ 191 ∷ 189 ∷ 97 ∷ [] }
    ensures row { value_safe (239 ∷ 183 ∷ 143 ∷ 239 ∷ 183 ∷ 144 ∷ 239 ∷ 183 ∷ 175 ∷ 239 ∷ 183 ∷ 176 ∷ [])
        ≡ 239 ∷ 183 ∷ 143 ∷ 95 ∷ 95 ∷ 95 ∷ 95 ∷ 95 ∷ 95 ∷ 239 ∷ 183 ∷ 176 ∷ [] }
    ensures planes { value_safe (240 ∷ 159 ∷ 191 ∷ 190 ∷ 32 ∷ 47 ∷ []) ≡ codes "____ _" }
{}
