//! Texts for a terminal, without the characters of UTF-8 that it would obey.
//!
//! The names and lines of a file may have control characters, which a terminal takes as commands, marks of direction, which
//! make a reader see a line in another order than udev reads it in, and characters that end a line elsewhere. Each becomes a
//! sign of the same length, so that columns stay.
ghost use Rattle.std.specs.Prelude.{◌≡◌};
ghost use Rattle.engine_formats.specs.Masked.{masked, masked_byte, shown_in};

use engine_sessions::Format;

/// A text in which no character is a control character of two bytes, a mark of direction, or an end of a line that is not of
/// ASCII.
pub fn masked(mut text: Vec<u8>) -> Vec<u8>
    ensures { result.items ≡ masked text.items }
{
    mask(&mut text);
    text
}

/// Masks a text in its place.
fn mask(text: &mut [u8])
    ensures { text.new ≡ masked text.old }
{
    let mut before = 0;
    let mut last = 0;
    for byte in text.iter_mut() {
        let own = *byte;
        *byte = masked_byte(before, last, own);
        before = last;
        last = own;
    }
}

/// A text as lines of a format show it: masked if the lines are for people.
pub fn shown_in(format: Format, text: Vec<u8>) -> Vec<u8>
    ensures { result.items ≡ shown_in format text.items }
{
    if format.is_for_people() {
        masked(text)
    } else {
        text
    }
}

/// A byte by the two before it: the last one of such a character makes it `¿`, `؆`, `‽` or `⁇`.
fn masked_byte(before: u8, last: u8, byte: u8) -> u8
    ensures { result ≡ masked_byte before last byte }
{
    match (before, last, byte) {
        (_, 0xC2, 0x80..=0x9F) => 0xBF,
        (_, 0xD8, 0x9C) => 0x86,
        (0xE2, 0x80, 0x8E..=0x8F | 0xA8..=0xAE) => 0xBD,
        (0xE2, 0x81, 0xA6..=0xA9) => 0x87,
        _ => byte,
    }
}
