//! D13: the values that properties take.
ghost use Rattle.std.specs.Prelude.{◌≡◌, ◌==◌, codes, count_by, map};
ghost use Rattle.std.specs.List.{list_all};
ghost use Rattle.text_bytes.specs.Numbers.{is_digit};
ghost use Rattle.text_bytes.specs.Texts.{following};
ghost use Rattle.hwdb_core.specs.Values.{are_resolutions, is_axis, is_axis_byte, is_flag, is_integer, is_key, is_key_name, is_layout};
ghost use Rattle.hwdb_core.specs.Values.{is_layout_byte, is_matrix, is_matrix_byte, is_resolution_byte, takes, takes_coded, takes_own, without, word_among};

use crate::properties::{CHOICES, Choice, FLAGS, INPUT_FLAGS, LAYOUTS, NUMBERS};
use text_bytes::{following, has_digits, is_blank, is_digit};
use text_tables::is_among;

/// Whether a value is `1` or `0`.
fn is_flag(value: &[u8]) -> bool
    ensures { result ≡ is_flag value.now }
{
    value == b"1".as_slice() || value == b"0".as_slice()
}

/// A text without this prefix, if it has that.
fn without<'t>(prefix: &[u8], text: &'t [u8]) -> &'t [u8]
    ensures { result.now ≡ without prefix.now text.now }
{
    match following(prefix, text) {
        Some(rest) => rest,
        None => text,
    }
}

/// Whether a value is a whole number, which may be negative.
fn is_integer(value: &[u8]) -> bool
    ensures { result ≡ is_integer value.now }
{
    let digits = without(b"-", value);
    !digits.is_empty() && has_digits(digits)
}

/// Whether a byte is one that names of keyboard layouts have.
fn is_layout_byte(byte: u8) -> bool
    ensures { result ≡ is_layout_byte byte }
{
    byte == b'_'
        || (b'+' <= byte && byte <= b'9')
        || (b'@' <= byte && byte <= b'Z')
        || (b'a' <= byte && byte <= b'z')
}

/// Whether a value can name a keyboard layout.
fn is_layout(value: &[u8]) -> bool
    ensures { result ≡ is_layout value.now }
{
    value.iter().all(|byte| is_layout_byte(*byte))
}

/// How many of these bytes a text has.
fn count_of(byte: u8, text: &[u8]) -> usize
    ensures { result ≡ count_by (λ b. b == byte) text.now }
{
    text.iter().filter(|other| **other == byte).count()
}

/// Whether each byte of a text is one of resolutions.
fn has_resolution_bytes(text: &[u8]) -> bool
    ensures { result ≡ list_all is_resolution_byte text.now }
{
    text.iter().all(|byte| is_digit(*byte) || *byte == b' ' || *byte == b'*' || *byte == b'@')
}

/// Whether a value is resolutions, of which at most one has a star.
fn are_resolutions(value: &[u8]) -> bool
    ensures { result ≡ are_resolutions value.now }
{
    !value.is_empty() && has_resolution_bytes(value) && count_of(b'*', value) <= 1
}

/// Whether a byte is one that the matrix of a mount has.
fn is_matrix_byte(byte: u8) -> bool
    ensures { result ≡ is_matrix_byte byte }
{
    is_digit(byte)
        || is_blank(byte)
        || byte == b'+'
        || byte == b'-'
        || byte == b'.'
        || byte == b','
        || byte == b';'
}

/// Whether each byte of a text is one of a matrix.
fn has_matrix_bytes(text: &[u8]) -> bool
    ensures { result ≡ list_all is_matrix_byte text.now }
{
    text.iter().all(|byte| is_matrix_byte(*byte))
}

/// Whether a value is three rows of three numbers.
fn is_matrix(value: &[u8]) -> bool
    ensures { result ≡ is_matrix value.now }
{
    has_matrix_bytes(value) && count_of(b';', value) == 2 && count_of(b',', value) == 6
}

/// Whether each byte of a text is one of an axis.
fn has_axis_bytes(text: &[u8]) -> bool
    ensures { result ≡ list_all is_axis_byte text.now }
{
    text.iter()
        .all(|byte| is_digit(*byte) || *byte == b'-' || *byte == b':')
}

/// Whether a value is at most five numbers of an axis.
fn is_axis(value: &[u8]) -> bool
    ensures { result ≡ is_axis value.now }
{
    has_axis_bytes(value) && count_of(b':', value) <= 4
}

/// Whether a text can name a key.
fn is_key_name(text: &[u8]) -> bool
    ensures { result ≡ is_key_name text.now }
{
    text.iter().all(|byte| is_digit(*byte) || (b'a' <= *byte && *byte <= b'z') || *byte == b'_')
}

/// Whether a value is the name of a key, perhaps behind a `!`, or a `!` alone.
fn is_key(value: &[u8]) -> bool
    ensures { result ≡ is_key value.now }
{
    !value.is_empty() && is_key_name(without(b"!", value))
}

/// Whether a property takes a value, by the words that some properties take.
fn word_among(choices: &[Choice], name: &[u8], value: &[u8]) -> bool
    ensures { result ≡ word_among (map (λ choice. (choice.0.now, map (λ word. word.now) choice.1.now)) choices.now) name.now value.now }
{
    for choice in choices {
        if name == choice.0 {
            return is_among(choice.1, value);
        }
    }
    true
}

/// Whether a property whose name ends in a code, or that takes one of some words, takes a value.
fn takes_coded(name: &[u8], value: &[u8]) -> bool
    ensures { result ≡ takes_coded (following (codes "KEYBOARD_KEY_") name.now) (following (codes "EVDEV_ABS_") name.now) name.now value.now }
{
    if let Some(_) = following(b"KEYBOARD_KEY_", name) {
        is_key(value)
    } else if let Some(_) = following(b"EVDEV_ABS_", name) {
        is_axis(value)
    } else {
        word_among(&CHOICES, name, value)
    }
}

/// Whether a property takes a value, if that has no form of several properties.
fn takes_own(name: &[u8], value: &[u8]) -> bool
    ensures { result ≡ takes_own name.now value.now }
{
    if name == b"MOUSE_DPI".as_slice() {
        are_resolutions(value)
    } else if name == b"ACCEL_MOUNT_MATRIX".as_slice() {
        is_matrix(value)
    } else {
        takes_coded(name, value)
    }
}

/// Whether a property takes a value.
pub(crate) fn takes(name: &[u8], value: &[u8]) -> bool
    ensures { result ≡ takes name.now value.now }
{
    if is_among(&FLAGS, name) {
        is_flag(value)
    } else if is_among(&INPUT_FLAGS, name) {
        value.is_empty() || is_flag(value)
    } else if is_among(&NUMBERS, name) {
        is_integer(value)
    } else if is_among(&LAYOUTS, name) {
        is_layout(value)
    } else {
        takes_own(name, value)
    }
}
