//! D8: what a property may be called.
ghost use Rattle.std.specs.Prelude.{◌≡◌, codes};
ghost use Rattle.std.specs.List.{list_all};
ghost use Rattle.text_bytes.specs.Texts.{following};
ghost use Rattle.hwdb_core.specs.Forms.{is_small_digit};
ghost use Rattle.hwdb_core.specs.Names.{are_small_digits, begins_with_capital, is_capital, is_name, is_name_by, is_name_byte};

use crate::forms::is_small_digit;
use text_bytes::{following, is_digit};

/// Whether a byte is a capital letter.
fn is_capital(byte: u8) -> bool
    ensures { result ≡ is_capital byte }
{
    b'A' <= byte && byte <= b'Z'
}

/// Whether a text begins with a capital letter.
fn begins_with_capital(text: &[u8]) -> bool
    ensures { result ≡ begins_with_capital text.now }
{
    match text.first() {
        None => false,
        Some(first) => is_capital(*first),
    }
}

/// Whether each byte of a text is a hexadecimal digit in small letters.
fn has_small_digits(text: &[u8]) -> bool
    ensures { result ≡ list_all is_small_digit text.now }
{
    text.iter().all(|byte| is_small_digit(*byte))
}

/// Whether a text is some hexadecimal digits in small letters.
fn are_small_digits(text: &[u8]) -> bool
    ensures { result ≡ are_small_digits text.now }
{
    !text.is_empty() && has_small_digits(text)
}

/// Whether each byte of a text is one of a name.
fn has_name_bytes(text: &[u8]) -> bool
    ensures { result ≡ list_all is_name_byte text.now }
{
    text.iter().all(|byte| is_capital(*byte) || is_digit(*byte) || *byte == b'_')
}

/// Whether a name is that of a property of its form: a key, an axis, or any other.
fn has_form(name: &[u8]) -> bool
    ensures { result ≡ is_name_by (following (codes "KEYBOARD_KEY_") name.now) (following (codes "EVDEV_ABS_") name.now) name.now }
{
    if let Some(code) = following(b"KEYBOARD_KEY_", name) {
        are_small_digits(code)
    } else if let Some(axis) = following(b"EVDEV_ABS_", name) {
        are_small_digits(axis) && axis.len() == 2
    } else {
        begins_with_capital(name) && has_name_bytes(name)
    }
}

/// Whether a program can ask for a property of this name.
pub(crate) fn is_name(name: &[u8]) -> bool
    ensures { result ≡ is_name name.now }
{
    name == b"libsane_matched".as_slice() || has_form(name)
}
