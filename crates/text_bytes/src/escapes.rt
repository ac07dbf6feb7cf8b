//! Texts of a file, as they are written in an output.
//!
//! A name or a value may hold any byte, also a newline. Escaped, it stays on its line, and can be read back.
ghost use Rattle.std.specs.Bool.{then_some};
ghost use Rattle.std.specs.Prelude.{◌≡◌, ◌++◌, All, IfOk, OnOk, false};
ghost use Rattle.text_bytes.specs.Escapes.{escape_byte, escape_text, is_control, is_escaped};

use std::alloc::{AllocError, Global};

/// The digits of a hexadecimal number.
const DIGITS: &[u8; 16] = b"0123456789ABCDEF";

/// A text with its control bytes (below 0x20, and 0x7F) and backslashes as `\x` and two upper case
/// hexadecimal digits; all other bytes stay.
pub fn escape(alloc: Global, text: &[u8]) -> Result<Vec<u8>, AllocError>
    ensures value { IfOk result (λ shown. shown.items ≡ escape_text text.now) }
    ensures plain { IfOk result (λ shown. All (λ b. is_control b ≡ false) shown.items) }
    ensures same { All (λ b. is_escaped b ≡ false) text.now → IfOk result (λ shown. shown.items ≡ text.now) }
{
    let mut shown = Vec::with_capacity(alloc, text.len())?;
    for byte in text {
        push_escaped(&mut shown, *byte)?;
    }
    Ok(shown)
}

/// Appends a byte to a text, escaped if necessary.
fn push_escaped(shown: &mut Vec<u8>, byte: u8) -> Result<(), AllocError>
    ensures { OnOk result (shown.new.items ≡ shown.old.items ++ escape_byte byte) }
{
    match escaped_byte(byte) {
        Some(text) => shown.extend_from_slice(&text),
        None => Ok(shown.push(byte)?),
    }
}

/// How a byte is written that does not stand for itself, that is, a control byte or a backslash: `\x` and two upper
/// case hexadecimal digits. `None` means that it stands for itself.
///
/// It takes no memory, so that a text can be escaped byte by byte when memory has run out.
pub fn escaped_byte(byte: u8) -> Option<[u8; 4]>
    ensures { result ≡ then_some (is_escaped byte) (escape_byte byte) }
{
    if !needs_escape(byte) {
        return None;
    }
    Some([
        b'\\',
        b'x',
        DIGITS[usize::from(byte / 16)],
        DIGITS[usize::from(byte % 16)],
    ])
}

/// Whether a byte does not stand for itself.
fn needs_escape(byte: u8) -> bool
    ensures { result ≡ is_escaped byte }
{
    byte < 0x20 || byte == 0x7F || byte == b'\\'
}
