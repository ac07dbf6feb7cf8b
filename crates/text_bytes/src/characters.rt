//! The characters of a text.
ghost use Rattle.std.specs.Char.{to_ascii_lowercase};
ghost use Rattle.std.specs.List.{list_any};
ghost use Rattle.std.specs.Prelude.{◌≡◌, IfOk, map};
ghost use Rattle.std.specs.Str.{is_utf8};
ghost use Rattle.text_bytes.specs.Escapes.{is_control};

use std::alloc::{AllocError, Global};
use std::str;

/// Whether a text is UTF-8.
pub fn is_utf8(text: &[u8]) -> bool
    ensures { result ≡ is_utf8 text.now }
{
    str::from_utf8(text).is_ok()
}

/// Whether a text has a control character of ASCII.
pub fn has_control(text: &[u8]) -> bool
    ensures { result ≡ list_any is_control text.now }
{
    text.iter().any(|byte| *byte < 0x20 || *byte == 0x7F)
}

/// A text in lower case letters.
pub fn small(alloc: Global, text: &[u8]) -> Result<Vec<u8>, AllocError>
    ensures { IfOk result (λ letters. letters.items ≡ map to_ascii_lowercase text.now) }
{
    text.iter()
        .map(|byte| byte.to_ascii_lowercase())
        .collect(alloc)
}
