//! Any bytes as a string of JSON.
ghost use Rattle.std.specs.Prelude.{◌≡◌, ◌++◌, ◌∷◌, [], flat_map, IfOk, OnOk, string_bytes};
ghost use Rattle.std.specs.Str.Lossy.{replacement_bytes};
ghost use Rattle.text_bytes.specs.Escapes.{hex_digit};
ghost use Rattle.json.specs.Token as token;
ghost use Rattle.text_json.specs.Told.{is_itself, stands, told_byte, told_text};

use json::Writer;
use std::alloc::{AllocError, Global};
use text_bytes::is_utf8;

/// U+FFFD, by which Unicode marks what it has no character for.
const MARK: [u8; 3] = [0xEF, 0xBF, 0xBD];

/// The upper case hexadecimal digits.
const DIGITS: [u8; 16] = *b"0123456789ABCDEF";

/// Whether a text stands for itself.
fn is_itself(text: &[u8]) -> bool
    ensures { result ≡ is_itself text.now }
{
    is_utf8(text) && !text.starts_with(&MARK)
}

/// Whether a byte stands for itself in a text that does not.
fn stands(byte: u8) -> bool
    ensures { result ≡ stands byte }
{
    byte >= 0x20 && byte < 0x7F && byte != b'\\'
}

/// Appends a byte of a text that does not stand for itself.
fn push_byte(text: &mut Vec<u8>, byte: u8) -> Result<(), AllocError>
    ensures { OnOk result (text.new.items ≡ text.old.items ++ told_byte byte) }
{
    if stands(byte) {
        return Ok(text.push(byte)?);
    }
    text.extend_from_slice(b"\\x")?;
    text.push(DIGITS[usize::from(byte / 16)])?;
    text.push(DIGITS[usize::from(byte % 16)])?;
    Ok(())
}

/// A text that does not stand for itself: the mark, and then byte by byte.
fn marked(alloc: Global, text: &[u8]) -> Result<Vec<u8>, AllocError>
    ensures { IfOk result (λ marked. marked.items ≡ replacement_bytes ++ flat_map told_byte text.now) }
{
    let mut marked = Vec::from_slice(alloc, &MARK)?;
    for byte in text {
        push_byte(&mut marked, *byte)?;
    }
    Ok(marked)
}

/// The bytes of a text as JSON tells it.
#[tactic(auto, unfolding(crate::specs::Told::told_text))]
fn told_bytes(alloc: Global, text: &[u8]) -> Result<Vec<u8>, AllocError>
    ensures { IfOk result (λ told. told.items ≡ told_text text.now) }
{
    if is_itself(text) {
        return Vec::from_slice(alloc, text);
    }
    marked(alloc, text)
}

/// A text as JSON tells it: itself if it is UTF-8, otherwise U+FFFD and then its bytes, each that is no plain character of
/// ASCII by `\x` and two hexadecimal digits. A text that begins with U+FFFD is told like that, too, so that nothing can be
/// taken for another text.
pub fn told(alloc: Global, text: &[u8]) -> Result<String, AllocError>
    ensures { IfOk result (λ told. string_bytes told ≡ told_text text.now) }
{
    let bytes = told_bytes(alloc, text)?;
    let told = String::from_utf8_lossy(alloc, &bytes)?;
    Ok(told)
}

/// Writes a text as a string.
pub fn write_told_value(alloc: Global, writer: &mut Writer, text: &[u8]) -> Result<(), AllocError>
    ensures tokens { OnOk result (writer.new.tokens ≡ writer.old.tokens ++ token.string (told_text text.now) ∷ []) }
    ensures before { OnOk result (writer.new.before ≡ writer.old.before) }
{
    let told = told(alloc, text)?;
    writer.string(&told)
}

/// Writes a text as the key of a member.
pub fn write_told_key(alloc: Global, writer: &mut Writer, text: &[u8]) -> Result<(), AllocError>
    ensures tokens { OnOk result (writer.new.tokens ≡ writer.old.tokens ++ token.key (told_text text.now) ∷ []) }
    ensures before { OnOk result (writer.new.before ≡ writer.old.before) }
{
    let told = told(alloc, text)?;
    writer.key(&told)
}
