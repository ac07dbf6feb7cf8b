//! Where something is, and a word about it: the parts of lines that messages and notes share.
//!
//! A file's name and a word may hold any byte, so both are escaped here, and no line is made without that.

ghost use Rattle.std.specs.Prelude.{◌≡◌, ◌++◌, length, take, codes, OnOk, OnErr};
ghost use Rattle.text_bytes.specs.Escapes.{escape_text};
ghost use Rattle.engine_sessions.specs.Places.{place_of, word_part};

use crate::escaping::push_escaped;
use itoa::Buffer;
use std::alloc::{AllocError, Global};

/// Appends `FILE:LINE: ` to a text, perhaps the first part of it alone if memory runs out.
fn append_place(alloc: Global, text: &mut Vec<u8>, file: &[u8], line: u32) -> Result<(), AllocError>
    ensures place { OnOk result (text.new.items ≡ text.old.items ++ place_of file.now line) }
    ensures partly { OnErr result (take (length text.old.items) text.new.items ≡ text.old.items) }
{
    push_escaped(alloc, text, file)?;
    text.push(b':')?;
    text.extend_from_slice(Buffer::new().format(line).as_bytes())?;
    text.extend_from_slice(b": ")
}

/// Appends `FILE:LINE: ` to a text, the file's name escaped.
///
/// If memory runs out, the text stays as it is.
pub fn push_place(
    alloc: Global,
    text: &mut Vec<u8>,
    file: &[u8],
    line: u32,
) -> Result<(), AllocError>
    ensures place { OnOk result (text.new.items ≡ text.old.items ++ place_of file.now line) }
    ensures refused { OnErr result (text.new.items ≡ text.old.items) }
{
    let before = text.len();
    let appended = append_place(alloc, text, file, line);
    if appended.is_err() {
        text.truncate(before);
    }
    appended
}

/// Appends `: ` and a word to a text, perhaps the first part of it alone if memory runs out.
fn append_word(alloc: Global, text: &mut Vec<u8>, word: &[u8]) -> Result<(), AllocError>
    ensures word { OnOk result (text.new.items ≡ text.old.items ++ codes ": " ++ escape_text word.now) }
    ensures partly { OnErr result (take (length text.old.items) text.new.items ≡ text.old.items) }
{
    text.extend_from_slice(b": ")?;
    push_escaped(alloc, text, word)
}

/// Appends `: ` and a word to a text, the word escaped, and nothing if the word is empty.
///
/// If memory runs out, the text stays as it is.
pub fn push_word(alloc: Global, text: &mut Vec<u8>, word: &[u8]) -> Result<(), AllocError>
    ensures word { OnOk result (text.new.items ≡ text.old.items ++ word_part word.now) }
    ensures refused { OnErr result (text.new.items ≡ text.old.items) }
{
    if word.is_empty() {
        return Ok(());
    }
    let before = text.len();
    let appended = append_word(alloc, text, word);
    if appended.is_err() {
        text.truncate(before);
    }
    appended
}
