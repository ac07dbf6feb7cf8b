//! Members of JSON objects, added to what a writer has written.
ghost use Rattle.std.specs.Prelude.{◌≡◌, ◌∷◌, [], ◌++◌, decimal, OnOk};
ghost use Rattle.json.specs.Token as token;
ghost use Rattle.text_json.specs.Told.{told_text};

use crate::telling::write_told_value;
use json::Writer;
use std::alloc::{AllocError, Global};

/// Writes a member with any text.
pub fn write_told(
    alloc: Global,
    writer: &mut Writer,
    key: &str,
    text: &[u8],
) -> Result<(), AllocError>
    ensures tokens { OnOk result (writer.new.tokens ≡ writer.old.tokens ++ token.key key.now ∷ token.string (told_text text.now) ∷ []) }
    ensures before { OnOk result (writer.new.before ≡ writer.old.before) }
{
    writer.key(key)?;
    write_told_value(alloc, writer, text)
}

/// Writes a member with a text of the program's own.
pub fn write_word(writer: &mut Writer, key: &str, word: &str) -> Result<(), AllocError>
    ensures tokens { OnOk result (writer.new.tokens ≡ writer.old.tokens ++ token.key key.now ∷ token.string word.now ∷ []) }
    ensures before { OnOk result (writer.new.before ≡ writer.old.before) }
{
    writer.key(key)?;
    writer.string(word)
}

/// Writes a member with a number.
pub fn write_number(writer: &mut Writer, key: &str, number: u32) -> Result<(), AllocError>
    ensures tokens { OnOk result (writer.new.tokens ≡ writer.old.tokens ++ token.key key.now ∷ token.number (decimal number) ∷ []) }
    ensures before { OnOk result (writer.new.before ≡ writer.old.before) }
{
    writer.key(key)?;
    writer.u64(u64::from(number))
}
