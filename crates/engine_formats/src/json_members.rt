//! Members of JSON objects, added to what a writer has written.
ghost use Rattle.std.specs.Prelude.{◌≡◌, ◌∷◌, [], ◌++◌, OnOk};
ghost use Rattle.std.specs.Str.Lossy.{utf8_lossy};
ghost use Rattle.json.specs.Token as token;

use json::Writer;
use std::alloc::{AllocError, Global};
use text_json::write_word;

/// A member with a text of a file. What is not UTF-8 in it becomes U+FFFD, as JSON has to be UTF-8.
pub(crate) fn write_text(
    alloc: Global,
    writer: &mut Writer,
    key: &str,
    text: &[u8],
) -> Result<(), AllocError>
    ensures tokens { OnOk result (writer.new.tokens ≡ writer.old.tokens ++ token.key key.now ∷ token.string (utf8_lossy text.now) ∷ []) }
    ensures before { OnOk result (writer.new.before ≡ writer.old.before) }
{
    let text = String::from_utf8_lossy(alloc, text)?;
    write_word(writer, key, &text)
}
