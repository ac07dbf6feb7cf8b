//! A text as one word.
ghost use Rattle.std.specs.Prelude.{◌≡◌, ◌++◌, [], false, length, IfOk, OnOk};
ghost use Rattle.text_bytes.specs.Text.{Text};
ghost use Rattle.text_bytes.specs.Steps.{grown, with_byte};
ghost use Rattle.text_bytes.specs.Underscores.{underscored};

use crate::texts::is_whitespace;
use std::alloc::{AllocError, Global};

/// The word that a text becomes, which is passed in part by part.
#[derive(Drop)]
pub struct Word {
    pub(crate) bytes: Vec<u8>,
    pub(crate) gap: bool,
}

impl Word {
    /// The word of no text.
    pub fn new(alloc: Global) -> Word
        ensures bytes { result.bytes.items ≡ [] }
        ensures gap { result.gap ≡ false }
    {
        Word {
            bytes: Vec::new(alloc),
            gap: false,
        }
    }

    /// How many bytes the word has so far.
    pub fn len(&self) -> usize
        ensures { result ≡ length self.now.bytes.items }
    {
        self.bytes.len()
    }

    /// Adds more of the text.
    pub fn push(&mut self, more: &[u8]) -> Result<(), AllocError>
        ensures { OnOk result ((left : Text) → grown self.new left ≡ grown self.old (more.now ++ left)) }
    {
        for byte in more {
            push_byte(&mut self.bytes, self.gap, *byte)?;
            self.gap = is_whitespace(*byte);
        }
        Ok(())
    }

    /// Returns the bytes.
    pub fn into_bytes(self) -> Vec<u8>
        ensures { result.items ≡ self.bytes.items }
    {
        let Word { bytes, gap: _gap } = self;
        bytes
    }
}

/// A text as one word: without the whitespace at its ends, and with one `_` for each run of it inside. This is what
/// udev does with the value of a substitution in the name of a link.
pub fn underscored(alloc: Global, text: &[u8]) -> Result<Vec<u8>, AllocError>
    ensures { IfOk result (λ word. word.items ≡ underscored text.now) }
{
    let mut word = Word::new(alloc);
    word.push(text)?;
    Ok(word.into_bytes())
}

/// Adds a byte to a word, unless it is whitespace: after a gap with `_` before it.
fn push_byte(word: &mut Vec<u8>, gap: bool, byte: u8) -> Result<(), AllocError>
    ensures { OnOk result (word.new.items ≡ with_byte word.old.items gap byte) }
{
    if is_whitespace(byte) {
        return Ok(());
    }
    if gap && !word.is_empty() {
        word.push(b'_')?;
    }
    word.push(byte)?;
    Ok(())
}
