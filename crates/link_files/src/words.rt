//! The words of a value.
ghost use Rattle.std.specs.Prelude.{◌≡◌, IfOk, OnOk};
ghost use Rattle.link_files.specs.Words.{ended, is_whole, split, split_byte, with_byte, words_of};

use crate::lines::is_space;
use std::alloc::{AllocError, Global};
use std::marker::Model;
use text_bytes::Bytes;

/// How the words of a value are written.
#[derive(Clone, Copy)]
pub enum WordKind {
    /// With a backslash before a byte that means itself, and without quotes.
    Plain,
    /// The same, each word a name of an interface or a pattern that could be one.
    Name,
    /// With quotes, and with backslashes that stay, as a pattern may need them.
    Glob,
    /// With quotes, and with a backslash before a byte that means itself, each word a name, `=` and a value.
    Property,
}

/// The words of a value so far.
#[derive(Drop)]
struct Splitting {
    quote: u8,
    is_escaped: bool,
    is_begun: bool,
    word: Vec<u8>,
    words: Vec<Bytes>,
}

impl Model for Splitting {
    ghost use Rattle.link_files.specs.Words.{Splitting};

    ghost Value = { Splitting };

    ghost view = { λ s. record { quote = s.quote; is_escaped = s.is_escaped; is_begun = s.is_begun; word = s.word.items; words = s.words.items } };
}

impl Splitting {
    /// Ends the word, if one has begun.
    fn end_word(&mut self, alloc: Global) -> Result<(), AllocError>
        ensures { OnOk result (self.new ≡ ended self.old) }
    {
        if self.is_begun {
            let word = Bytes::copy_of(alloc, &self.word)?;
            self.words.push(word)?;
        }
        self.word.clear();
        self.is_begun = false;
        Ok(())
    }

    /// Adds a byte to the word.
    fn add_byte(&mut self, byte: u8) -> Result<(), AllocError>
        ensures { OnOk result (self.new ≡ with_byte self.old byte) }
    {
        self.word.push(byte)?;
        self.is_escaped = false;
        self.is_begun = true;
        Ok(())
    }

    /// Takes one more byte.
    #[tactic(auto, unfolding(crate::specs::Words::split_byte))]
    fn take_byte(&mut self, alloc: Global, kind: WordKind, byte: u8) -> Result<(), AllocError>
        ensures { OnOk result (self.new ≡ split_byte kind self.old byte) }
    {
        if self.is_escaped {
            return self.add_byte(byte);
        }
        if byte == b'\\' && !matches!(kind, WordKind::Glob) {
            self.is_escaped = true;
            self.is_begun = true;
            return Ok(());
        }
        let is_quote = byte == b'"' || byte == b'\'';
        if is_quote && byte == self.quote {
            self.quote = 0;
            self.is_begun = true;
            return Ok(());
        }
        if self.quote != 0 {
            return self.add_byte(byte);
        }
        if is_quote && matches!(kind, WordKind::Glob | WordKind::Property) {
            self.quote = byte;
            self.is_begun = true;
            return Ok(());
        }
        if is_space(byte) {
            return self.end_word(alloc);
        }
        self.add_byte(byte)
    }
}

/// The words of a value so far at its end.
#[tactic(auto, unfolding(crate::specs::Words::split))]
fn split(alloc: Global, kind: WordKind, value: &[u8]) -> Result<Splitting, AllocError>
    ensures { IfOk result (λ s. s ≡ split kind value.now) }
{
    let mut splitting = Splitting {
        quote: 0,
        is_escaped: false,
        is_begun: false,
        word: Vec::new(alloc),
        words: Vec::new(alloc),
    };
    for byte in value {
        splitting.take_byte(alloc, kind, *byte)?;
    }
    Ok(splitting)
}

/// Whether a value leaves no quote open, and ends in no backslash that counts for the byte after it.
#[tactic(auto, unfolding(crate::specs::Words::is_whole))]
pub fn is_whole(alloc: Global, kind: WordKind, value: &[u8]) -> Result<bool, AllocError>
    ensures { IfOk result (λ whole. whole ≡ is_whole kind value.now) }
{
    let splitting = split(alloc, kind, value)?;
    Ok(!splitting.is_escaped && splitting.quote == 0)
}

/// The words of a value.
#[tactic(auto, unfolding(crate::specs::Words::words_of))]
pub fn words_of(alloc: Global, kind: WordKind, value: &[u8]) -> Result<Vec<Bytes>, AllocError>
    ensures { IfOk result (λ words. words.items ≡ words_of kind value.now) }
{
    let mut splitting = split(alloc, kind, value)?;
    if !splitting.is_escaped && splitting.quote == 0 {
        splitting.end_word(alloc)?;
    }
    Ok(splitting.words)
}
