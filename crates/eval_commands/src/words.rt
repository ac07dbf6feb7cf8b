//! The words of a builtin's command.
//!
//! A command is read byte by byte, since a quote may open and close inside a word.
ghost use Rattle.std.specs.Prelude.{◌≡◌, IfOk, OnOk, fold, option_map};
ghost use Rattle.eval_commands.specs.Words.{begun, command_words, ended, is_quote, unread_command, took, udev_words};

use rule_tokens::is_separator;
use std::alloc::{AllocError, Global};
use std::marker::Model;
use text_bytes::{Bytes, Profile};

/// Where in a command the next byte is.
#[derive(Clone, Copy, PartialEq, Eq)]
pub enum Place {
    /// Between words.
    Between,
    /// In a word, outside of quotes.
    InWord,
    /// In a word, after such a quote.
    Quoted(u8),
}

/// A command of which a part was read.
#[derive(Drop)]
struct Cutter {
    place: Place,
    word: Vec<u8>,
    words: Vec<Bytes>,
}

impl Model for Cutter {
    ghost use Rattle.eval_commands.specs.Words.{Cut};

    ghost Value = { Cut };

    ghost view = { λ c. record { place = c.place; word = c.word.items; words = c.words.items } };
}

/// Whether a byte groups everything up to the next such byte.
pub fn is_quote(byte: u8) -> bool
    ensures { result ≡ is_quote byte }
{
    byte == b'\'' || byte == b'"'
}

impl Cutter {
    /// A command that was read to its end, with room for a word of all its bytes.
    #[inline(always)]
    fn read(alloc: Global, profile: Profile, text: &[u8]) -> Result<Cutter, AllocError>
        ensures { IfOk result (λ cutter. cutter ≡ fold (took profile) unread_command text.now) }
    {
        let mut cutter = Cutter {
            place: Place::Between,
            word: Vec::with_capacity(alloc, text.len())?,
            words: Vec::new(alloc),
        };
        for byte in text {
            cutter.take(alloc, profile, *byte)?;
        }
        Ok(cutter)
    }

    /// Takes a byte of a word outside of quotes that is not a space.
    #[inline(always)]
    fn begin(&mut self, byte: u8) -> Result<(), AllocError>
        ensures { OnOk result (self.new ≡ begun byte self.old) }
    {
        if is_quote(byte) {
            self.place = Place::Quoted(byte);
            return Ok(());
        }
        self.place = Place::InWord;
        self.word.push(byte)?;
        Ok(())
    }

    /// Ends the word.
    fn end(&mut self, alloc: Global) -> Result<(), AllocError>
        ensures { OnOk result (self.new ≡ ended self.old) }
    {
        self.place = Place::Between;
        self.words.push(Bytes::copy_of(alloc, &self.word)?)?;
        Ok(())
    }

    /// Takes the next byte. By the manual a space separates words, and for udev also a tab, a newline and a carriage return.
    #[inline(always)]
    fn take(&mut self, alloc: Global, profile: Profile, byte: u8) -> Result<(), AllocError>
        ensures { OnOk result (self.new ≡ took profile self.old byte) }
    {
        let is_between = match profile {
            Profile::Manual => byte == b' ',
            Profile::Udev => is_separator(byte),
        };
        match self.place {
            Place::Between if is_between => Ok(()),
            Place::Between => {
                self.word.clear();
                self.begin(byte)
            }
            Place::InWord if is_between => self.end(alloc),
            Place::InWord => self.begin(byte),
            Place::Quoted(quote) if byte == quote => {
                self.place = Place::InWord;
                Ok(())
            }
            Place::Quoted(_) => {
                self.word.push(byte)?;
                Ok(())
            }
        }
    }
}

/// The words of a command: it is split at spaces, and `'` or `"` at any place of a word groups everything up to the
/// same quote, both quotes dropped. `None` if a quote stays open.
#[tactic(auto, unfolding(crate::specs::Words::command_words))]
pub(crate) fn command_words(alloc: Global, text: &[u8]) -> Result<Option<Vec<Bytes>>, AllocError>
    ensures { IfOk result (λ found. option_map (λ words. words.items) found ≡ command_words text.now) }
{
    let mut cutter = Cutter::read(alloc, Profile::Manual, text)?;
    match cutter.place {
        Place::Between => {}
        Place::InWord => cutter.end(alloc)?,
        Place::Quoted(_) => return Ok(None),
    }
    let Cutter { words, .. } = cutter;
    Ok(Some(words))
}

/// The words of a command for udev: it is split at spaces, tabs and ends of lines, and a quote that stays open ends
/// with the command.
#[tactic(auto, unfolding(crate::specs::Words::udev_words))]
pub(crate) fn udev_words(alloc: Global, text: &[u8]) -> Result<Vec<Bytes>, AllocError>
    ensures { IfOk result (λ words. words.items ≡ udev_words text.now) }
{
    let mut cutter = Cutter::read(alloc, Profile::Udev, text)?;
    match cutter.place {
        Place::Between => {}
        Place::InWord | Place::Quoted(_) => cutter.end(alloc)?,
    }
    let Cutter { words, .. } = cutter;
    Ok(words)
}
