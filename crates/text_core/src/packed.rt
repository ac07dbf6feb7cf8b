//! Patterns in little room, as a database holds more than a hundred thousand of them.
//!
//! An item may be a set of 32 bytes, so that each takes the room of one, but nearly all of a database are a byte, `?` or
//! `*`. A pattern of these alone is held as it is written, with a byte for each item.
ghost use Rattle.std.specs.Prelude.{◌≡◌, ◌≢◌, ◌==◌, ◌<◌, Ok, Err, IfOk, IsErrOf, MatchResult, length, slice_index_or};
ghost use Rattle.std.specs.List.{list_any};
ghost use Rattle.text_bytes.specs.Names.{open_bracket};
ghost use Rattle.text_core.specs.Fits.{fits};
ghost use Rattle.text_core.specs.Packed.{written};
ghost use Rattle.text_core.specs.Spell.{max_len, spell};
ghost use Rattle.text_core.specs.declared.glob_fault.GlobFault.TheVariants.{Memory, TooLong};
ghost use Rattle.text_core.specs.declared.item.Item.TheVariants.{One};

use crate::glob::{self, AsItem};
use crate::glob_fault::GlobFault;
use crate::item::Item;
use crate::pattern::{MAX_LEN, Pattern};
use std::alloc::{AllocError, Global};
use std::marker::Model;
use std::rc::RcSlice;
use text_bytes::find;

/// How the items of a pattern are held.
#[derive(Drop)]
enum Held {
    /// By the byte that each is written as.
    Written(RcSlice<u8>),
    /// As they are.
    Whole(RcSlice<Item>),
}

/// A pattern that takes a byte for each item, if it is written without a `[`. Copies share what they hold.
#[derive(Drop)]
pub struct PackedPattern {
    held: Held,
}

impl Model for PackedPattern {
    ghost use Rattle.std.specs.Prelude.{List};
    ghost use Rattle.text_core.specs.Packed.{held_items};
    ghost use Rattle.text_core.specs.declared.item.Item.{Item};

    ghost Value = { List Item };

    ghost view = { λ p. held_items p.held };
}

/// The item that a byte is written as.
fn written(byte: u8) -> Item
    ensures { result ≡ written byte }
{
    match byte {
        b'*' => Item::Many,
        b'?' => Item::One,
        _ => Item::Byte(byte),
    }
}

/// Whether a text has a `[`, which alone can begin an item of more than one byte.
fn has_bracket(text: &[u8]) -> bool
    ensures { result ≡ list_any (λ b. b == open_bracket) text.now }
{
    find(b'[', text).is_some()
}

impl AsItem for u8 {
    ghost item = { written };

    fn is_many(&self) -> bool {
        *self == b'*'
    }

    fn takes(&self, byte: u8) -> bool {
        match *self {
            b'*' => false,
            b'?' => true,
            own => own == byte,
        }
    }
}

impl PackedPattern {
    /// Reads a pattern, as [`Pattern::read`] does.
    pub fn read(alloc: Global, text: &[u8]) -> Result<PackedPattern, GlobFault>
        ensures value { MatchResult result (λ p. spell text.now ≡ Ok p) (λ e. e ≢ Memory → spell text.now ≡ Err e) }
        ensures too_long { max_len < length text.now → IsErrOf result TooLong }
    {
        if text.len() > MAX_LEN || has_bracket(text) {
            return PackedPattern::read_whole(alloc, text);
        }
        Ok(PackedPattern {
            held: Held::Written(RcSlice::from_slice(alloc, text)?),
        })
    }

    /// Reads a pattern, and holds its items as they are.
    fn read_whole(alloc: Global, text: &[u8]) -> Result<PackedPattern, GlobFault>
        ensures value { MatchResult result (λ p. spell text.now ≡ Ok p) (λ e. e ≢ Memory → spell text.now ≡ Err e) }
        ensures too_long { max_len < length text.now → IsErrOf result TooLong }
    {
        let pattern = Pattern::read(alloc, text)?;
        Ok(PackedPattern {
            held: Held::Whole(RcSlice::from_vec(pattern.into_items())?),
        })
    }

    /// A pattern of the same items, which both share, so that it takes no memory. It fails only if there are as many
    /// copies as a `usize` counts.
    pub fn copy(&self, _alloc: Global) -> Result<PackedPattern, AllocError>
        ensures { IfOk result (λ p. p ≡ self.now) }
    {
        let held = match &self.held {
            Held::Written(bytes) => Held::Written(bytes.clone()?),
            Held::Whole(items) => Held::Whole(items.clone()?),
        };
        Ok(PackedPattern { held })
    }

    /// Returns how many items it has.
    pub fn len(&self) -> usize
        ensures { result ≡ length self.now }
    {
        match &self.held {
            Held::Written(bytes) => bytes.as_slice().len(),
            Held::Whole(items) => items.as_slice().len(),
        }
    }

    /// Returns an item. It takes no memory.
    pub fn item(&self, at: usize) -> Item
        requires { at < length self.now }
        ensures { result ≡ slice_index_or self.now at One }
    {
        match &self.held {
            Held::Written(bytes) => written(bytes.as_slice()[at]),
            Held::Whole(items) => items.as_slice()[at],
        }
    }

    /// Whether the whole text fits. It takes no memory, and time of at most items times text.
    pub fn fits(&self, text: &[u8]) -> bool
        ensures { result ≡ fits self.now text.now }
    {
        match &self.held {
            Held::Written(bytes) => glob::fits(bytes.as_slice(), text),
            Held::Whole(items) => glob::fits(items.as_slice(), text),
        }
    }
}
