//! Patterns, as udev(7) and hwdb(7) describe them for matching.
//!
//! A pattern is read once and matched often, so it holds its items ready, each set as bits, and in
//! just the room that they need.
ghost use Rattle.std.specs.Prelude.{◌≡◌, ◌≢◌, ◌+◌, ◌++◌, ◌<◌, ◌^◌, length, map, Ok, Err, IfOk, OnOk, IsErrOf, MatchResult};
ghost use Rattle.text_core.specs.Fits.{fits};
ghost use Rattle.text_core.specs.Spell.{items_at, max_len, spell};
ghost use Rattle.text_core.specs.declared.glob_fault.GlobFault.TheVariants.{Memory, TooLong};
ghost use Rattle.text_core.specs.declared.item.Item.TheVariants.{Byte};

use crate::glob;
use crate::glob_fault::GlobFault;
use crate::item::Item;
use crate::reading::Reading;
use crate::spell::{first_item, plain_length};
use std::alloc::{AllocError, Global};
use std::marker::Model;

/// How many bytes the text of a pattern or of a choice may have.
pub(crate) const MAX_LEN: usize = 16384;

/// A pattern: `*` takes any bytes, `?` any one, `[..]` one byte of a set, and each other byte, also the backslash,
/// itself. A set is negated by a first `!` or `^`, has ranges such as `a-z`, and ends at the first `]` after its
/// first member; a `[` that no such `]` follows is a byte.
#[derive(Drop)]
pub struct Pattern {
    items: Vec<Item>,
}

impl Model for Pattern {
    ghost use Rattle.std.specs.Prelude.{List};
    ghost use Rattle.text_core.specs.declared.item.Item.{Item};

    ghost Value = { List Item };

    ghost view = { λ p. p.items.items };
}

/// Adds bytes as items that mean themselves.
fn push_bytes(items: &mut Vec<Item>, bytes: &[u8]) -> Result<(), AllocError>
    ensures { OnOk result (items.new.items ≡ items.old.items ++ map Byte bytes.now) }
{
    for byte in bytes {
        items.push(Item::Byte(*byte))?;
    }
    Ok(())
}

impl Pattern {
    /// Reads a pattern as udev(7) and hwdb(7) write them.
    ///
    /// A text of more than 16,384 bytes is `TooLong`, before all else; a class among the members of a set is
    /// `Class`, with the place of its inner `[`, the first of them; `Memory` means that an allocation failed.
    pub fn read(alloc: Global, text: &[u8]) -> Result<Pattern, GlobFault>
        ensures value { MatchResult result (λ p. spell text.now ≡ Ok p) (λ e. e ≢ Memory → spell text.now ≡ Err e) }
        ensures too_long { max_len < length text.now → IsErrOf result TooLong }
    {
        if text.len() > MAX_LEN {
            return Err(GlobFault::TooLong);
        }
        Pattern::read_at(alloc, Reading::Exact, 0, text)
    }

    /// Reads a text that is at a place of a longer one.
    pub(crate) fn read_at(
        alloc: Global,
        reading: Reading,
        at: usize,
        text: &[u8],
    ) -> Result<Pattern, GlobFault>
        requires { at + length text.now < 2 ^ 63 }
        ensures { MatchResult result (λ p. items_at reading text.now 0 at ≡ Ok p) (λ e. e ≢ Memory → items_at reading text.now 0 at ≡ Err e) }
    {
        let (plain, mut rest) = text.split_at(plain_length(reading, text));
        let mut items = Vec::with_capacity(alloc, text.len())?;
        push_bytes(&mut items, plain)?;
        while let Some((byte, after)) = rest.split_first() {
            let head = first_item(reading, at + (text.len() - rest.len()), *byte, after)?;
            items.push(head.item)?;
            (_, rest) = after.split_at(head.following);
        }
        Ok(Pattern::of_items(items))
    }

    /// The pattern of these items, with just the capacity that they need.
    pub(crate) fn of_items(mut items: Vec<Item>) -> Pattern
        ensures { result ≡ items.items }
    {
        items.shrink_to_fit();
        Pattern { items }
    }

    /// Its items.
    pub(crate) fn into_items(self) -> Vec<Item>
        ensures { result.items ≡ self }
    {
        let Pattern { items } = self;
        items
    }

    /// A pattern of the same items.
    pub fn copy(&self, alloc: Global) -> Result<Pattern, AllocError>
        ensures { IfOk result (λ p. p ≡ self.now) }
    {
        Ok(Pattern {
            items: Vec::from_slice(alloc, &self.items)?,
        })
    }

    /// Returns the items, in order.
    pub fn items(&self) -> &[Item]
        ensures { result.now ≡ self.now }
    {
        &self.items
    }

    /// Whether the whole text fits. It allocates nothing, and takes time at most items times text.
    pub fn fits(&self, text: &[u8]) -> bool
        ensures { result ≡ fits self.now text.now }
    {
        glob::fits(&self.items, text)
    }
}
