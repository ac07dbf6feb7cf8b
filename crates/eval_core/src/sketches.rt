//! Numbers by which texts can be distinguished.
//!
//! Texts with different sketches are different; those with the same sketch still have to be compared. So a sketch
//! of each text nearly always suffices to see that a choice does not fit.
ghost use Rattle.std.specs.Prelude.{◌≡◌, fold, option_map};
ghost use Rattle.std.specs.List.{list_all};
ghost use Rattle.eval_core.specs.Sketches.{byte_of, exact_sketch, is_word_item, items_sketch, mixed, only_part, sketch};

use text_bytes::is_whitespace;
use text_core::{Choice, Item, Pattern};

/// A sketch with one more byte.
#[tactic(auto, unfolding(crate::specs::Sketches::mixed))]
fn mixed(sketch: u64, byte: u8) -> u64
    ensures { result ≡ mixed sketch byte }
{
    sketch
        .wrapping_mul(1_099_511_628_211)
        .wrapping_add(u64::from(byte))
}

/// The sketch of a text: a number that is the same for the same text.
pub fn sketch(text: &[u8]) -> u64
    ensures { result ≡ sketch text.now }
{
    let mut sketch = 0;
    for byte in text {
        sketch = mixed(sketch, *byte);
    }
    sketch
}

/// Whether an item is a byte that is not whitespace.
fn is_word_item(item: &Item) -> bool
    ensures { result ≡ is_word_item item.now }
{
    match item {
        Item::Byte(byte) => !is_whitespace(*byte),
        _ => false,
    }
}

/// The byte that an item is, if it is one.
fn byte_of(item: &Item) -> u8
    ensures { result ≡ byte_of item.now }
{
    match item {
        Item::Byte(byte) => *byte,
        _ => 0,
    }
}

/// Whether a pattern is a text without whitespace.
fn are_words(items: &[Item]) -> bool
    ensures { result ≡ list_all is_word_item items.now }
{
    items.iter().all(is_word_item)
}

/// The sketch of the text that a pattern is.
fn items_sketch(items: &[Item]) -> u64
    ensures { result ≡ items_sketch items.now }
{
    let mut sketch = 0;
    for item in items {
        sketch = mixed(sketch, byte_of(item));
    }
    sketch
}

/// The one pattern of a choice, if there is only one.
pub(crate) fn only_part(parts: &[Pattern]) -> Option<&[Item]>
    ensures { option_map (λ items. items.now) result ≡ only_part parts.now }
{
    let (part, others) = parts.split_first()?;
    if others.is_empty() {
        Some(part.items())
    } else {
        None
    }
}

/// The sketch of the one text that a choice fits, if it fits only one, without whitespace: the choice fits no text
/// with another sketch.
pub fn exact_sketch(choice: &Choice) -> Option<u64>
    ensures { result ≡ exact_sketch choice.now }
{
    let items = only_part(choice.parts())?;
    if are_words(items) {
        Some(items_sketch(items))
    } else {
        None
    }
}
