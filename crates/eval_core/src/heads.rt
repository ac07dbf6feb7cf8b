//! First bytes, by which it shows that a text does not fit a pattern that begins with a byte.
//!
//! Most patterns of the kernel's names begin with a few letters, so that a name's first byte is nearly
//! always enough to see that a choice does not fit.
ghost use Rattle.std.specs.Prelude.{◌≡◌};
ghost use Rattle.eval_core.specs.Sketches.{byte_item, exact_head, first_byte, head_of};

use crate::sketches::only_part;
use text_core::{Choice, Item};

/// The first byte of a text, or 256 if it is empty.
pub fn first_byte(text: &[u8]) -> u64
    ensures { result ≡ first_byte text.now }
{
    match text.first() {
        Some(byte) => u64::from(*byte),
        None => 256,
    }
}

/// The byte that an item is, if it is one.
fn byte_item(item: &Item) -> Option<u64>
    ensures { result ≡ byte_item item.now }
{
    match item {
        Item::Byte(byte) => Some(u64::from(*byte)),
        _ => None,
    }
}

/// The byte that a pattern begins with, if it does.
fn head_of(items: &[Item]) -> Option<u64>
    ensures { result ≡ head_of items.now }
{
    byte_item(items.first()?)
}

/// The first byte of the texts that a choice fits, if it is one pattern that begins with a byte: the choice fits no
/// text with another first byte.
pub fn exact_head(choice: &Choice) -> Option<u64>
    ensures { result ≡ exact_head choice.now }
{
    head_of(only_part(choice.parts())?)
}
