//! How the labels of nodes are written.
ghost use Rattle.std.specs.Prelude.{◌≡◌};
ghost use Rattle.text_core.specs.declared.item.Item.TheVariants.{Among};
ghost use Rattle.trie_build.specs.Distinct.{IsIn};
ghost use Rattle.text_core.specs.declared.byte_set.ByteSet.{ByteSet};
ghost use Rattle.trie_build.specs.Image.{label_byte, label_kind, label_set};
ghost use Rattle.trie_build.specs.Content.{shown};
ghost use Rattle.trie_build.specs.Writing.{AreTexts};

use crate::kinds::{AMONG, BYTE, MANY, ONE};
use crate::texts::number_of;
use text_core::Item;

/// The kind of a node that a label leads to.
pub(crate) fn kind_of(label: &Item) -> u8
    ensures { result ≡ label_kind label.now }
{
    match label {
        Item::Byte(_) => BYTE,
        Item::One => ONE,
        Item::Many => MANY,
        Item::Among(_) => AMONG,
    }
}

/// The byte of a label; 0 if it has none.
pub(crate) fn byte_of(label: &Item) -> u8
    ensures { result ≡ label_byte label.now }
{
    match label {
        Item::Byte(byte) => *byte,
        _ => 0,
    }
}

/// The number of a label's set among the sets; 0 if it has none.
pub(crate) fn set_of(sets: &[&[u8]], label: &Item) -> u32
    requires sets { AreTexts (shown sets.now) }
    requires there { (set : ByteSet) → label.now ≡ Among set → IsIn set.bits (shown sets.now) }
    ensures { result ≡ label_set (shown sets.now) label.now }
{
    match label {
        Item::Among(set) => number_of(sets, &set.bits),
        _ => 0,
    }
}
