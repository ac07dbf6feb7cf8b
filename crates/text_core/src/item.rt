//! The items of a pattern.
//!
//! An item owns no memory, so that a pattern is one block, however many sets it has.
ghost use Rattle.std.specs.Prelude.{◌≡◌};
ghost use Rattle.text_core.specs.Items.{takes};

use crate::byte_set::ByteSet;
use crate::glob::AsItem;

/// One item of a pattern, as hwdb(7) and udev(7) name them.
#[derive(Clone, Copy, PartialEq, Eq)]
pub enum Item {
    /// A byte that stands for itself.
    Byte(u8),
    /// `?`: any one byte.
    One,
    /// `*`: any number of bytes, also none.
    Many,
    /// `[...]`: one byte of a set.
    Among(ByteSet),
}

impl Item {
    /// Whether the item takes this one byte; false of `Many`, which is not an item of one byte.
    pub fn takes(&self, byte: u8) -> bool
        ensures { result ≡ takes self.now byte }
    {
        match self {
            Item::Byte(own) => *own == byte,
            Item::One => true,
            Item::Many => false,
            Item::Among(set) => set.has(byte),
        }
    }
}

impl AsItem for Item {
    ghost item = { λ x. x };

    fn is_many(&self) -> bool {
        matches!(self, Item::Many)
    }

    fn takes(&self, byte: u8) -> bool {
        self.takes(byte)
    }
}
