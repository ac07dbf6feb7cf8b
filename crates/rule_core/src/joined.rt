//! The joined lines of a file, as they are given to a caller.
ghost use Rattle.std.specs.Prelude.{◌≡◌};

use std::alloc::Global;
use std::borrow::CowSlice;
use std::marker::Model;

/// A joined line of a rules file: the text of a rule, which may borrow the file.
#[derive(Drop)]
pub struct JoinedLine<'a> {
    pub(crate) number: u32,
    pub(crate) text: CowSlice<'a, u8, Global>,
}

impl<'a> Model for JoinedLine<'a> {
    ghost use Rattle.std.specs.Cow.{cow_slice_items};
    ghost use Rattle.rule_core.specs.Lines.{NumberedLine};

    ghost Value = { NumberedLine };

    ghost view = { λ l. record { number = l.number; text = cow_slice_items l.text } };
}

impl<'a> JoinedLine<'a> {
    /// The number of the first line of the file that is part of this one, or for udev of the last, counted from 1
    /// and at most 2^32 - 1. A comment before or after it is not part of it.
    pub fn number(&self) -> u32
        ensures { result ≡ self.now.number }
    {
        self.number
    }

    /// The joined bytes, without the backslashes that continue a line. They are never empty.
    pub fn text(&self) -> &[u8]
        ensures { result.now ≡ self.now.text }
    {
        self.text.as_slice()
    }
}

/// The joined lines of a rules file.
#[derive(Drop)]
pub struct JoinedLines<'a> {
    pub(crate) lines: Vec<JoinedLine<'a>>,
    pub(crate) open_at: Option<u32>,
}

impl<'a> Model for JoinedLines<'a> {
    ghost use Rattle.rule_core.specs.Lines.{Joined};

    ghost Value = { Joined };

    ghost view = { λ j. record { lines = j.lines.items; open_at = j.open_at } };
}

impl<'a> JoinedLines<'a> {
    /// The joined lines that are not empty, in the order of the file.
    pub fn lines(&self) -> &[JoinedLine<'a>]
        ensures { result.now ≡ self.now.lines }
    {
        &self.lines
    }

    /// The number of the first line of a joined line that is still open at the end of the file, since the last line
    /// that is kept ends in a backslash. For udev it is the number of the file's last line. Such a line is not a
    /// rule. The number is given even if there is nothing but backslashes in the line.
    pub fn open_at(&self) -> Option<u32>
        ensures { result ≡ self.now.open_at }
    {
        self.open_at
    }
}
