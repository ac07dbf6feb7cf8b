//! The lines of a text, with their numbers.
ghost use Rattle.std.specs.Prelude.{◌≡◌, ◌<◌, ◌∷◌, length};
ghost use Rattle.text_bytes.specs.Lines.{lines, numbered_lines};

use crate::search::find;
use std::marker::Model;

/// A line of a text, borrowed from it.
#[derive(Drop)]
pub struct Line<'a> {
    number: usize,
    text: &'a [u8],
}

impl<'a> Model for Line<'a> {
    ghost use Rattle.text_bytes.specs.Lines.{NumberedLine};

    ghost Value = { NumberedLine };

    ghost view = { λ l. record { number = l.number; text = l.text.now } };
}

impl<'a> Line<'a> {
    /// The line's number in its text, counted from 1.
    pub fn number(&self) -> usize
        ensures { result ≡ self.now.number }
    {
        self.number
    }

    /// The line's bytes, without the newline.
    pub fn text(&self) -> &'a [u8]
        ensures { result.now ≡ self.now.text }
    {
        self.text
    }

    /// A line of the same number with other bytes, such as what is left of this one.
    pub fn with_text(&self, text: &'a [u8]) -> Line<'a>
        ensures { result ≡ record { number = self.now.number; text = text.now } }
    {
        Line {
            number: self.number,
            text,
        }
    }
}

/// The lines of a text in turn, each with its number.
#[derive(Drop)]
pub struct Lines<'a> {
    rest: &'a [u8],
    next_number: usize,
}

impl<'a> Model for Lines<'a> {
    ghost use Rattle.std.specs.Prelude.{◌+◌, ◌<◌, ◌^◌, List, length};
    ghost use Rattle.text_bytes.specs.Lines.{NumberedLine, lines, numbered_from};

    ghost Value = { List NumberedLine };

    ghost view = { λ s. numbered_from s.next_number (lines s.rest.now) };

    ghost invariant = { λ s. s.next_number + length s.rest.now < 2 ^ 64 };
}

impl<'a> Lines<'a> {
    /// The lines of a text. A newline ends a line, and the last line may lack it.
    pub fn new(text: &'a [u8]) -> Lines<'a>
        ensures { result ≡ numbered_lines text.now }
    {
        Lines {
            rest: text,
            next_number: 1,
        }
    }
}

impl<'a> Iterator for Lines<'a> {
    type Item = Line<'a>;

    ghost use Rattle.std.specs.Iterator.{YieldsFirst, item_count};

    ghost next_gives = { YieldsFirst (λ items. items) };

    ghost remaining = { item_count (λ items. items) };

    fn next(&mut self) -> Option<Line<'a>> {
        if self.rest.is_empty() {
            return None;
        }
        let (text, rest) = first_line(self.rest);
        let number = self.next_number;
        self.next_number += 1;
        self.rest = rest;
        Some(Line { number, text })
    }
}

/// The first line of a text that is not empty, and what follows its newline.
pub fn first_line(text: &[u8]) -> (&[u8], &[u8])
    requires { 0 < length text.now }
    ensures value { lines text.now ≡ result.0.now ∷ lines result.1.now }
    ensures shorter { length result.1.now < length text.now }
{
    match find(b'\n', text) {
        None => (text, &[]),
        Some(at) => (&text[..at], &text[at + 1..]),
    }
}
