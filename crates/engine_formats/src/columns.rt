//! Columns of places, counted in characters.
//!
//! A line may have many places, most of them after one another, so the characters of a line are counted on from the last place.
ghost use Rattle.std.specs.Prelude.{◌≡◌, []};
ghost use Rattle.engine_formats.specs.Sarif.{before_column, begun_in, character_column};

use crate::marks::{continues, prefix};
use std::marker::Model;
use text_bytes::capped;

/// What is before the last place in its line, and how many characters begin in that.
#[derive(Drop)]
pub(crate) struct Counted<'a> {
    before: &'a [u8],
    begun: usize,
}

impl<'a> Model for Counted<'a> {
    ghost use Rattle.std.specs.Prelude.{◌≡◌};
    ghost use Rattle.text_bytes.specs.Text.{Text};
    ghost use Rattle.engine_formats.specs.Sarif.{begun_in};

    ghost Value = { Text };

    ghost view = { λ c. c.before.now };

    ghost invariant = { λ c. c.begun ≡ begun_in c.before.now };
}

impl<'a> Counted<'a> {
    /// No place so far.
    pub(crate) fn new() -> Counted<'a>
        ensures { result ≡ [] }
    {
        Counted {
            before: b"",
            begun: 0,
        }
    }

    /// Goes on to the place at a column of a line, and counts its column in characters.
    pub(crate) fn move_to(&mut self, source: &'a [u8], column: u32) -> u32
        ensures column { result ≡ character_column source.now column }
        ensures place { self.new ≡ before_column source.now column }
    {
        let before = before_column(source, column);
        self.begun = self.begun_in(before);
        self.before = before;
        capped(self.begun.saturating_add(1))
    }

    /// A column of a line, counted in characters from 1, by the one that is counted in bytes.
    pub(crate) fn character_column(&self, source: &[u8], column: u32) -> u32
        ensures { result ≡ character_column source.now column }
    {
        capped(
            self.begun_in(before_column(source, column))
                .saturating_add(1),
        )
    }

    /// How many characters begin in a text. Those before the last place are not counted again if the text begins with these.
    fn begun_in(&self, text: &[u8]) -> usize
        ensures { result ≡ begun_in text.now }
    {
        match text.strip_prefix(self.before) {
            Some(rest) => self.begun + begun_in(rest),
            None => begun_in(text),
        }
    }
}

/// What is before a column of a line, counted in bytes from 1.
fn before_column(source: &[u8], column: u32) -> &[u8]
    ensures { result.now ≡ before_column source.now column }
{
    prefix(source, (column as usize).saturating_sub(1))
}

/// How many characters begin in a text.
fn begun_in(text: &[u8]) -> usize
    ensures { result ≡ begun_in text.now }
{
    text.iter().filter(|byte| !continues(**byte)).count()
}
