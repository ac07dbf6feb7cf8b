//! The rows of a text, and the places in them.
ghost use Rattle.std.specs.Prelude.{◌≡◌, ◌≤◌, ◌<◌, ◌+◌, IfOk, count_by, drop, length, map, nat_le, slice_index};
ghost use Rattle.std.specs.List.{prefix_len};
ghost use Rattle.std.specs.List.Sorted.{IsNonDecreasing};
ghost use Rattle.lsp_messages.specs.Starts.{ends_row};
ghost use Rattle.lsp_messages.specs.Rows.{is_inside, line_of, offset_of, position_of, row_at, rows_of, start_of};

use crate::counting::{Encoding, fitting, units};
use std::alloc::{AllocError, Global};
use std::marker::Model;
use text_bytes::{begins_with, capped};

/// A place in a text: its row, and how many units of that row precede it, both counted from 0.
#[derive(Clone, Copy, PartialEq, Eq)]
pub struct Position {
    /// The row. A row ends with a newline, with a carriage return, or with both in this order.
    pub line: u32,
    /// How many units of the row precede it.
    pub character: u32,
}

/// A text with the places where its rows begin, for finding positions.
#[derive(Drop)]
pub struct Rows<'t> {
    text: &'t [u8],
    later: Vec<usize>,
}

impl<'t> Model for Rows<'t> {
    ghost use Rattle.std.specs.Prelude.{◌≡◌};
    ghost use Rattle.text_bytes.specs.Text.{Text};
    ghost use Rattle.lsp_messages.specs.Starts.{starts};

    ghost Value = { Text };

    ghost view = { λ r. r.text.now };

    ghost invariant = { λ r. r.later.items ≡ starts r.text.now };
}

/// Whether a row ends after the byte at a place.
pub(crate) fn ends_row(text: &[u8], at: usize) -> bool
    requires { at < length text.now }
    ensures { result ≡ ends_row (slice_index text.now at) (drop (at + 1) text.now) }
{
    let byte = text[at];
    byte == b'\n' || (byte == b'\r' && !begins_with(b'\n', &text[at + 1..]))
}

/// Whether a byte is one of a row, and not of its end.
fn is_inside(byte: u8) -> bool
    ensures { result ≡ is_inside byte }
{
    byte != b'\n' && byte != b'\r'
}

/// How many bytes the row at the front of a text has, without its end.
fn row_len(text: &[u8]) -> usize
    ensures value { result ≡ prefix_len is_inside text.now }
    ensures within { result ≤ length text.now }
{
    text.iter().take_while(|byte| is_inside(**byte)).count()
}

/// The row that begins at a place, without its end.
fn row_from(text: &[u8], start: usize) -> &[u8]
    ensures value { result.now ≡ row_at text.now start }
    ensures within { start ≤ length text.now → start + length result.now ≤ length text.now }
{
    let rest = &text[start.min(text.len())..];
    rest.split_at(row_len(rest)).0
}

/// How many of some rising places are not after another one.
fn line_at(starts: &[usize], offset: usize) -> usize
    requires { IsNonDecreasing starts.now }
    ensures { result ≡ count_by (λ start. nat_le start offset) starts.now }
{
    starts.partition_point(|start| *start <= offset)
}

impl<'t> Rows<'t> {
    /// Finds the rows of a text.
    pub fn new(alloc: Global, text: &'t [u8]) -> Result<Rows<'t>, AllocError>
        ensures { IfOk result (λ rows. rows ≡ text.now) }
    {
        let mut later = Vec::new(alloc);
        for at in 0..text.len() {
            if ends_row(text, at) {
                later.push(at + 1)?;
            }
        }
        Ok(Rows { text, later })
    }

    /// Where a row begins, counted from 0; past the last row the end of the text.
    fn start(&self, line: usize) -> usize
        ensures value { result ≡ start_of self.now line }
        ensures within { result ≤ length self.now }
    {
        if line == 0 {
            return 0;
        }
        match self.later.get(line - 1) {
            Some(start) => *start,
            None => self.text.len(),
        }
    }

    /// A row without its end, counted from 0; empty past the last one.
    pub fn row(&self, line: usize) -> &'t [u8]
        ensures { result.now ≡ row_at self.now (start_of self.now line) }
    {
        row_from(self.text, self.start(line))
    }

    /// All rows, each without its end.
    pub fn all(&self, alloc: Global) -> Result<Vec<&'t [u8]>, AllocError>
        ensures { IfOk result (λ rows. map (λ r. r.now) rows.items ≡ rows_of self.now) }
    {
        let mut rows = Vec::new(alloc);
        rows.push(row_from(self.text, 0))?;
        for start in &self.later {
            rows.push(row_from(self.text, *start))?;
        }
        Ok(rows)
    }

    /// In which row a place is, counted from 0.
    fn line(&self, offset: usize) -> usize
        ensures { result ≡ line_of self.now offset }
    {
        line_at(&self.later, offset)
    }

    /// Where a place is: its row, and how many units of that row precede it; both at most 2^32 - 1. A place in the end of
    /// a row is where that end begins, and one past the text is its end.
    pub fn position(&self, encoding: Encoding, offset: usize) -> Position
        ensures { result ≡ position_of encoding self.now offset }
    {
        let line = self.line(offset);
        let start = self.start(line);
        let row = row_from(self.text, start);
        let before = &row[..row.len().min(offset.saturating_sub(start))];
        Position {
            line: capped(line),
            character: units(encoding, before),
        }
    }

    /// The place that a position names: after the characters of its row that fit into so many units. Past the end of a
    /// row it is where that end begins, and past the last row the end of the text.
    pub(crate) fn offset(&self, encoding: Encoding, position: Position) -> usize
        ensures value { result ≡ offset_of encoding self.now position }
        ensures within { result ≤ length self.now }
    {
        let start = self.start(position.line as usize);
        let row = row_from(self.text, start);
        start + fitting(encoding, position.character, row)
    }
}
