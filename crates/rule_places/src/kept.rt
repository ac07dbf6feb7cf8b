//! The lines of a file that are kept, with where they are in the file and among the joined bytes.
ghost use Rattle.std.specs.Prelude.{◌≡◌, IfOk, length, nat_le, slice_get};
ghost use Rattle.std.specs.List.{prefix_len};
ghost use Rattle.std.specs.List.Sorted.{IsNonDecreasingBy};
ghost use Rattle.rule_core.specs.Lines.{piece_of};
ghost use Rattle.rule_places.specs.Kept.{kept_line, kept_lines, line_at, place_at, place_in, place_of_backslash};

use rule_core::sum_of;
use std::alloc::{AllocError, Global};
use std::marker::Model;
use text_bytes::{Line, Lines, begins_with, capped, ends_in, unindented};

/// A line that is kept.
#[derive(Clone, Copy)]
pub struct KeptLine {
    /// Its number in the file, counted from 1.
    pub number: usize,
    /// The column of its first byte that is not a blank, counted from 1.
    pub column: usize,
    /// How many bytes of kept lines come before its own.
    pub start: usize,
    /// How many bytes it gives to a joined line.
    pub size: usize,
}

/// A part of a line of a file.
#[derive(Clone, Copy)]
pub(crate) struct Place {
    /// The line's number.
    pub line: u32,
    /// The column of the part's first byte.
    pub column: u32,
    /// The column after its last byte.
    pub end: u32,
}

/// The kept lines of a file, in order.
#[derive(Drop)]
pub struct KeptLines {
    lines: Vec<KeptLine>,
}

impl Model for KeptLines {
    ghost use Rattle.std.specs.Prelude.{List};
    ghost use Rattle.std.specs.List.Sorted.{IsNonDecreasingBy};
    ghost use Rattle.rule_places.specs.declared.kept.KeptLine as line;

    ghost Value = { List line.KeptLine };

    ghost view = { λ k. k.lines.items };

    ghost invariant = { λ k. IsNonDecreasingBy (λ l. l.start) k.lines.items };
}

impl KeptLines {
    /// The kept lines of a file with these bytes.
    pub fn of(alloc: Global, bytes: &[u8]) -> Result<KeptLines, AllocError>
        ensures { IfOk result (λ kept. kept ≡ kept_lines bytes.now) }
    {
        let lines = kept_lines(alloc, bytes)?;
        Ok(KeptLines { lines })
    }

    /// Where so many bytes are, from a place among the bytes of kept lines on, as far as they are in one line.
    pub(crate) fn place_in(&self, at: usize, size: usize) -> Place
        ensures { result ≡ place_in self.now at size }
    {
        match self.line_at(at) {
            Some(line) => {
                let past = at.saturating_sub(line.start);
                place_at(line, past, size.min(line.size.saturating_sub(past)))
            }
            None => FILE_START,
        }
    }

    /// The line that a byte is in: the last that begins at it or before it.
    fn line_at(&self, at: usize) -> Option<KeptLine>
        ensures { result ≡ line_at self.now at }
    {
        line_of(&self.lines, begun_at(&self.lines, at).saturating_sub(1))
    }

    /// Where the backslash at the end of the last line is.
    pub(crate) fn place_of_backslash(&self) -> Place
        ensures { result ≡ place_of_backslash self.now }
    {
        match self.lines.last() {
            Some(line) => place_at(*line, line.size, 1),
            None => FILE_START,
        }
    }
}

/// How many lines begin at a place or before it.
fn begun_at(lines: &[KeptLine], at: usize) -> usize
    requires { IsNonDecreasingBy (λ l. l.start) lines.now }
    ensures { result ≡ prefix_len (λ l. nat_le l.start at) lines.now }
{
    lines.partition_point(|line| line.start <= at)
}

/// The line of this place among others, if there is one.
fn line_of(lines: &[KeptLine], place: usize) -> Option<KeptLine>
    ensures { result ≡ slice_get lines.now place }
{
    lines.get(place).copied()
}

/// The start of a file.
pub(crate) const FILE_START: Place = Place {
    line: 1,
    column: 1,
    end: 1,
};

/// The place of so many bytes of a line, after so many of those that it gives to a joined line.
#[tactic(auto, using(crate::proofs::Capping::capped_sum, crate::proofs::Capping::capped_sums))]
fn place_at(line: KeptLine, past: usize, shown: usize) -> Place
    ensures { result ≡ place_at line past shown }
{
    let column = line.column.saturating_add(past);
    Place {
        line: capped(line.number),
        column: capped(column),
        end: capped(column.saturating_add(shown)),
    }
}

/// The kept lines of a file.
fn kept_lines(alloc: Global, bytes: &[u8]) -> Result<Vec<KeptLine>, AllocError>
    ensures { IfOk result (λ lines. lines.items ≡ kept_lines bytes.now) }
{
    let mut lines = Vec::new(alloc);
    let mut start = 0;
    for line in Lines::new(bytes) {
        if let Some(kept) = kept_line(start, &line) {
            start = sum_of(start, kept.size)?;
            lines.push(kept)?;
        }
    }
    Ok(lines)
}

/// A line as a kept one after so many bytes of others, unless it is a comment.
fn kept_line(start: usize, line: &Line<'_>) -> Option<KeptLine>
    ensures { result ≡ kept_line start line.now }
{
    let text = line.text();
    let written = unindented(text);
    if begins_with(b'#', written) {
        None
    } else {
        Some(KeptLine {
            number: line.number(),
            column: text.len().saturating_sub(written.len()) + 1,
            start,
            size: kept_size(line.number(), written),
        })
    }
}

/// How many bytes a line without blanks at its start gives to a joined line.
fn kept_size(number: usize, text: &[u8]) -> usize
    ensures { result ≡ length (piece_of (record { number = number; text = text.now })).text }
{
    let (prefix, _) = text.split_at(text.len().saturating_sub(1));
    if ends_in(b'\\', text) {
        prefix.len()
    } else {
        text.len()
    }
}
