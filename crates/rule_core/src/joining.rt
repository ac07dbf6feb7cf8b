//! Joining the lines of a rules file, as udev(7) says: a line that ends in a backslash is continued
//! by the next, and comments are skipped wherever they are.
//!
//! A continued line is reported with the number of its first line, and for udev with that of its last.
ghost use Rattle.std.specs.Prelude.{◌≡◌, ◌++◌, IfOk, OnOk, length};
ghost use Rattle.std.specs.Cow.{cow_slice_items};
ghost use Rattle.rule_core.specs.Lines.{joined_lines, lines};
ghost use Rattle.rule_core.specs.Steps.{after, ended, number_of_both};

use crate::joined::{JoinedLine, JoinedLines};
use crate::pieces::{Piece, piece_of};
use std::alloc::{AllocError, Global};
use std::borrow::CowSlice;
use std::marker::Model;
use text_bytes::{Lines, Profile, begins_with, capped, unindented};

/// A joined line of which all lines so far end in a backslash.
#[derive(Drop)]
struct OpenLine<'a> {
    number: usize,
    text: CowSlice<'a, u8, Global>,
}

impl<'a> Model for OpenLine<'a> {
    ghost use Rattle.std.specs.Prelude.{true};
    ghost use Rattle.std.specs.Cow.{cow_slice_items};
    ghost use Rattle.rule_core.specs.Lines.{Piece};

    ghost Value = { Piece };

    ghost view = { λ o. record { number = o.number; text = cow_slice_items o.text; continues = true } };
}

/// What the lines so far have given.
#[derive(Drop)]
struct Joining<'a> {
    lines: Vec<JoinedLine<'a>>,
    pending: Option<OpenLine<'a>>,
}

impl<'a> Model for Joining<'a> {
    ghost use Rattle.rule_core.specs.Steps.{SoFar};

    ghost Value = { SoFar };

    ghost view = { λ j. record { lines = j.lines.items; pending = j.pending } };
}

impl<'a> Joining<'a> {
    /// Takes what the next kept line gives.
    fn take(&mut self, alloc: Global, profile: Profile, piece: &Piece<'a>) -> Result<(), AllocError>
        ensures { OnOk result (self.new ≡ after profile self.old piece.now) }
    {
        let (number, text) = match self.pending.take() {
            None => (piece.number, CowSlice::Borrowed(piece.text)),
            Some(begun) => (
                number_of_both(profile, begun.number, piece.number),
                continued(alloc, begun.text, piece.text)?,
            ),
        };
        if piece.continues {
            self.pending = Some(OpenLine { number, text });
        } else if !text.as_slice().is_empty() {
            let number = capped(number);
            self.lines.push(JoinedLine { number, text })?;
        }
        Ok(())
    }

    /// The joined lines of a file, once no line follows.
    fn ended(self, profile: Profile, bytes: &[u8]) -> JoinedLines<'a>
        ensures { result ≡ ended profile (length (lines bytes.now)) self.entry }
    {
        let open_at = match &self.pending {
            None => None,
            Some(begun) => {
                let number = number_of_both(profile, begun.number, line_count(bytes));
                Some(capped(number))
            }
        };
        JoinedLines {
            lines: self.lines,
            open_at,
        }
    }
}

/// A text with more bytes after it.
fn continued<'a>(
    alloc: Global,
    text: CowSlice<'a, u8, Global>,
    more: &[u8],
) -> Result<CowSlice<'a, u8, Global>, AllocError>
    ensures { IfOk result (λ t. cow_slice_items t ≡ cow_slice_items text.entry ++ more.now) }
{
    let mut bytes = match text {
        CowSlice::Borrowed(bytes) => Vec::from_slice(alloc, bytes)?,
        CowSlice::Owned(bytes) => bytes,
    };
    bytes.extend_from_slice(more)?;
    Ok(CowSlice::Owned(bytes))
}

/// The number with which two lines in a row are reported together, or one that is open at the end of its file and the
/// last line of the file.
fn number_of_both(profile: Profile, earlier: usize, later: usize) -> usize
    ensures { result ≡ number_of_both profile earlier later }
{
    match profile {
        Profile::Manual => earlier,
        Profile::Udev => later,
    }
}

/// How many lines a file has.
fn line_count(bytes: &[u8]) -> usize
    ensures { result ≡ length (lines bytes.now) }
{
    let mut count = 0;
    for line in Lines::new(bytes) {
        count = line.number();
    }
    count
}

/// Joins the lines of a rules file, as udev(7) says. Lines are cut at newlines, and the last need
/// not have one. The spaces and tabs at the start of a line are skipped. A line that then begins
/// with `#` is a comment: it is skipped whatever it ends in, and neither ends nor continues the
/// line around it. A line that ends in `\` loses it and is joined with the next line that is kept.
/// What is then empty is dropped.
///
/// A line that no other continues borrows the file's bytes.
pub fn joined_lines<'a>(
    alloc: Global,
    profile: Profile,
    bytes: &'a [u8],
) -> Result<JoinedLines<'a>, AllocError>
    ensures { IfOk result (λ joined. joined ≡ joined_lines profile bytes.now) }
{
    let mut joining = Joining {
        lines: Vec::new(alloc),
        pending: None,
    };
    for line in Lines::new(bytes) {
        let line = line.with_text(unindented(line.text()));
        if !begins_with(b'#', line.text()) {
            joining.take(alloc, profile, &piece_of(&line))?;
        }
    }
    Ok(joining.ended(profile, bytes))
}
