//! The lines of a rules file as they stand, each with the newline that ends it.
ghost use Rattle.std.specs.Prelude.{◌≡◌, ◌≤◌, ◌<◌, ◌+◌, ◌∷◌, length};
ghost use Rattle.rule_places.specs.WholeLines.{continues, ends_joined, given_size, indentation, is_comment, size_of, whole_lines, without_newline, written};

use std::marker::Model;
use text_bytes::{begins_with, ends_in, find, unindented};

/// A line as it stands, with the newline that ends it.
#[derive(Drop)]
pub(crate) struct WholeLine<'a> {
    bytes: &'a [u8],
}

impl<'a> Model for WholeLine<'a> {
    ghost use Rattle.text_bytes.specs.Text.{Text};

    ghost Value = { Text };

    ghost view = { λ l. l.bytes.now };
}

impl<'a> WholeLine<'a> {
    /// All bytes of the line.
    pub(crate) fn bytes(&self) -> &'a [u8]
        ensures { result.now ≡ self.now }
    {
        self.bytes
    }

    /// What is written in the line: neither the blanks at its start nor its newline.
    pub(crate) fn written(&self) -> &'a [u8]
        ensures { result.now ≡ written self.now }
    {
        unindented(without_newline(self.bytes))
    }

    /// How many blanks the line begins with.
    pub(crate) fn indentation(&self) -> usize
        ensures { result ≡ indentation self.now }
    {
        without_newline(self.bytes)
            .len()
            .saturating_sub(self.written().len())
    }

    /// Whether the line is a comment.
    pub(crate) fn is_comment(&self) -> bool
        ensures { result ≡ is_comment self.now }
    {
        begins_with(b'#', self.written())
    }

    /// Whether the line goes on in the next.
    pub(crate) fn continues(&self) -> bool
        ensures { result ≡ continues self.now }
    {
        ends_in(b'\\', self.written())
    }

    /// How many bytes the line gives to its joined line, if it is not a comment.
    pub(crate) fn size(&self) -> usize
        ensures { result ≡ size_of self.now }
    {
        let size = self.written().len();
        if self.continues() {
            size.saturating_sub(1)
        } else {
            size
        }
    }

    /// How many bytes the line gives to its joined line.
    pub(crate) fn given_size(&self) -> usize
        ensures { result ≡ given_size self.now }
    {
        if self.is_comment() { 0 } else { self.size() }
    }

    /// Whether a joined line ends with the line.
    pub(crate) fn ends_joined(&self) -> bool
        ensures { result ≡ ends_joined self.now }
    {
        !self.is_comment() && !self.continues()
    }
}

/// A line without its newline.
fn without_newline(line: &[u8]) -> &[u8]
    ensures { result.now ≡ without_newline line.now }
{
    let (prefix, _) = line.split_at(line.len().saturating_sub(1));
    if ends_in(b'\n', line) { prefix } else { line }
}

/// The lines of a text in turn, each with its newline.
#[derive(Drop)]
pub(crate) struct WholeLines<'a> {
    rest: &'a [u8],
}

impl<'a> Model for WholeLines<'a> {
    ghost use Rattle.std.specs.Prelude.{List};
    ghost use Rattle.text_bytes.specs.Text.{Text};
    ghost use Rattle.rule_places.specs.WholeLines.{whole_lines};

    ghost Value = { List Text };

    ghost view = { λ s. whole_lines s.rest.now };
}

impl<'a> WholeLines<'a> {
    /// The lines of a text.
    pub(crate) fn new(text: &'a [u8]) -> WholeLines<'a>
        ensures { result ≡ whole_lines text.now }
    {
        WholeLines { rest: text }
    }
}

impl<'a> Iterator for WholeLines<'a> {
    type Item = WholeLine<'a>;

    ghost use Rattle.std.specs.Iterator.{YieldsFirst, item_count};

    ghost next_gives = { YieldsFirst (λ items. items) };

    ghost remaining = { item_count (λ items. items) };

    fn next(&mut self) -> Option<WholeLine<'a>> {
        if self.rest.is_empty() {
            return None;
        }
        let (bytes, rest) = first_whole_line(self.rest);
        self.rest = rest;
        Some(WholeLine { bytes })
    }
}

/// The first line of a text that is not empty, with its newline, and what follows.
fn first_whole_line(text: &[u8]) -> (&[u8], &[u8])
    requires { 0 < length text.now }
    ensures { whole_lines text.now ≡ result.0.now ∷ whole_lines result.1.now }
{
    match find(b'\n', text) {
        None => (text, &[]),
        Some(at) => (&text[..at + 1], &text[at + 1..]),
    }
}
