//! Where messages about a database are in their file.
ghost use Rattle.std.specs.Prelude.{◌≡◌, ◌≤◌, length, IfOk};
ghost use Rattle.text_bytes.specs.Lines.{numbered_lines};
ghost use Rattle.engine_formats.specs.Placing.{is_about_property, line_numbered, place_in, placed, reported_text, shown_place};

use file_messages::{Message, MessageKind};
use std::alloc::{AllocError, Global};
use text_bytes::{Line, Lines, capped, trimmed, unindented, up_to};

/// Where a message about a database is in its line.
///
/// Columns are counted from 1, in bytes.
#[derive(Clone, Copy, PartialEq, Eq)]
pub struct TextPlace<'a> {
    /// The line, without its newline.
    pub source: &'a [u8],
    /// The column that the text begins at.
    pub column: u32,
    /// The column after its last byte.
    pub end: u32,
    /// The whole text that the message is about.
    pub word: &'a [u8],
}

/// The lines of a file, in which its messages are placed.
pub fn file_lines(alloc: Global, bytes: &[u8]) -> Result<Vec<Line<'_>>, AllocError>
    ensures { IfOk result (λ lines. lines.items ≡ numbered_lines bytes.now) }
{
    Lines::new(bytes).collect(alloc)
}

/// The text of a line by its number, counted from 1; empty if there is no such line.
pub fn line_numbered<'a>(lines: &[Line<'a>], number: u32) -> &'a [u8]
    ensures { result.now ≡ line_numbered lines.now number }
{
    match lines.get((number as usize).saturating_sub(1)) {
        Some(line) => line.text(),
        None => b"",
    }
}

/// Where a message about a database is in its file, whose lines are given.
///
/// The line is read as the database is: its comment, and the whitespace before that, are not part of the place. For
/// a property the place begins after the leading blanks.
pub fn placed_message<'a>(lines: &[Line<'a>], message: &Message) -> TextPlace<'a>
    ensures { shown_place result ≡ placed lines.now message.now }
{
    place_in(line_numbered(lines, message.line), message.kind)
}

/// Where a message of a kind is in a line.
fn place_in(source: &[u8], kind: MessageKind) -> TextPlace<'_>
    ensures { shown_place result ≡ place_in source.now kind }
{
    let clean = trimmed(up_to(b'#', source));
    let word = reported_text(clean, kind);
    TextPlace {
        source,
        column: capped(clean.len() - word.len() + 1),
        end: capped(clean.len() + 1),
        word,
    }
}

/// The text of a clean line that a message of a kind is about.
fn reported_text(clean: &[u8], kind: MessageKind) -> &[u8]
    ensures text { result.now ≡ reported_text clean.now kind }
    ensures within { length result.now ≤ length clean.now }
{
    if is_about_property(kind) {
        unindented(clean)
    } else {
        clean
    }
}

/// Whether messages of a kind are about a property, which follows blanks.
fn is_about_property(kind: MessageKind) -> bool
    ensures { result ≡ is_about_property kind }
{
    match kind {
        MessageKind::PropertyWithoutMatch | MessageKind::NoEquals | MessageKind::EmptyKey => true,
        _ => false,
    }
}
