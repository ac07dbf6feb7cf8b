//! A fault with its place.
ghost use Rattle.std.specs.Prelude.{◌≡◌, ◌∷◌, ◌++◌, [], OnOk};
ghost use Rattle.link_files.specs.Faults.{bad_line, placed, start_of};

use crate::fault::LinkFault;
use crate::joined::JoinedLine;
use crate::lines::{from_start, stripped};
use std::alloc::{AllocError, Global};
use text_bytes::{Bytes, capped};

/// What is reported for a `.link` file, and where.
#[derive(Drop)]
pub struct PlacedFault {
    /// The number of the line, counted from 1; of a line that goes on, that of the first.
    pub line: u32,
    /// The byte of the line at which the place begins, counted from 1.
    pub column: u32,
    /// The column after the last byte of the place in this line.
    pub end: u32,
    /// What is reported.
    pub fault: LinkFault,
    /// The text at the place, whole; empty for a file as a whole.
    pub word: Bytes,
}

/// Adds a fault of a word of a line, before which so many bytes come.
pub(crate) fn add(
    alloc: Global,
    found: &mut Vec<PlacedFault>,
    line: &JoinedLine,
    fault: LinkFault,
    start: usize,
    word: &[u8],
) -> Result<(), AllocError>
    ensures { OnOk result (found.new.items ≡ found.old.items ++ placed line.now fault start word.now ∷ []) }
{
    let width = line.width;
    found.push(PlacedFault {
        line: capped(line.number),
        column: capped(start.min(width).saturating_add(1)),
        end: capped(
            start
                .saturating_add(word.len())
                .min(width)
                .saturating_add(1),
        ),
        fault,
        word: Bytes::copy_of(alloc, word)?,
    })?;
    Ok(())
}

/// How many blanks a line begins with.
pub(crate) fn start_of(line: &JoinedLine) -> usize
    ensures { result ≡ start_of line.now }
{
    let text = line.text.as_slice();
    text.len().saturating_sub(from_start(text).len())
}

/// Adds a line that is nothing that a file may have.
pub(crate) fn add_bad_line(
    alloc: Global,
    found: &mut Vec<PlacedFault>,
    line: &JoinedLine,
) -> Result<(), AllocError>
    ensures { OnOk result (found.new.items ≡ found.old.items ++ bad_line line.now) }
{
    let start = start_of(line);
    add(
        alloc,
        found,
        line,
        LinkFault::BadLine,
        start,
        stripped(&line.text),
    )
}
