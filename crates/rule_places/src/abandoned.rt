//! A file that is given up because of a line that is too long.
ghost use Rattle.std.specs.Prelude.{◌≡◌, IfOk};
ghost use Rattle.text_bytes.specs.Lines.{numbered_lines};
ghost use Rattle.rule_places.specs.Abandoned.{abandoned_findings, long_place, whole_line};

use crate::kept::{FILE_START, Place};
use crate::placed_finding::PlacedFinding;
use file_messages::MessageKind;
use rule_core::is_too_long;
use std::alloc::{AllocError, Global};
use text_bytes::{Bytes, Line, Lines, capped};

/// What is found in a file that is given up because of the line with a number: only this, about the whole line.
pub fn abandoned_findings(
    alloc: Global,
    bytes: &[u8],
    number: u32,
) -> Result<Vec<PlacedFinding<MessageKind>>, AllocError>
    ensures { IfOk result (λ found. found.items ≡ abandoned_findings bytes.now number) }
{
    let place = long_place(bytes);
    let mut found = Vec::new(alloc);
    found.push(PlacedFinding {
        begins: number,
        line: place.line,
        column: place.column,
        end: place.end,
        kind: MessageKind::FileAbandoned,
        word: Bytes::new(Vec::new(alloc)),
    })?;
    Ok(found)
}

/// The first line that is too long, or the start of the file if there is none.
fn long_place(bytes: &[u8]) -> Place
    ensures { result ≡ long_place (numbered_lines bytes.now) }
{
    for line in Lines::new(bytes) {
        if is_too_long(line.text()) {
            return whole_line(&line);
        }
    }
    FILE_START
}

/// A line of a file as a whole.
fn whole_line(line: &Line<'_>) -> Place
    ensures { result ≡ whole_line line.now }
{
    Place {
        line: capped(line.number()),
        column: 1,
        end: capped(line.text().len() + 1),
    }
}
