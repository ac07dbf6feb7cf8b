//! All findings of a file, with their places.
ghost use Rattle.std.specs.Prelude.{◌≡◌, ◌+◌, ◌∷◌, ◌++◌, [], if◌then◌else◌, IfOk, OnOk, length, map};
ghost use Rattle.rule_core.specs.Rules.{findings_of, name_spot};
ghost use Rattle.rule_places.specs.Files.{open_findings, placed_from, placed_line, placed_lines};
ghost use Rattle.rule_places.specs.Placed.{placed};

use crate::kept::KeptLines;
use crate::placed_finding::PlacedFinding;
use crate::placed_spots::place_spots;
use file_messages::MessageKind;
use rule_core::{LandedReading, line_findings, sum_of};
use std::alloc::{AllocError, Global};
use text_bytes::Bytes;

/// The findings of all lines of a file that were read, and of the one that is still open at its end, in the order of
/// its messages, each with the physical line, the columns and the whole text that it is about. The kept lines are
/// those of the same file.
///
/// Places, by code: for V1 all from the fault to the rule's end; for V10 the letters; for V2, V3, V4, V24, S1, S2,
/// S3 and S6 the key of the token, or for S1 the gap after the last token; for V13 the attribute between its
/// braces; for V5, V6, V11, V14 and V15 the value between its quotes, for V8 that of the name that does not count,
/// for V7 that of the GOTO and for S4 that of the LABEL that counts; for S5 the gap before the first token; for V9
/// and V18 the whole rule; for V12 the backslash at the end of the last line. A place in several physical lines is
/// reported as far as it is in the first of them. The number of a line or a column is at most 2^32 - 1.
pub fn placed_lines(
    alloc: Global,
    kept: &KeptLines,
    lines: Vec<LandedReading<'_>>,
    open_at: Option<u32>,
) -> Result<Vec<PlacedFinding<MessageKind>>, AllocError>
    ensures { IfOk result (λ found. found.items ≡ placed_lines kept.now lines.entry.items open_at) }
{
    let mut found = place_lines(alloc, kept, lines)?;
    place_open(alloc, &mut found, kept, open_at)?;
    Ok(found)
}

/// The findings of lines.
fn place_lines(
    alloc: Global,
    kept: &KeptLines,
    lines: Vec<LandedReading<'_>>,
) -> Result<Vec<PlacedFinding<MessageKind>>, AllocError>
    ensures { IfOk result (λ found. found.items ≡ placed_from kept.now 0 lines.entry.items) }
{
    let mut found = Vec::new(alloc);
    let mut start = 0;
    for line in lines {
        start = place_line(alloc, &mut found, kept, start, line)?;
    }
    Ok(found)
}

/// Adds the findings of a line that follows so many bytes of other joined lines, and returns how many bytes come
/// before the next line.
fn place_line(
    alloc: Global,
    found: &mut Vec<PlacedFinding<MessageKind>>,
    kept: &KeptLines,
    start: usize,
    line: LandedReading<'_>,
) -> Result<usize, AllocError>
    ensures found { OnOk result (found.new.items ≡ found.old.items ++ placed_line kept.now start line.entry) }
    ensures next { IfOk result (λ next. next ≡ start + length line.entry.0.text) }
{
    let number = line.reading.line;
    let next = sum_of(start, line.reading.text.len())?;
    place_spots(found, kept, number, start, line_findings(alloc, line)?)?;
    Ok(next)
}

/// Adds the finding of a line that is still open at the file's end, if there is one.
fn place_open(
    alloc: Global,
    found: &mut Vec<PlacedFinding<MessageKind>>,
    kept: &KeptLines,
    open_at: Option<u32>,
) -> Result<(), AllocError>
    ensures { OnOk result (found.new.items ≡ found.old.items ++ open_findings kept.now open_at) }
{
    if let Some(number) = open_at {
        let place = kept.place_of_backslash();
        found.push(PlacedFinding {
            begins: number,
            line: place.line,
            column: place.column,
            end: place.end,
            kind: MessageKind::OpenAtEnd,
            word: Bytes::new(Vec::new(alloc)),
        })?;
    }
    Ok(())
}
