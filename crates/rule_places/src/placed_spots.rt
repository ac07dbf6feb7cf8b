//! What is reported about parts of lines, for their file.
ghost use Rattle.std.specs.Prelude.{◌≡◌, ◌++◌, IfOk, OnOk, map};
ghost use Rattle.rule_places.specs.Placed.{placed};

use crate::kept::KeptLines;
use crate::placed_finding::PlacedFinding;
use rule_core::{Spot, sum_of};
use std::alloc::AllocError;

/// Adds what is reported about parts of a joined line, which follows so many bytes of other joined lines, with its
/// places in the file and with the number with which the line is reported.
pub fn place_spots<K: Drop>(
    found: &mut Vec<PlacedFinding<K>>,
    kept: &KeptLines,
    number: u32,
    start: usize,
    spots: Vec<Spot<K>>,
) -> Result<(), AllocError>
    ensures { OnOk result (found.new.items ≡ found.old.items ++ map (placed kept.now number start) spots.items) }
{
    for spot in spots {
        found.push(placed(kept, number, start, spot)?)?;
    }
    Ok(())
}

/// What is reported about a part of a line, with its place in the file.
pub(crate) fn placed<K: Drop>(
    kept: &KeptLines,
    number: u32,
    start: usize,
    spot: Spot<K>,
) -> Result<PlacedFinding<K>, AllocError>
    ensures { IfOk result (λ found. found ≡ placed kept.now number start spot) }
{
    let Spot {
        kind,
        word,
        start: from,
        size,
    } = spot;
    let place = kept.place_in(sum_of(start, from)?, size);
    Ok(PlacedFinding {
        begins: number,
        line: place.line,
        column: place.column,
        end: place.end,
        kind,
        word,
    })
}
