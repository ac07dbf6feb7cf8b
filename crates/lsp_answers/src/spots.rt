//! Places in the rows of a document.
ghost use Rattle.std.specs.Prelude.{◌≡◌, ◌++◌, IfOk, OnOk, take};
ghost use Rattle.json.specs.Tree.{json_tokens};
ghost use Rattle.lsp_answers.specs.Spots.{position_in, row_range, spot_at};

use json::Writer;
use lsp_messages::{Encoding, Position, Rows, fitting, units, write_range};
use std::alloc::{AllocError, Global};
use std::marker::Model;

/// A place in a row.
#[derive(Drop)]
pub(crate) struct Spot<'t> {
    /// The number of the row.
    pub(crate) line: u32,
    /// The row without its end.
    pub(crate) row: &'t [u8],
    /// The place, in bytes from the row's start.
    pub(crate) at: usize,
}

impl<'t> Model for Spot<'t> {
    ghost use Rattle.lsp_answers.specs.Spots as spots;

    ghost Value = { spots.Spot };

    ghost view = { λ s. record { line = s.line; row = s.row.now; at = s.at } };
}

/// The row and the place that a position names.
pub(crate) fn spot_at<'t>(
    alloc: Global,
    encoding: Encoding,
    text: &'t [u8],
    position: Position,
) -> Result<Spot<'t>, AllocError>
    ensures { IfOk result (λ spot. spot ≡ spot_at encoding text.now position) }
{
    let row = Rows::new(alloc, text)?.row(position.line as usize);
    Ok(Spot {
        line: position.line,
        row,
        at: fitting(encoding, position.character, row),
    })
}

/// The first so many bytes of a row, or all of it.
#[tactic(auto, using(std::proofs::lemmas::List::take_min))]
pub(crate) fn front(row: &[u8], size: usize) -> &[u8]
    ensures { result.now ≡ take size row.now }
{
    &row[..size.min(row.len())]
}

/// The position of a place in a row with a number.
fn position_in(encoding: Encoding, line: u32, row: &[u8], at: usize) -> Position
    ensures { result ≡ position_in encoding line row.now at }
{
    Position {
        line,
        character: units(encoding, front(row, at)),
    }
}

/// Writes the range from a place in a row up to another one.
pub(crate) fn write_row_range(
    writer: &mut Writer,
    encoding: Encoding,
    line: u32,
    row: &[u8],
    start: usize,
    end: usize,
) -> Result<(), AllocError>
    ensures tokens { OnOk result (writer.new.tokens ≡ writer.old.tokens ++ json_tokens (row_range encoding line row.now start end)) }
    ensures before { OnOk result (writer.new.before ≡ writer.old.before) }
{
    let start = position_in(encoding, line, row, start);
    let end = position_in(encoding, line, row, end);
    write_range(writer, start, end)
}
