//! The lints of a line.
ghost use Rattle.std.specs.Prelude.{◌≡◌, ◌++◌, OnOk};
ghost use Rattle.hwdb_core.specs.Lints.{match_lints, property_lints, unmarked_lints};

use crate::forms::match_fault;
use crate::lint::DatabaseLint;
use crate::matches::{after_mark, cut_word, ends_in_blank, is_blank_beside, open_set};
use crate::names::is_name;
use crate::placed_lint::{PlacedLint, add, add_fault, add_if, add_suffix};
use crate::values::takes;
use std::alloc::{AllocError, Global};
use text_bytes::{Line, trimmed, unindented};

/// Adds the lints of a match: of a line, by its clean text and whether the file has that match already.
pub(crate) fn add_match_lints(
    alloc: Global,
    found: &mut Vec<PlacedLint>,
    line: &Line<'_>,
    text: &[u8],
    known: bool,
) -> Result<(), AllocError>
    ensures { OnOk result (found.new.items ≡ found.old.items ++ match_lints line.now text.now known) }
{
    match after_mark(text) {
        Some(rest) => add(
            alloc,
            found,
            line.number(),
            DatabaseLint::ByteOrderMark,
            3,
            rest,
        ),
        None => add_unmarked_lints(alloc, found, line, text, known),
    }
}

/// The same for a match that begins with no byte order mark.
fn add_unmarked_lints(
    alloc: Global,
    found: &mut Vec<PlacedLint>,
    line: &Line<'_>,
    text: &[u8],
    known: bool,
) -> Result<(), AllocError>
    ensures { OnOk result (found.new.items ≡ found.old.items ++ unmarked_lints line.now text.now known) }
{
    let number = line.number();
    let written = line.text();
    add_fault(alloc, found, number, match_fault(text), text)?;
    add_if(
        alloc,
        found,
        number,
        known,
        DatabaseLint::MatchTwice,
        0,
        text,
    )?;
    add_if(
        alloc,
        found,
        number,
        ends_in_blank(written),
        DatabaseLint::BlankAtEnd,
        0,
        text,
    )?;
    add_suffix(
        alloc,
        found,
        number,
        DatabaseLint::CutWord,
        written,
        cut_word(written),
    )?;
    add_suffix(
        alloc,
        found,
        number,
        DatabaseLint::OpenSet,
        text,
        open_set(text),
    )
}

/// Adds the lints of a property: of a line, by how many blanks come before it, by its clean text, the key and the value
/// in that, and whether the record has that key already.
pub(crate) fn add_property_lints(
    alloc: Global,
    found: &mut Vec<PlacedLint>,
    line: &Line<'_>,
    start: usize,
    text: &[u8],
    pair: (&[u8], &[u8]),
    known: bool,
) -> Result<(), AllocError>
    ensures { OnOk result (found.new.items ≡ found.old.items ++ property_lints line.now start text.now (pair.entry.0.now, pair.entry.1.now) known) }
{
    let (key, value) = pair;
    let number = line.number();
    let written = line.text();
    let name = trimmed(key);
    add_if(
        alloc,
        found,
        number,
        known,
        DatabaseLint::PropertyTwice,
        start,
        key,
    )?;
    add_if(
        alloc,
        found,
        number,
        is_blank_beside(key, value),
        DatabaseLint::BlankAtEquals,
        start,
        text,
    )?;
    add_if(
        alloc,
        found,
        number,
        !is_name(name),
        DatabaseLint::OddName,
        start,
        key,
    )?;
    add_suffix(
        alloc,
        found,
        number,
        DatabaseLint::CutWord,
        written,
        cut_word(written),
    )?;
    let takes = takes(name, unindented(value));
    add_if(
        alloc,
        found,
        number,
        !takes,
        DatabaseLint::WrongValue,
        start,
        text,
    )
}
