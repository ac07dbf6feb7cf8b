//! A lint with its place.
ghost use Rattle.std.specs.Prelude.{◌≡◌, ◌∷◌, ◌++◌, [], OnOk, option_map};
ghost use Rattle.hwdb_core.specs.Placed.{placed, reported, reported_if, suffix_reported};

use crate::lint::DatabaseLint;
use std::alloc::{AllocError, Global};
use text_bytes::{Bytes, capped};

/// What is reported for a line of a database, and where.
#[derive(Drop)]
pub struct PlacedLint {
    /// The number of the line, counted from 1.
    pub line: u32,
    /// The byte of the line at which the place begins, counted from 1.
    pub column: u32,
    /// The column after the last byte of the place.
    pub end: u32,
    /// What is reported.
    pub lint: DatabaseLint,
    /// The text at the place, whole.
    pub word: Bytes,
}

/// Adds that a lint is reported for a text of a line, before which so many bytes come.
pub(crate) fn add(
    alloc: Global,
    found: &mut Vec<PlacedLint>,
    number: usize,
    lint: DatabaseLint,
    start: usize,
    word: &[u8],
) -> Result<(), AllocError>
    ensures { OnOk result (found.new.items ≡ found.old.items ++ placed number lint start word.now ∷ []) }
{
    found.push(PlacedLint {
        line: capped(number),
        column: capped(start.saturating_add(1)),
        end: capped(start.saturating_add(word.len()).saturating_add(1)),
        lint,
        word: Bytes::copy_of(alloc, word)?,
    })?;
    Ok(())
}

/// The same if something holds.
pub(crate) fn add_if(
    alloc: Global,
    found: &mut Vec<PlacedLint>,
    number: usize,
    holds: bool,
    lint: DatabaseLint,
    start: usize,
    word: &[u8],
) -> Result<(), AllocError>
    ensures { OnOk result (found.new.items ≡ found.old.items ++ reported_if holds (placed number lint start word.now)) }
{
    if holds {
        add(alloc, found, number, lint, start, word)
    } else {
        Ok(())
    }
}

/// The same for a lint that a whole text has, if it has one.
pub(crate) fn add_fault(
    alloc: Global,
    found: &mut Vec<PlacedLint>,
    number: usize,
    fault: Option<DatabaseLint>,
    text: &[u8],
) -> Result<(), AllocError>
    ensures { OnOk result (found.new.items ≡ found.old.items ++ reported number text.now fault) }
{
    match fault {
        Some(lint) => add(alloc, found, number, lint, 0, text),
        None => Ok(()),
    }
}

/// The same for the end of a text, if it is given.
pub(crate) fn add_suffix(
    alloc: Global,
    found: &mut Vec<PlacedLint>,
    number: usize,
    lint: DatabaseLint,
    text: &[u8],
    suffix: Option<&[u8]>,
) -> Result<(), AllocError>
    ensures { OnOk result (found.new.items ≡ found.old.items ++ suffix_reported number lint text.now (option_map (λ s. s.now) suffix.entry)) }
{
    match suffix {
        Some(suffix) => {
            let start = text.len().saturating_sub(suffix.len());
            add(alloc, found, number, lint, start, suffix)
        }
        None => Ok(()),
    }
}
