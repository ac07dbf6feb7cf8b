//! Lines with what no editor shows.
ghost use Rattle.std.specs.Prelude.{◌≡◌, ◌++◌, OnOk};
ghost use Rattle.devdry_links.specs.Notes.{first_note, first_with};

use crate::unseen::Unseen;
use engine_sessions::push_place;
use std::alloc::{AllocError, Global};
use text_bytes::{Line, Lines, SourceFile, capped};

/// The first line of a file that has what no editor shows.
fn first_with(unseen: Unseen, bytes: &[u8]) -> Option<Line<'_>>
    ensures { result ≡ first_with unseen bytes.now }
{
    for line in Lines::new(bytes) {
        if unseen.is_in(line.text()) {
            return Some(line);
        }
    }
    None
}

/// Adds the note on the first line of a file that has what no editor shows, if there is one.
pub(crate) fn push_first(
    alloc: Global,
    notes: &mut Vec<u8>,
    file: &SourceFile,
    unseen: Unseen,
) -> Result<(), AllocError>
    ensures { OnOk result (notes.new.items ≡ notes.old.items ++ first_note file.now unseen) }
{
    if let Some(line) = first_with(unseen, file.bytes.as_slice()) {
        notes.extend_from_slice(b"devdry: ")?;
        push_place(alloc, notes, file.name.as_slice(), capped(line.number()))?;
        notes.extend_from_slice(unseen.told())?;
        notes.push(b'\n')?;
    }
    Ok(())
}
