//! What there is to tell about files before a run.
ghost use Rattle.std.specs.Prelude.{◌≡◌, IfOk};
ghost use Rattle.devdry_gathering.specs.Notes.{AreLyingFor, AreNotesOf, IsHintAt, IsThere};

use devdry_files::{Disk, Look};
use devdry_folders::rules_lying;
use devdry_links::{asks_folder, asks_lying, asks_root, folder_note, notes_of};
use engine_formats::shown_in;
use engine_sessions::Line;
use std::alloc::{AllocError, Global};
use text_bytes::{Bytes, SourceFile};

/// Whether there is a folder at a path, if that is asked; otherwise nothing is looked at.
fn is_there<D: Disk>(alloc: Global, disk: &D, asked: bool, path: &str) -> Result<bool, AllocError>
    ensures { IfOk result (IsThere (D.may_answer disk.now) asked path.now) }
{
    if asked {
        let look = disk.look(alloc, path)?;
        Ok(matches!(look, Look::Folder))
    } else {
        Ok(false)
    }
}

/// The hint on a file at a path, if a line asks whether it is a folder.
pub(crate) fn hint_at<D: Disk>(
    alloc: Global,
    disk: &D,
    line: &Line<'_>,
    path: &str,
) -> Result<Vec<u8>, AllocError>
    ensures { IfOk result (λ hint. IsHintAt (D.may_answer disk.now) line.now path.now hint.items) }
{
    if is_there(alloc, disk, asks_folder(line, path), path)? {
        folder_note(alloc, path)
    } else {
        Ok(Vec::new(alloc))
    }
}

/// The paths of the rules files in the folders of a line's root, if it asks about them; otherwise nothing is looked at.
fn lying_for<D: Disk>(alloc: Global, disk: &D, line: &Line<'_>) -> Result<Vec<Bytes>, AllocError>
    ensures { IfOk result (λ lying. AreLyingFor (D.may_answer disk.now) line.now lying.items) }
{
    if asks_lying(line) {
        rules_lying(alloc, disk, line.root)
    } else {
        Ok(Vec::new(alloc))
    }
}

/// What there is to tell about files that were read for a line, as its format shows it.
pub(crate) fn notes_on<D: Disk>(
    alloc: Global,
    disk: &D,
    line: &Line<'_>,
    files: &[SourceFile],
) -> Result<Vec<u8>, AllocError>
    ensures { IfOk result (λ notes. AreNotesOf (D.may_answer disk.now) line.now files.now notes.items) }
{
    let there = is_there(alloc, disk, asks_root(line), line.root)?;
    let lying = lying_for(alloc, disk, line)?;
    let notes = notes_of(alloc, line, files, there, &lying)?;
    Ok(shown_in(line.format, notes))
}
