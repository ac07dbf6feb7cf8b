//! The files, the folders and the index that a line asks for.
ghost use Rattle.std.specs.Prelude.{◌≡◌, IfOk, map};
ghost use Rattle.devdry_files.specs.Places.{Wants, folder_place, folders_for, folders_of, place_of};

use crate::places::{Folder, Wanted};
use engine_sessions::{Line, folder_path};
use std::alloc::{AllocError, Global};
use text_bytes::FileKind;

/// The folder of a kind and a rank, below a root.
fn folder(alloc: Global, kind: FileKind, rank: u8, root: &str) -> Result<Folder, AllocError>
    ensures { IfOk result (λ f. place_of f ≡ folder_place kind rank root.now) }
{
    let mut whole = String::from_str(alloc, root)?;
    whole.push_str(folder_path(kind, rank))?;
    Ok(Folder {
        kind,
        rank,
        path: whole,
    })
}

/// The folders of the hardware database below a root, by rank.
fn hwdb_folders(alloc: Global, root: &str) -> Result<Vec<Folder>, AllocError>
    ensures { IfOk result (λ folders. map place_of folders.items ≡ folders_of FileKind.Hwdb root.now) }
{
    let kind = FileKind::Hwdb;
    let mut folders = Vec::new(alloc);
    folders.push(folder(alloc, kind, 0, root)?)?;
    folders.push(folder(alloc, kind, 1, root)?)?;
    Ok(folders)
}

/// The folders of rules below a root, by rank.
fn rules_folders(alloc: Global, root: &str) -> Result<Vec<Folder>, AllocError>
    ensures { IfOk result (λ folders. map place_of folders.items ≡ folders_of FileKind.Rules root.now) }
{
    let kind = FileKind::Rules;
    let mut folders = Vec::new(alloc);
    folders.push(folder(alloc, kind, 0, root)?)?;
    folders.push(folder(alloc, kind, 1, root)?)?;
    folders.push(folder(alloc, kind, 2, root)?)?;
    folders.push(folder(alloc, kind, 3, root)?)?;
    Ok(folders)
}

/// The folders of a kind, by rank.
fn folders_of_kind(alloc: Global, kind: FileKind, root: &str) -> Result<Vec<Folder>, AllocError>
    ensures { IfOk result (λ folders. map place_of folders.items ≡ folders_of kind root.now) }
{
    match kind {
        FileKind::Hwdb => hwdb_folders(alloc, root),
        FileKind::Rules => rules_folders(alloc, root),
    }
}

/// The folders of the kinds that the line reads from folders.
fn asked_folders(alloc: Global, line: &Line<'_>) -> Result<Vec<Folder>, AllocError>
    ensures { IfOk result (λ folders. map place_of folders.items ≡ folders_for line.now) }
{
    let mut folders = Vec::new(alloc);
    for kind in line.verb.kinds_read() {
        if line.reads_folders_of(*kind) {
            folders.append(&mut folders_of_kind(alloc, *kind, line.root)?)?;
        }
    }
    Ok(folders)
}

/// The files, the folders and the index that a line asks for.
///
/// Named files replace the folders of their kind, as with `udevadm verify`, and an index replaces those of the
/// database. `update` and `query` ask for files of the database, and their folders are those of hwdb(7):
/// `/etc/udev/hwdb.d` with rank 0 and `/usr/lib/udev/hwdb.d` with rank 1. `verify` asks for files of rules, and its
/// folders are those of udev(7): `/etc/udev/rules.d` with rank 0, `/run/udev/rules.d` with 1,
/// `/usr/local/lib/udev/rules.d` with 2 and `/usr/lib/udev/rules.d` with 3. Each is prefixed with the line's root,
/// unchanged. Added files keep their paths.
pub fn wanted<'b, 'a>(alloc: Global, line: &'b Line<'a>) -> Result<Wanted<'b, 'a>, AllocError>
    ensures { IfOk result (Wants line.now) }
{
    Ok(Wanted {
        kind: line.verb.kind_named(),
        files: line.files.as_slice(),
        added: line.added.as_slice(),
        folders: asked_folders(alloc, line)?,
        root: line.root,
        index: line.index,
    })
}
