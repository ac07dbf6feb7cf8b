//! The files that stand among those of the folders as if they were in the first of these.
ghost use Rattle.std.specs.Prelude.{◌≡◌, IfErr, IfOk, map};
ghost use Rattle.devdry_files.specs.Faults.{FirstFails, HasPath, IsUnread, file_steps};
ghost use Rattle.devdry_files.specs.Found.{AreAdded, IsFileAt};
ghost use Rattle.devdry_files.specs.Places.{kind_added, name_at};

use crate::disk::Disk;
use crate::fault::ReadFault;
use crate::reading::file_at;
use std::alloc::Global;
use text_bytes::{Bytes, FileKind, SourceFile, last_component};

/// What an added file holds, by how its path ends: a database, or else rules.
pub fn kind_added(path: &str) -> FileKind
    ensures { result ≡ kind_added path.now }
{
    if path
        .as_bytes()
        .ends_with(FileKind::Hwdb.suffix().as_bytes())
    {
        FileKind::Hwdb
    } else {
        FileKind::Rules
    }
}

/// The name of the file at a path: what follows the last slash.
pub fn name_at(path: &str) -> &[u8]
    ensures { result.now ≡ name_at path.now }
{
    last_component(path.as_bytes())
}

/// An added file: of the rank of the first folder, and under its name there.
fn added_file<D: Disk>(alloc: Global, disk: &D, path: &str) -> Result<SourceFile, ReadFault>
    ensures file { IfOk result (IsFileAt (D.may_answer disk.now) (kind_added path.now) 0 path.now (name_at path.now)) }
    ensures fault { IfErr result (HasPath (λ p. (p ≡ path.now)
        × IsUnread (D.may_answer disk.now) p)) }
{
    let kind = kind_added(path);
    let name = Bytes::copy_of(alloc, name_at(path))?;
    let path = String::from_str(alloc, path)?;
    file_at(alloc, disk, path, kind, 0, name)
}

/// The added files, in their order.
pub(crate) fn added_files<D: Disk>(
    alloc: Global,
    disk: &D,
    paths: &[&str],
) -> Result<Vec<SourceFile>, ReadFault>
    ensures files { IfOk result (λ files.
        AreAdded (D.may_answer disk.now) (map (λ p. p.now) paths.now) files.items) }
    ensures fault { IfErr result (HasPath
        (FirstFails (file_steps (D.may_answer disk.now) (map (λ p. p.now) paths.now)))) }
{
    let mut files = Vec::new(alloc);
    for path in paths {
        files.push(added_file(alloc, disk, path)?)?;
    }
    Ok(files)
}
