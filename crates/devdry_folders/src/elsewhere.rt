//! Files that are where none is read: below `/lib`, if that is not a symlink, as it mostly is to `/usr/lib`.
ghost use Rattle.std.specs.Prelude.{◌≡◌, IfErr, IfOk};
ghost use Rattle.devdry_files.specs.Answers.Answer.{NoListing};
ghost use Rattle.devdry_files.specs.declared.disk.DiskFault.TheVariants as faults;
ghost use Rattle.devdry_folders.specs.Nothing.{AreElsewhere, AreElsewhereOf, AreEntries, IsElsewhere, unmerged_folder};

use crate::meetings::link_at;
use devdry_files::{Disk, DiskFault, Entry, counts};
use engine_sessions::Line;
use std::alloc::{AllocError, Global};
use text_bytes::{Bytes, FileKind};

/// A folder that is not read, and how many files of a kind it has.
#[derive(Drop)]
pub(crate) struct Elsewhere {
    /// The kind.
    pub kind: FileKind,
    /// The folder's path.
    pub path: Bytes,
    /// How many files of the kind it has.
    pub count: usize,
}

/// Where an image whose `/lib` is not a link to `/usr/lib` keeps the files of a kind.
fn unmerged_folder(kind: FileKind) -> &'static str
    ensures { result.now ≡ unmerged_folder kind }
{
    match kind {
        FileKind::Hwdb => "/lib/udev/hwdb.d",
        FileKind::Rules => "/lib/udev/rules.d",
    }
}

/// The entries of the folder at a path, and none if it can't be listed.
pub(crate) fn entries_at<D: Disk>(
    alloc: Global,
    disk: &D,
    path: &str,
) -> Result<Vec<Entry>, AllocError>
    ensures entries { IfOk result (λ entries. AreEntries (D.may_answer disk.now) path.now entries.items) }
    ensures memory { IfErr result (λ _. D.may_answer disk.now (NoListing path.now faults.OutOfMemory)) }
{
    match disk.list(alloc, path) {
        Ok(entries) => Ok(entries),
        Err(DiskFault::Absent | DiskFault::Unreadable | DiskFault::NotUtf8) => Ok(Vec::new(alloc)),
        Err(DiskFault::OutOfMemory) => Err(AllocError),
    }
}

/// The files of a kind that are elsewhere, after a root.
fn elsewhere_of<D: Disk>(
    alloc: Global,
    disk: &D,
    root: &str,
    kind: FileKind,
) -> Result<Elsewhere, AllocError>
    ensures kind { IfOk result (λ e. e.kind ≡ kind) }
    ensures elsewhere { IfOk result (IsElsewhere (D.may_answer disk.now) root.now) }
{
    let mut path = String::from_str(alloc, root)?;
    path.push_str(unmerged_folder(kind))?;
    let entries = entries_at(alloc, disk, path.as_str())?;
    Ok(Elsewhere {
        kind,
        count: entries.iter().filter(|entry| counts(kind, entry)).count(),
        path: Bytes::copy_of(alloc, path.as_bytes())?,
    })
}

/// The files of kinds that are elsewhere, after a root.
fn elsewhere_of_kinds<D: Disk>(
    alloc: Global,
    disk: &D,
    root: &str,
    kinds: &[FileKind],
) -> Result<Vec<Elsewhere>, AllocError>
    ensures { IfOk result (λ others.
        AreElsewhereOf (D.may_answer disk.now) root.now kinds.now others.items) }
{
    let mut others = Vec::new(alloc);
    for kind in kinds {
        others.push(elsewhere_of(alloc, disk, root, *kind)?)?;
    }
    Ok(others)
}

/// The files that are elsewhere, for each of these kinds that the line reads from folders; none if `/lib` is a symlink, since
/// the files below it are those of the folder that it leads to.
pub(crate) fn files_elsewhere<D: Disk>(
    alloc: Global,
    disk: &D,
    line: &Line<'_>,
    kinds: &[FileKind],
) -> Result<Vec<Elsewhere>, AllocError>
    ensures { IfOk result (λ others. AreElsewhere (D.may_answer disk.now) line.now kinds.now others.items) }
{
    let mut lib = String::from_str(alloc, line.root)?;
    lib.push_str("/lib")?;
    if link_at(alloc, disk, lib.as_str())?.is_some() {
        return Ok(Vec::new(alloc));
    }
    let kinds: Vec<FileKind> = kinds
        .iter()
        .copied()
        .filter(|kind| line.reads_folders_of(*kind))
        .collect(alloc)?;
    elsewhere_of_kinds(alloc, disk, line.root, &kinds)
}
