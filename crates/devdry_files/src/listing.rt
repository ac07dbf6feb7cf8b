//! The names in a folder that are to be read.
ghost use Rattle.std.specs.Prelude.{◌≡◌, IfErr, IfOk, filter, map, string_bytes};
ghost use Rattle.devdry_files.specs.Answers.Answer.{NoListing};
ghost use Rattle.devdry_files.specs.Faults.{HasPath, IsUnlisted};
ghost use Rattle.devdry_files.specs.Found.{AreNamesIn, IsListing, counts};

use crate::disk::{Disk, DiskFault, Entry};
use crate::fault::{ReadFault, fault_at};
use crate::places::Folder;
use std::alloc::{AllocError, Global};
use text_bytes::FileKind;

/// Whether an entry of a folder is a file of a kind: its name ends in the kind's suffix, and it is not a folder.
pub fn counts(kind: FileKind, entry: &Entry) -> bool
    ensures { result ≡ counts kind entry.now }
{
    let is_named_so = entry.name.as_bytes().ends_with(kind.suffix().as_bytes());
    is_named_so & !entry.is_folder
}

/// The entries of the folder at a path. An absent folder is empty.
fn entries_at<D: Disk>(alloc: Global, disk: &D, path: String) -> Result<Vec<Entry>, ReadFault>
    ensures entries { IfOk result (λ entries.
        IsListing (D.may_answer disk.now) (string_bytes path) entries.items) }
    ensures fault { IfErr result (HasPath (λ p. (p ≡ string_bytes path)
        × IsUnlisted (D.may_answer disk.now) p)) }
    ensures memory { IfErr result (λ fault. fault ≡ ReadFault.Memory
        → D.may_answer disk.now (NoListing (string_bytes path) DiskFault.OutOfMemory)) }
{
    match disk.list(alloc, path.as_str()) {
        Ok(entries) => Ok(entries),
        Err(DiskFault::Absent) => Ok(Vec::new(alloc)),
        Err(fault) => Err(fault_at(path, fault)),
    }
}

/// The names of the entries that are files of the kind.
fn names_of(alloc: Global, kind: FileKind, entries: Vec<Entry>) -> Result<Vec<String>, AllocError>
    ensures { IfOk result (λ names.
        names.items ≡ map (λ e. e.name) (filter (counts kind) entries.items)) }
{
    entries
        .into_iter()
        .filter(|entry| counts(kind, entry))
        .map(|entry| entry.name)
        .collect(alloc)
}

/// The names of a folder's files of its kind, sorted byte by byte.
///
/// Folders in it are skipped, and an absent folder is empty. A fault has the folder's path.
pub(crate) fn names_in<D: Disk>(
    alloc: Global,
    disk: &D,
    folder: &Folder,
) -> Result<Vec<String>, ReadFault>
    ensures names { IfOk result (λ names.
        AreNamesIn (D.may_answer disk.now) folder.now names.items) }
    ensures fault { IfErr result (HasPath (λ p. (p ≡ string_bytes folder.now.path)
        × IsUnlisted (D.may_answer disk.now) p)) }
{
    let path = String::from_str(alloc, folder.path.as_str())?;
    let entries = entries_at(alloc, disk, path)?;
    let mut names = names_of(alloc, folder.kind, entries)?;
    names.sort_unstable();
    Ok(names)
}
