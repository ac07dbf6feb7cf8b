//! Reads what a line asks for.
ghost use Rattle.std.specs.Prelude.{◌≡◌, IfErr, IfOk, map, string_bytes};
ghost use Rattle.devdry_files.specs.Answers.Answer.{Content, NoContent};
ghost use Rattle.devdry_files.specs.Faults.{FirstFails, HasPath, IsFaultyIn, IsFaultyIndex, IsFaultyWanted, IsUnread, file_steps, folder_steps, unnamed_steps};
ghost use Rattle.devdry_files.specs.Found.{AreInFolder, AreInFolders, AreNamed, AreUnnamed, AreWanted, IsFileAt, IsIndexWanted, path_in};

use crate::additions::added_files;
use crate::disk::{Disk, DiskFault};
use crate::fault::{ReadFault, fault_at};
use crate::listing::names_in;
use crate::places::{Folder, Wanted, path_in};
use crate::rooted_disk::RootedDisk;
use std::alloc::Global;
use text_bytes::{Bytes, FileKind, SourceFile};

/// The bytes of the file at a path.
pub(crate) fn bytes_at<D: Disk>(alloc: Global, disk: &D, path: String) -> Result<Bytes, ReadFault>
    ensures bytes { IfOk result (λ bytes.
        D.may_answer disk.now (Content (string_bytes path) bytes)) }
    ensures fault { IfErr result (HasPath (λ p. (p ≡ string_bytes path)
        × IsUnread (D.may_answer disk.now) p)) }
    ensures memory { IfErr result (λ fault. fault ≡ ReadFault.Memory
        → D.may_answer disk.now (NoContent (string_bytes path) DiskFault.OutOfMemory)) }
{
    match disk.read(alloc, path.as_str()) {
        Ok(bytes) => Ok(bytes),
        Err(fault) => Err(fault_at(path, fault)),
    }
}

/// The file at a path, with a name by which it is reported.
pub(crate) fn file_at<D: Disk>(
    alloc: Global,
    disk: &D,
    path: String,
    kind: FileKind,
    rank: u8,
    name: Bytes,
) -> Result<SourceFile, ReadFault>
    ensures file { IfOk result (IsFileAt (D.may_answer disk.now) kind rank (string_bytes path) name) }
    ensures fault { IfErr result (HasPath (λ p. (p ≡ string_bytes path)
        × IsUnread (D.may_answer disk.now) p)) }
    ensures memory { IfErr result (λ fault. fault ≡ ReadFault.Memory
        → D.may_answer disk.now (NoContent (string_bytes path) DiskFault.OutOfMemory)) }
{
    let bytes = bytes_at(alloc, disk, path)?;
    Ok(SourceFile {
        kind,
        rank,
        name,
        bytes,
    })
}

/// The file with a name in a folder.
fn file_in<D: Disk>(
    alloc: Global,
    disk: &D,
    folder: &Folder,
    name: &str,
) -> Result<SourceFile, ReadFault>
    ensures file { IfOk result (IsFileAt (D.may_answer disk.now) folder.now.kind folder.now.rank
        (path_in folder.now name.now) name.now) }
    ensures fault { IfErr result (HasPath (λ p. (p ≡ path_in folder.now name.now)
        × IsUnread (D.may_answer disk.now) p)) }
{
    let path = path_in(alloc, folder.path.as_str(), name)?;
    let name = Bytes::copy_of(alloc, name.as_bytes())?;
    file_at(alloc, disk, path, folder.kind, folder.rank, name)
}

/// The files of a folder.
fn files_in<D: Disk>(alloc: Global, disk: &D, folder: &Folder) -> Result<Vec<SourceFile>, ReadFault>
    ensures files { IfOk result (λ files.
        AreInFolder (D.may_answer disk.now) folder.now files.items) }
    ensures fault { IfErr result (HasPath (IsFaultyIn (D.may_answer disk.now) folder.now)) }
{
    let names = names_in(alloc, disk, folder)?;
    let mut files = Vec::new(alloc);
    for name in &names {
        files.push(file_in(alloc, disk, folder, name.as_str())?)?;
    }
    Ok(files)
}

/// The files of the folders, one folder after another.
fn files_of_folders<D: Disk>(
    alloc: Global,
    disk: &D,
    folders: &[Folder],
) -> Result<Vec<SourceFile>, ReadFault>
    ensures files { IfOk result (λ files.
        AreInFolders (D.may_answer disk.now) folders.now files.items) }
    ensures fault { IfErr result (HasPath (FirstFails (folder_steps (D.may_answer disk.now) folders.now))) }
{
    let mut files = Vec::new(alloc);
    for folder in folders {
        files.append(&mut files_in(alloc, disk, folder)?)?;
    }
    Ok(files)
}

/// A named file.
fn named_file<D: Disk>(
    alloc: Global,
    disk: &D,
    kind: FileKind,
    path: &str,
) -> Result<SourceFile, ReadFault>
    ensures file { IfOk result (IsFileAt (D.may_answer disk.now) kind 0 path.now path.now) }
    ensures fault { IfErr result (HasPath (λ p. (p ≡ path.now)
        × IsUnread (D.may_answer disk.now) p)) }
{
    let name = Bytes::copy_of(alloc, path.as_bytes())?;
    let path = String::from_str(alloc, path)?;
    file_at(alloc, disk, path, kind, 0, name)
}

/// The named files, in their order.
fn named_files<D: Disk>(
    alloc: Global,
    disk: &D,
    kind: FileKind,
    paths: &[&str],
) -> Result<Vec<SourceFile>, ReadFault>
    ensures files { IfOk result (λ files.
        AreNamed (D.may_answer disk.now) kind (map (λ p. p.now) paths.now) files.items) }
    ensures fault { IfErr result (HasPath
        (FirstFails (file_steps (D.may_answer disk.now) (map (λ p. p.now) paths.now)))) }
{
    let mut files = Vec::new(alloc);
    for path in paths {
        files.push(named_file(alloc, disk, kind, path)?)?;
    }
    Ok(files)
}

/// The files that are wanted and not named: the added ones, and then those of the folders.
fn unnamed_files<D: Disk>(
    alloc: Global,
    disk: &D,
    wanted: &Wanted<'_, '_>,
) -> Result<Vec<SourceFile>, ReadFault>
    ensures files { IfOk result (λ files.
        AreUnnamed (D.may_answer disk.now) wanted.now files.items) }
    ensures fault { IfErr result (HasPath (FirstFails (unnamed_steps (D.may_answer disk.now) wanted.now))) }
{
    let mut files = added_files(alloc, disk, wanted.added)?;
    let inside = RootedDisk::new(disk, wanted.root);
    files.append(&mut files_of_folders(alloc, &inside, wanted.folders.as_slice())?)?;
    Ok(files)
}

/// Reads all that a line asks for: the named files and the added ones in the order given, and then the folders, each
/// by the names in it, byte by byte.
///
/// Named files are read whatever their suffix, and have rank 0 and their names as given. An added file is opened at its
/// path as well, and has rank 0 and the name that its path ends in, as a file of the first folder has. In a folder only files
/// whose names end in the suffix of their kind are opened, `.hwdb` as hwdb(7) says or `.rules` as udev(7) does,
/// each under its name without the folder; folders in it are skipped, a symlink is followed inside the root of the
/// folders, and an absent folder is empty.
///
/// `ReadFault::Path` means a file that can't be read, the first one, with its path; a folder given as a file is
/// one, and so is a symlink to nothing in a folder, as `systemd-hwdb update --strict` has it. If a folder can't be
/// listed, or a name in it is not UTF-8, it has the folder's path. `ReadFault::Memory` means that an allocation
/// failed.
pub fn read_all<D: Disk>(
    alloc: Global,
    disk: &D,
    wanted: &Wanted<'_, '_>,
) -> Result<Vec<SourceFile>, ReadFault>
    ensures files { IfOk result (λ files.
        AreWanted (D.may_answer disk.now) wanted.now files.items) }
    ensures fault { IfErr result (HasPath (IsFaultyWanted (D.may_answer disk.now) wanted.now)) }
{
    let mut files = named_files(alloc, disk, wanted.kind, wanted.files)?;
    files.append(&mut unnamed_files(alloc, disk, wanted)?)?;
    Ok(files)
}

/// Reads the index that is wanted, if one is: all bytes of the file at its path.
///
/// `ReadFault::Path` means that the file can't be read or does not exist, with the path as it is named;
/// `ReadFault::Memory` that an allocation failed. Whether the bytes are an index is not looked at.
pub fn read_index<D: Disk>(
    alloc: Global,
    disk: &D,
    wanted: &Wanted<'_, '_>,
) -> Result<Option<Bytes>, ReadFault>
    ensures index { IfOk result (IsIndexWanted (D.may_answer disk.now) wanted.now) }
    ensures fault { IfErr result (HasPath (IsFaultyIndex (D.may_answer disk.now) wanted.now)) }
{
    let Some(path) = wanted.index else {
        return Ok(None);
    };
    let path = String::from_str(alloc, path)?;
    Ok(Some(bytes_at(alloc, disk, path)?))
}
