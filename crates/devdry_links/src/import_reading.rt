//! Looks at the paths that rules name, and reads the files there.
ghost use Rattle.std.specs.Prelude.{◌≡◌, ◌∷◌, [], IfOk, List, OnOk};
ghost use Rattle.text_bytes.specs.Text.{Text};
ghost use Rattle.devdry_files.specs.Inside.{MayInside};
ghost use Rattle.builtin_devices.specs.Knowledge.{FilesFound};
ghost use Rattle.devdry_links.specs.Naming.{paths_named};
ghost use Rattle.devdry_links.specs.ImportReading.{AreFound, IsFound, IsFoundBelow, IsFoundBy};

use crate::naming::paths_named;
use builtin_devices::{RootFile, RootFiles};
use devdry_files::{Disk, DiskFault, Look, RootedDisk, path_below};
use std::alloc::{AllocError, Global};
use text_bytes::{Bytes, SourceFile};

/// What is found at a path, by a look at it.
fn found_by<D: Disk>(
    alloc: Global,
    disk: &D,
    path: &str,
    look: Look,
) -> Result<Option<RootFile>, AllocError>
    ensures { IfOk result (IsFoundBy (D.may_answer disk.now) path.now look) }
{
    match look {
        Look::File => match disk.read(alloc, path) {
            Ok(bytes) => Ok(Some(RootFile::Read(bytes))),
            Err(DiskFault::Absent) => Ok(Some(RootFile::Absent)),
            Err(DiskFault::Unreadable) => Ok(None),
            Err(DiskFault::NotUtf8) => Ok(None),
            Err(DiskFault::OutOfMemory) => Err(AllocError),
        },
        Look::Absent => Ok(Some(RootFile::Absent)),
        Look::Folder | Look::Forbidden | Look::Other | Look::Failed => Ok(None),
    }
}

/// What is found at a path: it is looked at, and read if a file is there.
fn found_at<D: Disk>(alloc: Global, disk: &D, path: &str) -> Result<Option<RootFile>, AllocError>
    ensures { IfOk result (IsFound (D.may_answer disk.now) path.now) }
{
    let look = disk.look(alloc, path)?;
    found_by(alloc, disk, path, look)
}

/// What is found at a path below a root.
fn found_below<D: Disk>(
    alloc: Global,
    disk: &D,
    root: &str,
    path: &[u8],
) -> Result<Option<RootFile>, AllocError>
    ensures { IfOk result (IsFoundBelow (D.may_answer disk.now) root.now path.now) }
{
    match str::from_utf8(path) {
        Ok(path) => {
            let whole = path_below(alloc, root, path)?;
            found_at(alloc, disk, whole.as_str())
        }
        Err(_) => Ok(None),
    }
}

/// Looks at a path below a root, unless something was found there before.
fn look_below<D: Disk>(
    alloc: Global,
    disk: &D,
    root: &str,
    path: &[u8],
    found: &mut RootFiles,
) -> Result<(), AllocError>
    ensures { OnOk result ((paths : List Text) (last : FilesFound) → AreFound (D.may_answer disk.now) root.now paths found.new last
        → AreFound (D.may_answer disk.now) root.now (path.now ∷ paths) found.old last) }
{
    if found.contains(path) {
        return Ok(());
    }
    match found_below(alloc, disk, root, path)? {
        Some(it) => found.add(alloc, path, it),
        None => Ok(()),
    }
}

/// What is found at paths below a root.
fn read_paths<D: Disk>(
    alloc: Global,
    disk: &D,
    root: &str,
    paths: &[Bytes],
) -> Result<RootFiles, AllocError>
    ensures { IfOk result (AreFound (D.may_answer disk.now) root.now paths.now []) }
{
    let mut found = RootFiles::new(alloc);
    for path in paths {
        look_below(alloc, disk, root, path.as_slice(), &mut found)?;
    }
    Ok(found)
}

/// What is found at the paths in a root that the rules of files name in full in IMPORT{file}, as udev reads the rules: a
/// path that begins with a slash and has no substitution. Rules are looked for in the files that have the text
/// `IMPORT{file}`. A symlink is followed inside the root.
///
/// A path at which nothing is found is kept as such. What can't be read is left out: a folder, a FIFO, a device, a file
/// that may not be read, and a path that is not UTF-8. There is an error only if memory runs out.
pub fn read_root_files<D: Disk>(
    alloc: Global,
    disk: &D,
    root: &str,
    files: &[SourceFile],
) -> Result<RootFiles, AllocError>
    ensures { IfOk result (AreFound (MayInside (D.may_answer disk.now) root.now) root.now (paths_named files.now) []) }
{
    let paths = paths_named(alloc, files)?;
    let inside = RootedDisk::new(disk, root);
    read_paths(alloc, &inside, root, &paths)
}
