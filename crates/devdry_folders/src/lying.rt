//! Which rules files lie in the folders of a root, whether a run reads them or not.
ghost use Rattle.std.specs.Prelude.{◌≡◌, IfOk};
ghost use Rattle.devdry_files.specs.Inside.{MayInside};
ghost use Rattle.devdry_folders.specs.Lying.{AreLying, AreLyingAt, paths_of};

use crate::elsewhere::entries_at;
use crate::visiting::path_below;
use devdry_files::{Disk, Entry, RootedDisk, counts};
use engine_sessions::folder_path;
use std::alloc::{AllocError, Global};
use text_bytes::{Bytes, FileKind};

/// The paths of the rules files among the entries of a folder, in their order.
fn paths_of(alloc: Global, folder: &str, entries: &[Entry]) -> Result<Vec<Bytes>, AllocError>
    ensures { IfOk result (λ paths. paths.items ≡ paths_of folder.now entries.now) }
{
    let mut paths = Vec::new(alloc);
    for entry in entries {
        if counts(FileKind::Rules, entry) {
            let path = path_below(alloc, folder, entry.name.as_str())?;
            paths.push(Bytes::new(path.into_bytes()))?;
        }
    }
    Ok(paths)
}

/// The paths of the rules files in the folder of a rank; none if it can't be listed.
fn lying_at<D: Disk>(
    alloc: Global,
    disk: &D,
    root: &str,
    rank: u8,
) -> Result<Vec<Bytes>, AllocError>
    ensures { IfOk result (λ paths. AreLyingAt (D.may_answer disk.now) root.now rank paths.items) }
{
    let mut folder = String::from_str(alloc, root)?;
    folder.push_str(folder_path(FileKind::Rules, rank))?;
    let entries = entries_at(alloc, disk, folder.as_str())?;
    paths_of(alloc, folder.as_str(), &entries)
}

/// The paths of the rules files that lie in the folders of a root, folder by folder, and in each as the disk lists them; links
/// are followed inside the root. Of a folder that can't be listed there are none. Nothing is read.
///
/// Fails if memory runs out.
pub fn rules_lying<D: Disk>(alloc: Global, disk: &D, root: &str) -> Result<Vec<Bytes>, AllocError>
    ensures { IfOk result (λ paths. AreLying (MayInside (D.may_answer disk.now) root.now) root.now paths.items) }
{
    let inside = RootedDisk::new(disk, root);
    let mut paths = lying_at(alloc, &inside, root, 0)?;
    let mut second = lying_at(alloc, &inside, root, 1)?;
    let mut third = lying_at(alloc, &inside, root, 2)?;
    let mut fourth = lying_at(alloc, &inside, root, 3)?;
    third.append(&mut fourth)?;
    second.append(&mut third)?;
    paths.append(&mut second)?;
    Ok(paths)
}
