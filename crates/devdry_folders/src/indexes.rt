//! The index that a line names, and what is met at its path.
ghost use Rattle.std.specs.Option.{option_copied};
ghost use Rattle.std.specs.Prelude.{◌≡◌, IfOk};
ghost use Rattle.devdry_folders.specs.Indexes.{IsIndexSight, index_bytes, is_index_read};

use crate::meetings::file_met_at;
use crate::sights::{Met, Sight};
use crate::unread::is_file;
use devdry_files::Disk;
use std::alloc::{AllocError, Global};
use text_bytes::Bytes;

/// The index at its path, as it is met, if one is named.
pub(crate) fn index_sight<D: Disk>(
    alloc: Global,
    disk: &D,
    index: Option<&str>,
) -> Result<Option<Sight>, AllocError>
    ensures { IfOk result (IsIndexSight (D.may_answer disk.now) (option_copied index.entry)) }
{
    match index {
        Some(path) => {
            let met = file_met_at(alloc, disk, path)?;
            Ok(Some(Sight::new(alloc, path.as_bytes(), path, met)?))
        }
        None => Ok(None),
    }
}

/// Whether an index was read.
pub(crate) fn is_index_read(index: &Option<Sight>) -> bool
    ensures { result ≡ is_index_read index.now }
{
    match index {
        Some(sight) => is_file(&sight.met),
        None => false,
    }
}

/// The bytes of an index, if it was read.
pub(crate) fn index_bytes(index: Option<Sight>) -> Option<Bytes>
    ensures { result ≡ index_bytes index }
{
    let Sight { met, .. } = index?;
    match met {
        Met::File(bytes) => Some(bytes),
        Met::OtherName | Met::Folder | Met::Unread(_) => None,
    }
}
