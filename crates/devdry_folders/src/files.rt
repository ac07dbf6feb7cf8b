//! The files that were read.
ghost use Rattle.std.specs.Prelude.{◌≡◌, ◌++◌, IfOk, OnOk};
ghost use Rattle.devdry_folders.specs.Unread.{file_of_sight, files_of, files_of_visit};

use crate::sights::{Met, Sight, Visit};
use std::alloc::{AllocError, Global};
use text_bytes::{FileKind, SourceFile};

/// Adds the file of a sight, if it is one.
fn push_file(
    files: &mut Vec<SourceFile>,
    kind: FileKind,
    rank: u8,
    is_named: bool,
    sight: Sight,
) -> Result<(), AllocError>
    ensures { OnOk result (files.new.items ≡ files.old.items ++ file_of_sight kind rank is_named sight) }
{
    let Sight { name, path, met } = sight;
    let name = if is_named { path } else { name };
    if let Met::File(bytes) = met {
        files.push(SourceFile {
            kind,
            rank,
            name,
            bytes,
        })?;
    }
    Ok(())
}

/// Adds the files of a visit.
fn push_files(files: &mut Vec<SourceFile>, visit: Visit) -> Result<(), AllocError>
    ensures { OnOk result (files.new.items ≡ files.old.items ++ files_of_visit visit) }
{
    let Visit {
        kind,
        rank,
        is_named,
        scan,
        ..
    } = visit;
    for sight in scan.sights {
        push_file(files, kind, rank, is_named, sight)?;
    }
    Ok(())
}

/// The files of visits, in their order. Their bytes are not copied.
///
/// A file of a folder of the system has its name there and the folder's rank, and an added one the name that its path
/// ends in and the rank of the first folder; one that is named, or that is in a
/// named folder, has its path as its name, and rank 0.
pub(crate) fn files_of(alloc: Global, visits: Vec<Visit>) -> Result<Vec<SourceFile>, AllocError>
    ensures { IfOk result (λ files. files.items ≡ files_of visits.items) }
{
    let mut files = Vec::new(alloc);
    for visit in visits {
        push_files(&mut files, visit)?;
    }
    Ok(files)
}
