//! Reads the files of all folders.
ghost use Rattle.std.specs.Prelude.{IfOk};
ghost use Rattle.devdry_links.specs.Reading.{IsSurvey};

use crate::places::{drop_in_places, link_places};
use crate::visits::{files_of, push_unread_lines, visits};
use devdry_files::Disk;
use std::alloc::{AllocError, Global};
use text_bytes::{SourceFile, order_files};

/// What was read of the folders of a root.
#[derive(Drop)]
pub struct LinkSurvey {
    /// Of each name the `.link` file of the first folder, by name.
    pub files: Vec<SourceFile>,
    /// Their drop-ins, folder by folder.
    pub drop_ins: Vec<SourceFile>,
    /// The lines on what can't be read.
    pub unread: Vec<u8>,
}

/// Reads the `.link` files of a root, and then the drop-ins of those that no other hides.
pub(crate) fn survey<D: Disk>(alloc: Global, disk: &D, root: &str) -> Result<LinkSurvey, AllocError>
    ensures { IfOk result (IsSurvey (D.may_answer disk.now) root.now) }
{
    let mut unread = Vec::new(alloc);
    let link_visits = visits(alloc, disk, link_places(alloc, root)?)?;
    push_unread_lines(alloc, &link_visits, &mut unread)?;
    let files = order_files(alloc, files_of(alloc, link_visits)?, b".link")?;
    let drop_in_visits = visits(alloc, disk, drop_in_places(alloc, root, &files)?)?;
    push_unread_lines(alloc, &drop_in_visits, &mut unread)?;
    Ok(LinkSurvey {
        files,
        drop_ins: files_of(alloc, drop_in_visits)?,
        unread,
    })
}
