//! What is met at the path of a file.
ghost use Rattle.std.specs.Prelude.{◌≡◌, IfOk};
ghost use Rattle.devdry_folders.specs.Meetings.{IsFileMet, IsLinkAt, IsMet, IsMetBy, IsReadSo, absence};

use crate::reasons::Reason;
use crate::sights::Met;
use devdry_files::{Disk, DiskFault, Look, Step};
use std::alloc::{AllocError, Global};
use text_bytes::Bytes;

/// The outcome of reading the file at a path.
fn read_at<D: Disk>(alloc: Global, disk: &D, path: &str) -> Result<Met, AllocError>
    ensures { IfOk result (IsReadSo (D.may_answer disk.now) path.now) }
{
    match disk.read(alloc, path) {
        Ok(bytes) => Ok(Met::File(bytes)),
        Err(DiskFault::Absent) => Ok(Met::Unread(Reason::Absent)),
        Err(DiskFault::Unreadable) => Ok(Met::Unread(Reason::Failed)),
        Err(DiskFault::NotUtf8) => Ok(Met::Unread(Reason::NotUtf8)),
        Err(DiskFault::OutOfMemory) => Err(AllocError),
    }
}

/// Where the symlink at a path leads, as it is written, or `?` if that is not UTF-8; nothing if there is none.
pub(crate) fn link_at<D: Disk>(
    alloc: Global,
    disk: &D,
    path: &str,
) -> Result<Option<Bytes>, AllocError>
    ensures { IfOk result (IsLinkAt (D.may_answer disk.now) path.now) }
{
    match disk.step(alloc, path)? {
        Step::Link(target) => Ok(Some(Bytes::new(target.into_bytes()))),
        Step::OddLink => Ok(Some(Bytes::copy_of(alloc, b"?")?)),
        Step::Folder | Step::File(_) | Step::NoWay(_) => Ok(None),
    }
}

/// Why nothing is at a path, by the target of the symlink there, if there is one.
fn absence(link: Option<Bytes>) -> Reason
    ensures { result ≡ absence link }
{
    match link {
        Some(target) => Reason::LinkToNothing(target),
        None => Reason::Absent,
    }
}

/// What is met at a path, by a look at it.
pub(crate) fn met_by<D: Disk>(
    alloc: Global,
    disk: &D,
    path: &str,
    look: Look,
) -> Result<Met, AllocError>
    ensures { IfOk result (IsMetBy (D.may_answer disk.now) path.now look) }
{
    match look {
        Look::Absent => Ok(Met::Unread(absence(link_at(alloc, disk, path)?))),
        Look::Folder => Ok(Met::Folder),
        Look::File => read_at(alloc, disk, path),
        Look::Forbidden => Ok(Met::Unread(Reason::Forbidden)),
        Look::Other => Ok(Met::Unread(Reason::NotRegular)),
        Look::Failed => Ok(Met::Unread(Reason::Failed)),
    }
}

/// What is met at a path: it is looked at, and read if a file is there.
pub(crate) fn met_at<D: Disk>(alloc: Global, disk: &D, path: &str) -> Result<Met, AllocError>
    ensures { IfOk result (IsMet (D.may_answer disk.now) path.now) }
{
    let look = disk.look(alloc, path)?;
    met_by(alloc, disk, path, look)
}

/// What is met at a path where only a file is taken: a folder there can't be read.
pub(crate) fn file_met_at<D: Disk>(alloc: Global, disk: &D, path: &str) -> Result<Met, AllocError>
    ensures { IfOk result (IsFileMet (D.may_answer disk.now) path.now) }
{
    let met = met_at(alloc, disk, path)?;
    match met {
        Met::Folder => Ok(Met::Unread(Reason::NotRegular)),
        Met::File(_) | Met::OtherName | Met::Unread(_) => Ok(met),
    }
}
