//! How the disk of the system looks at what is at a path: what it makes of the replies of the system.
ghost use Rattle.std.specs.IoError.{error_kind};
ghost use Rattle.std.specs.Prelude.{◌≡◌, IfOk, alloc_error, false, ok_or};
ghost use Rattle.devdry_files.specs.Calls.{IsLook, IsSeen, IsTried, looked, shown_by};
ghost use Rattle.devdry_files.specs.Errors.{is_opened, is_refused, look_from};

use crate::look::Look;
use crate::system::{Node, NodeKind, System};
use std::alloc::AllocError;
use std::io;

/// The number of the null device, 1:3 as the system writes it.
pub(crate) const NULL_DEVICE: u64 = 0x103;

/// What a look that failed shows, or nothing if it ran out of memory.
pub(crate) fn failed_look(error: &io::Error) -> Option<Look>
    ensures { result ≡ look_from (error_kind error.now) }
{
    match error.kind() {
        io::ErrorKind::NotFound => Some(Look::Absent),
        io::ErrorKind::NotADirectory => Some(Look::Other),
        io::ErrorKind::PermissionDenied => Some(Look::Forbidden),
        io::ErrorKind::OutOfMemory => None,
        _ => Some(Look::Failed),
    }
}

/// What a look shows of something, by its kind: the null device is a file, which is empty. All else that is neither a
/// folder nor a regular file, such as a FIFO, is kept apart, since it might be waited for.
pub(crate) fn shown_by(kind: NodeKind) -> Look
    ensures { result ≡ shown_by kind }
{
    match kind {
        NodeKind::Folder => Look::Folder,
        NodeKind::File | NodeKind::Device(NULL_DEVICE) => Look::File,
        NodeKind::Link | NodeKind::Device(_) | NodeKind::Other => Look::Other,
    }
}

/// What a look at a path shows before anything is opened.
pub(crate) fn seen_at<S: System>(system: &S, path: &str) -> Result<Look, AllocError>
    ensures { IfOk result (IsSeen (S.may_reply system.now) path.now) }
{
    match system.look(path) {
        Ok(node) => Ok(shown_by(node.kind)),
        Err(error) => failed_look(&error).ok_or(AllocError),
    }
}

/// What a look shows of what is to be opened: what was opened, or why it could not be.
fn tried_at<S: System>(system: &S, path: &str, seen: Look) -> Result<Look, AllocError>
    requires seen { IsSeen (S.may_reply system.now) path.now seen }
    requires ends { is_refused seen path.now ≡ false }
    ensures { IfOk result (IsTried (S.may_reply system.now) path.now) }
{
    match system.open(path, seen) {
        Ok(opened) => Ok(shown_by(opened.node.kind)),
        Err(error) => failed_look(&error).ok_or(AllocError),
    }
}

/// What is at a path: what is there is looked at, and a folder or a file is opened, so that one that may not be opened is
/// recognized.
pub(crate) fn look_at<S: System>(system: &S, path: &str) -> Result<Look, AllocError>
    ensures { IfOk result (IsLook (S.may_reply system.now) path.now) }
{
    let seen = seen_at(system, path)?;
    match seen {
        Look::Folder | Look::File => tried_at(system, path, seen),
        Look::Absent | Look::Forbidden | Look::Other | Look::Failed => Ok(seen),
    }
}
