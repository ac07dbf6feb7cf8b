//! The disk as the reading sees it.
//!
//! No contract can say what a file of the system holds. So the reading is written over a trait whose ghost member
//! says which answers the disk may give, and its contracts say how what was read comes from such answers: they hold
//! for each disk. A disk over memory says just what it answers; that of the system says which replies of the system its
//! answers come from, and what the system replies is shown only by tests.
ghost use Rattle.std.specs.IoError.{error_kind};
ghost use Rattle.std.specs.Prelude.{◌≡◌, IfErr, IfOk};
ghost use Rattle.devdry_files.specs.Answers.{Answer};
ghost use Rattle.devdry_files.specs.Answers.Answer.{Content, Listing, Looked, NoContent, NoListing, NoOwnContent, OwnContent, Stepped};
ghost use Rattle.devdry_files.specs.Errors.{fault_from};
ghost use Rattle.devdry_files.specs.declared.disk.DiskFault.TheVariants.{OutOfMemory};

use crate::look::Look;
use crate::step::{Identity, Step};
use std::alloc::{AllocError, AllocFailed, Global};
use std::io;
use text_bytes::Bytes;

/// What is in a folder under one name.
#[derive(Drop)]
pub struct Entry {
    /// The name, without the folder.
    pub name: String,
    /// Whether it is a folder, or a symlink to one.
    pub is_folder: bool,
}

/// Why a disk did not answer.
#[derive(Clone, Copy, Debug, PartialEq, Eq)]
pub enum DiskFault {
    /// 1: nothing is at the path.
    Absent,
    /// 2: what is at the path can't be read.
    Unreadable,
    /// 3: the folder at the path has a name that is not UTF-8.
    NotUtf8,
    /// 4: memory ran out.
    OutOfMemory,
}

impl From<AllocError> for DiskFault {
    ghost from_gives = { λ _ fault. fault ≡ OutOfMemory };

    fn from(_error: AllocError) -> DiskFault {
        DiskFault::OutOfMemory
    }
}

impl<T: Drop> From<AllocFailed<T>> for DiskFault {
    ghost from_gives = { λ _ fault. fault ≡ OutOfMemory };

    fn from(_error: AllocFailed<T>) -> DiskFault {
        DiskFault::OutOfMemory
    }
}

impl From<io::Error> for DiskFault {
    ghost from_gives = { λ error fault. fault ≡ fault_from (error_kind error) };

    fn from(error: io::Error) -> DiskFault {
        match error.kind() {
            io::ErrorKind::NotFound => DiskFault::Absent,
            io::ErrorKind::OutOfMemory => DiskFault::OutOfMemory,
            _ => DiskFault::Unreadable,
        }
    }
}

/// Where folders are listed and files are read.
pub trait Disk {
    // the answers that the disk may give
    ghost may_answer: { Self → Answer → Type 0 };

    /// All entries of the folder at a path except `.` and `..`, in any order.
    ///
    /// `DiskFault::Unreadable` means that there is no folder at the path or that the listing fails,
    /// `DiskFault::NotUtf8` that a name in it is not UTF-8.
    fn list(&self, alloc: Global, path: &str) -> Result<Vec<Entry>, DiskFault>
        ensures listed { IfOk result (λ entries.
            may_answer self.now (Listing path.now entries.items)) }
        ensures fault { IfErr result (λ fault. may_answer self.now (NoListing path.now fault)) };

    /// All bytes of the file at a path. A symlink is followed.
    ///
    /// `DiskFault::Unreadable` means that there is a folder at the path, or that the reading fails.
    fn read(&self, alloc: Global, path: &str) -> Result<Bytes, DiskFault>
        ensures read { IfOk result (λ bytes. may_answer self.now (Content path.now bytes)) }
        ensures fault { IfErr result (λ fault. may_answer self.now (NoContent path.now fault)) };

    /// All bytes of the file at a path, if it is the one with this identity, which a step showed there.
    ///
    /// `DiskFault::Unreadable` means that another file is there by now, or that the reading fails.
    fn read_own(&self, alloc: Global, path: &str, identity: Identity) -> Result<Bytes, DiskFault>
        ensures read { IfOk result (λ bytes. may_answer self.now (OwnContent path.now identity bytes)) }
        ensures fault { IfErr result (λ fault. may_answer self.now (NoOwnContent path.now identity fault)) };

    /// What is at a path. A symlink is followed, and nothing is read: a FIFO is not opened, so that a look never
    /// waits.
    fn look(&self, alloc: Global, path: &str) -> Result<Look, AllocError>
        ensures { IfOk result (λ look. may_answer self.now (Looked path.now look)) };

    /// What is at a path, with no symlink followed at its end. Nothing is opened.
    fn step(&self, alloc: Global, path: &str) -> Result<Step, AllocError>
        ensures { IfOk result (λ step. may_answer self.now (Stepped path.now step)) };
}
