//! Why files could not be read.
ghost use Rattle.std.specs.Prelude.{◌≡◌};
ghost use Rattle.devdry_files.specs.Errors.{fault_of};
ghost use Rattle.devdry_files.specs.declared.fault.ReadFault.TheVariants.{Memory};

use crate::disk::DiskFault;
use std::alloc::{AllocError, AllocFailed};
use std::error::Error;
use std::fmt;

/// Why files could not be read.
#[derive(Debug, Drop)]
pub enum ReadFault {
    /// 1: this file or folder could not be read: its path, with what the line puts before it.
    Path(String),
    /// 2: memory ran out.
    Memory,
}

impl fmt::Display for ReadFault {
    ghost use Rattle.std.specs.Prelude.{Some};
    ghost use Rattle.devdry_files.specs.FaultTexts.{read_text};

    ghost output = { λ fault. Some (read_text fault) };

    fn fmt<W: fmt::Write>(&self, f: &mut fmt::Formatter<W>) -> fmt::Result {
        match self {
            ReadFault::Path(path) => write!(f, "cannot read {path}"),
            ReadFault::Memory => f.write_str("out of memory"),
        }
    }
}

impl Error for ReadFault {}

impl fmt::Display for DiskFault {
    ghost use Rattle.std.specs.Prelude.{Some};
    ghost use Rattle.devdry_files.specs.FaultTexts.{disk_text};

    ghost output = { λ fault. Some (disk_text fault) };

    fn fmt<W: fmt::Write>(&self, f: &mut fmt::Formatter<W>) -> fmt::Result {
        f.write_str(match self {
            DiskFault::Absent => "not found",
            DiskFault::Unreadable => "cannot be read",
            DiskFault::NotUtf8 => "a name is not UTF-8",
            DiskFault::OutOfMemory => "out of memory",
        })
    }
}

impl Error for DiskFault {}

impl From<AllocError> for ReadFault {
    ghost from_gives = { λ _ fault. fault ≡ Memory };

    fn from(_error: AllocError) -> ReadFault {
        ReadFault::Memory
    }
}

impl<T: Drop> From<AllocFailed<T>> for ReadFault {
    ghost from_gives = { λ _ fault. fault ≡ Memory };

    fn from(_error: AllocFailed<T>) -> ReadFault {
        ReadFault::Memory
    }
}

/// The fault of a disk at a path. It takes over the path, so that reporting it needs no memory.
pub fn fault_at(path: String, fault: DiskFault) -> ReadFault
    ensures { result ≡ fault_of path fault }
{
    match fault {
        DiskFault::Absent | DiskFault::Unreadable | DiskFault::NotUtf8 => ReadFault::Path(path),
        DiskFault::OutOfMemory => ReadFault::Memory,
    }
}
