//! Why database files are not read.

use std::alloc::{AllocError, AllocFailed};
use std::error::Error;
use std::fmt;

/// Why database files are not read.
#[derive(Clone, Copy, Debug, PartialEq, Eq, Drop)]
pub enum HwdbFault {
    /// 1: there is more than a database may hold: over 2^24 entries, over 2^25 - 1 bytes of matches
    /// that give entries, over 2^30 bytes of keys and values over all entries, or over 2^28 bytes of
    /// the names of the files.
    TooMany,
    /// 2: memory ran out.
    Memory,
}

impl fmt::Display for HwdbFault {
    ghost use Rattle.std.specs.Prelude.{Some};
    ghost use Rattle.hwdb_core.specs.FaultTexts.{fault_text};

    ghost output = { λ fault. Some (fault_text fault) };

    fn fmt<W: fmt::Write>(&self, f: &mut fmt::Formatter<W>) -> fmt::Result {
        f.write_str(match self {
            HwdbFault::TooMany => "too many entries",
            HwdbFault::Memory => "out of memory",
        })
    }
}

impl Error for HwdbFault {}

impl From<AllocError> for HwdbFault {
    ghost use Rattle.std.specs.Prelude.{◌≡◌};
    ghost use Rattle.hwdb_core.specs.declared.fault.HwdbFault.TheVariants.{Memory};

    ghost from_gives = { λ _ e. e ≡ Memory };

    fn from(_: AllocError) -> HwdbFault {
        HwdbFault::Memory
    }
}

impl<T: Drop> From<AllocFailed<T>> for HwdbFault {
    ghost use Rattle.std.specs.Prelude.{◌≡◌};
    ghost use Rattle.hwdb_core.specs.declared.fault.HwdbFault.TheVariants.{Memory};

    ghost from_gives = { λ _ e. e ≡ Memory };

    fn from(_: AllocFailed<T>) -> HwdbFault {
        HwdbFault::Memory
    }
}
