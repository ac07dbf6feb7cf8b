//! Why a text is not a pattern.

use std::alloc::{AllocError, AllocFailed};
use std::error::Error;
use std::fmt;

/// Why a text is not a pattern or not a choice.
#[derive(Clone, Copy, Debug, PartialEq, Eq, Drop)]
pub enum GlobFault {
    /// 1: a class such as `[[:digit:]]`, which is not supported: among the members of a set a `[` comes directly
    /// before `:`, `.` or `=`.
    Class {
        /// The place of that inner `[` in the text that was passed in, counted from 0.
        at: usize,
    },
    /// 2: the text has more than 16,384 bytes. It comes before all else.
    TooLong,
    /// 3: memory runs out.
    Memory,
}

impl fmt::Display for GlobFault {
    ghost use Rattle.std.specs.Prelude.{Some};
    ghost use Rattle.text_core.specs.FaultTexts.{fault_text};

    ghost output = { λ fault. Some (fault_text fault) };

    fn fmt<W: fmt::Write>(&self, f: &mut fmt::Formatter<W>) -> fmt::Result {
        match self {
            GlobFault::Class { at } => write!(f, "class not supported at byte {at}"),
            GlobFault::TooLong => f.write_str("pattern too long"),
            GlobFault::Memory => f.write_str("out of memory"),
        }
    }
}

impl Error for GlobFault {}

impl From<AllocError> for GlobFault {
    ghost use Rattle.std.specs.Prelude.{◌≡◌};
    ghost use Rattle.text_core.specs.declared.glob_fault.GlobFault.TheVariants.{Memory};

    ghost from_gives = { λ _ e. e ≡ Memory };

    fn from(_: AllocError) -> GlobFault {
        GlobFault::Memory
    }
}

impl<T: Drop> From<AllocFailed<T>> for GlobFault {
    ghost use Rattle.std.specs.Prelude.{◌≡◌};
    ghost use Rattle.text_core.specs.declared.glob_fault.GlobFault.TheVariants.{Memory};

    ghost from_gives = { λ _ e. e ≡ Memory };

    fn from(_: AllocFailed<T>) -> GlobFault {
        GlobFault::Memory
    }
}
