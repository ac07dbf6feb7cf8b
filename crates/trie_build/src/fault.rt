//! Why there is no trie.

use std::alloc::{AllocError, AllocFailed};
use std::error::Error;
use std::fmt;

/// Why there is no trie of some entries.
#[derive(Clone, Copy, Debug, PartialEq, Eq, Drop)]
pub enum TrieFault {
    /// 1: there would be more than 2^26 nodes, there are more than 2^24 entries, or the index file would have
    /// more than 2^32 - 1 bytes.
    TooLarge,
    /// 2: memory ran out.
    Memory,
}

impl fmt::Display for TrieFault {
    ghost use Rattle.std.specs.Prelude.{Some};
    ghost use Rattle.trie_build.specs.FaultTexts.{fault_text};

    ghost output = { λ fault. Some (fault_text fault) };

    fn fmt<W: fmt::Write>(&self, f: &mut fmt::Formatter<W>) -> fmt::Result {
        f.write_str(match self {
            TrieFault::TooLarge => "trie too large",
            TrieFault::Memory => "out of memory",
        })
    }
}

impl Error for TrieFault {}

impl From<AllocError> for TrieFault {
    ghost use Rattle.std.specs.Prelude.{◌≡◌};
    ghost use Rattle.trie_build.specs.declared.fault.TrieFault.TheVariants.{Memory};

    ghost from_gives = { λ _ e. e ≡ Memory };

    fn from(_: AllocError) -> TrieFault {
        TrieFault::Memory
    }
}

impl<T: Drop> From<AllocFailed<T>> for TrieFault {
    ghost use Rattle.std.specs.Prelude.{◌≡◌};
    ghost use Rattle.trie_build.specs.declared.fault.TrieFault.TheVariants.{Memory};

    ghost from_gives = { λ _ e. e ≡ Memory };

    fn from(_: AllocFailed<T>) -> TrieFault {
        TrieFault::Memory
    }
}
