//! Why a run has nothing to say about its files, or about its index.
ghost use Rattle.std.specs.Prelude.{◌≡◌};

use hwdb_core::HwdbFault;
use rule_core::RulesFault;
use std::alloc::{AllocError, AllocFailed};
use trie_build::IndexFault;

/// Why a run has nothing to say about its files, or about its index.
#[derive(Clone, Copy, PartialEq, Eq, Drop)]
pub enum Refusal {
    /// They hold more than a database may.
    TooManyEntries,
    /// Their rules have too many tokens.
    TooManyRules,
    /// The bytes passed in are not an index: the first check that they fail.
    Index(IndexFault),
    /// Memory ran out.
    Memory,
}

impl From<HwdbFault> for Refusal {
    ghost use Rattle.engine_reports.specs.Reports.{refused_entries};

    ghost from_gives = { λ fault refusal. refusal ≡ refused_entries fault };

    fn from(fault: HwdbFault) -> Refusal {
        match fault {
            HwdbFault::TooMany => Refusal::TooManyEntries,
            HwdbFault::Memory => Refusal::Memory,
        }
    }
}

impl From<RulesFault> for Refusal {
    ghost use Rattle.engine_reports.specs.Reports.{refused_rules};

    ghost from_gives = { λ fault refusal. refusal ≡ refused_rules fault };

    fn from(fault: RulesFault) -> Refusal {
        match fault {
            RulesFault::TooMany => Refusal::TooManyRules,
            RulesFault::Memory => Refusal::Memory,
        }
    }
}

impl From<AllocError> for Refusal {
    ghost use Rattle.engine_reports.specs.declared.refusal.Refusal.TheVariants.{Memory};

    ghost from_gives = { λ _ e. e ≡ Memory };

    fn from(_: AllocError) -> Refusal {
        Refusal::Memory
    }
}

impl<T: Drop> From<AllocFailed<T>> for Refusal {
    ghost use Rattle.engine_reports.specs.declared.refusal.Refusal.TheVariants.{Memory};

    ghost from_gives = { λ _ e. e ≡ Memory };

    fn from(_: AllocFailed<T>) -> Refusal {
        Refusal::Memory
    }
}
