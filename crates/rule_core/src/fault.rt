//! Why rules were not read.

use std::alloc::{AllocError, AllocFailed};
use std::error::Error;
use std::fmt;

/// Why files gave no rules.
#[derive(Clone, Copy, Debug, PartialEq, Eq, Drop)]
pub enum RulesFault {
    /// 1: more than 2^24 tokens are left in their rules.
    TooMany,
    /// 2: memory ran out.
    Memory,
}

impl fmt::Display for RulesFault {
    ghost use Rattle.std.specs.Prelude.{Some};
    ghost use Rattle.rule_core.specs.FaultTexts.{fault_text};

    ghost output = { λ fault. Some (fault_text fault) };

    fn fmt<W: fmt::Write>(&self, f: &mut fmt::Formatter<W>) -> fmt::Result {
        f.write_str(match self {
            RulesFault::TooMany => "too many tokens",
            RulesFault::Memory => "out of memory",
        })
    }
}

impl Error for RulesFault {}

impl From<AllocError> for RulesFault {
    ghost use Rattle.std.specs.Prelude.{◌≡◌};
    ghost use Rattle.rule_core.specs.declared.fault.RulesFault.TheVariants.{Memory};

    ghost from_gives = { λ _ e. e ≡ Memory };

    fn from(_: AllocError) -> RulesFault {
        RulesFault::Memory
    }
}

impl<T: Drop> From<AllocFailed<T>> for RulesFault {
    ghost use Rattle.std.specs.Prelude.{◌≡◌};
    ghost use Rattle.rule_core.specs.declared.fault.RulesFault.TheVariants.{Memory};

    ghost from_gives = { λ _ e. e ≡ Memory };

    fn from(_: AllocFailed<T>) -> RulesFault {
        RulesFault::Memory
    }
}
