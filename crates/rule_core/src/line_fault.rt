//! Why a joined line is not a rule.

use file_messages::MessageKind;
use rule_types::Spot;
use std::alloc::{AllocError, AllocFailed};

/// Why a joined line is not a rule.
#[derive(Drop)]
pub(crate) enum LineFault {
    /// 1: it is not one, for this reason.
    Wrong(Spot<MessageKind>),
    /// 2: memory ran out.
    Memory,
}

impl From<AllocError> for LineFault {
    ghost use Rattle.std.specs.Prelude.{◌≡◌};
    ghost use Rattle.rule_core.specs.declared.line_fault.LineFault.TheVariants.{Memory};

    ghost from_gives = { λ _ e. e ≡ Memory };

    fn from(_: AllocError) -> LineFault {
        LineFault::Memory
    }
}

impl<T: Drop> From<AllocFailed<T>> for LineFault {
    ghost use Rattle.std.specs.Prelude.{◌≡◌};
    ghost use Rattle.rule_core.specs.declared.line_fault.LineFault.TheVariants.{Memory};

    ghost from_gives = { λ _ e. e ≡ Memory };

    fn from(_: AllocFailed<T>) -> LineFault {
        LineFault::Memory
    }
}
