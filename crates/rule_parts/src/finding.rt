//! What is wrong with a part of a rule.
ghost use Rattle.std.specs.Prelude.{◌≡◌, IfOk};
ghost use Rattle.rule_parts.specs.Values.{finding};
ghost use Rattle.rule_parts.specs.Inner.{Reports};

use file_messages::MessageKind;
use std::alloc::{AllocError, AllocFailed, Global};
use text_bytes::{Bytes, word_of};

/// What is wrong with a part of a rule, before it is reported with the place of the rule.
#[derive(Drop)]
pub struct Finding {
    /// What is wrong.
    pub kind: MessageKind,
    /// The first 32 bytes of the text that it is about.
    pub word: Bytes,
}

/// Why a text is not a part of a rule.
#[derive(Drop)]
pub enum PartFault {
    /// 1: it is not one, for this reason.
    Wrong(Finding),
    /// 2: memory ran out.
    Memory,
}

impl From<AllocError> for PartFault {
    ghost use Rattle.std.specs.Prelude.{◌≡◌};
    ghost use Rattle.rule_parts.specs.declared.finding.PartFault.TheVariants.{Memory};

    ghost from_gives = { λ _ e. e ≡ Memory };

    fn from(_: AllocError) -> PartFault {
        PartFault::Memory
    }
}

impl<T: Drop> From<AllocFailed<T>> for PartFault {
    ghost use Rattle.std.specs.Prelude.{◌≡◌};
    ghost use Rattle.rule_parts.specs.declared.finding.PartFault.TheVariants.{Memory};

    ghost from_gives = { λ _ e. e ≡ Memory };

    fn from(_: AllocFailed<T>) -> PartFault {
        PartFault::Memory
    }
}

impl Finding {
    /// What is wrong, reported with the first 32 bytes of the text that it is about.
    pub fn about(alloc: Global, kind: MessageKind, text: &[u8]) -> Result<Finding, AllocError>
        ensures { IfOk result (λ found. found ≡ finding kind text.now) }
    {
        Ok(Finding {
            kind,
            word: Bytes::copy_of(alloc, word_of(text))?,
        })
    }
}

/// What is wrong with a part of a rule, reported with a text.
pub(crate) fn wrong(alloc: Global, kind: MessageKind, text: &[u8]) -> PartFault
    ensures { Reports kind text.now result }
{
    match Finding::about(alloc, kind, text) {
        Ok(found) => PartFault::Wrong(found),
        Err(_) => PartFault::Memory,
    }
}
