//! Why a text is not a template.

use std::alloc::{AllocError, AllocFailed};
use std::error::Error;
use std::fmt;

/// Why a text is not a template: the first fault from the left.
#[derive(Clone, Copy, Debug, PartialEq, Eq, Drop)]
pub enum TemplateFault {
    /// 1: a `$` or `%` that no name follows, or one of the refused names, `$sysfs` and `$tempnode`.
    Unknown,
    /// 2: no `{name}` after a name that needs one, an empty one, or one that is not closed.
    Brace,
    /// 3: the braces after `$result` or `%c` hold neither N nor N+, with N from 1 to 65535.
    Number,
    /// 4: memory ran out.
    Memory,
}

impl fmt::Display for TemplateFault {
    ghost use Rattle.std.specs.Prelude.{Some};
    ghost use Rattle.rule_tokens.specs.TemplateFaultTexts.{fault_text};

    ghost output = { λ fault. Some (fault_text fault) };

    fn fmt<W: fmt::Write>(&self, f: &mut fmt::Formatter<W>) -> fmt::Result {
        f.write_str(match self {
            TemplateFault::Unknown => "unknown substitution",
            TemplateFault::Brace => "name in braces expected",
            TemplateFault::Number => "word number expected",
            TemplateFault::Memory => "out of memory",
        })
    }
}

impl Error for TemplateFault {}

impl From<AllocError> for TemplateFault {
    ghost use Rattle.std.specs.Prelude.{◌≡◌};
    ghost use Rattle.rule_tokens.specs.declared.fault.TemplateFault.TheVariants.{Memory};

    ghost from_gives = { λ _ e. e ≡ Memory };

    fn from(_: AllocError) -> TemplateFault {
        TemplateFault::Memory
    }
}

impl<T: Drop> From<AllocFailed<T>> for TemplateFault {
    ghost use Rattle.std.specs.Prelude.{◌≡◌};
    ghost use Rattle.rule_tokens.specs.declared.fault.TemplateFault.TheVariants.{Memory};

    ghost from_gives = { λ _ e. e ≡ Memory };

    fn from(_: AllocFailed<T>) -> TemplateFault {
        TemplateFault::Memory
    }
}
