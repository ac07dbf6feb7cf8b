//! What can be wrong with an event block, and in which line.

use std::alloc::{AllocError, AllocFailed};
use std::error::Error;
use std::fmt;

/// A fault and its line, counted from 1.
#[derive(Clone, Copy, Debug, PartialEq, Eq)]
pub struct BlockFault {
    /// The line, counted from 1.
    pub line: usize,
    /// What is wrong with it.
    pub kind: BlockFaultKind,
}

/// What is wrong with a line of an event block.
#[derive(Clone, Copy, Debug, PartialEq, Eq)]
pub enum BlockFaultKind {
    /// 1: the first line is not a `C:`, or its action is empty.
    NoAction,
    /// 2: a line about a device comes before the first `P:`, or the block has no `P:`.
    NoDevice,
    /// 3: the line is not a known letter, `:`, one space and a rest.
    Letter,
    /// 4: what may be given once is given again.
    Twice,
    /// 5: the path is not that of a device, or not that of a parent of the device before.
    Path,
    /// 6: a device number or an exit status is invalid.
    Number,
    /// 7: a name, a text or the line that belongs to this one is missing.
    Pair,
    /// 8: the line has a NUL byte.
    Nul,
    /// 9: the block has more than 65,536 bytes; the line is that of the first byte too many.
    TooLong,
    /// 10: the line begins the 65th device.
    TooDeep,
    /// 11: memory ran out.
    Memory,
}

impl BlockFaultKind {
    ghost use Rattle.std.specs.Prelude.{◌≡◌};
    ghost use Rattle.device_core.specs.FaultTexts.{kind_text};

    /// The kind in words, as the line on a faulty block gives it.
    pub fn text(self) -> &'static str
        ensures { result.now ≡ kind_text self }
    {
        match self {
            BlockFaultKind::NoAction => "no action",
            BlockFaultKind::NoDevice => "no device",
            BlockFaultKind::Letter => "unknown line",
            BlockFaultKind::Twice => "given twice",
            BlockFaultKind::Path => "path",
            BlockFaultKind::Number => "number",
            BlockFaultKind::Pair => "pair",
            BlockFaultKind::Nul => "nul byte",
            BlockFaultKind::TooLong => "too long",
            BlockFaultKind::TooDeep => "too deep",
            BlockFaultKind::Memory => "out of memory",
        }
    }
}

impl fmt::Display for BlockFaultKind {
    ghost use Rattle.std.specs.Prelude.{Some};
    ghost use Rattle.device_core.specs.FaultTexts.{kind_text};

    ghost output = { λ kind. Some (kind_text kind) };

    fn fmt<W: fmt::Write>(&self, f: &mut fmt::Formatter<W>) -> fmt::Result {
        f.write_str(self.text())
    }
}

impl fmt::Display for BlockFault {
    ghost use Rattle.std.specs.Prelude.{Some};
    ghost use Rattle.device_core.specs.FaultTexts.{fault_text};

    ghost output = { λ fault. Some (fault_text fault) };

    fn fmt<W: fmt::Write>(&self, f: &mut fmt::Formatter<W>) -> fmt::Result {
        write!(f, "line {}: {}", self.line, self.kind)
    }
}

impl Error for BlockFault {}

impl From<AllocError> for BlockFaultKind {
    ghost use Rattle.device_core.specs.declared.faults.BlockFaultKind.TheVariants.{Memory};
    ghost use Rattle.std.specs.Prelude.{◌≡◌};

    ghost from_gives = { λ _ e. e ≡ Memory };

    fn from(_error: AllocError) -> BlockFaultKind {
        BlockFaultKind::Memory
    }
}

impl<T: Drop> From<AllocFailed<T>> for BlockFaultKind {
    ghost use Rattle.device_core.specs.declared.faults.BlockFaultKind.TheVariants.{Memory};
    ghost use Rattle.std.specs.Prelude.{◌≡◌};

    ghost from_gives = { λ _ e. e ≡ Memory };

    fn from(_error: AllocFailed<T>) -> BlockFaultKind {
        BlockFaultKind::Memory
    }
}
