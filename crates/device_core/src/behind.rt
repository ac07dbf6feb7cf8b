//! Properties behind commands: at the end of a block, where commands and their answers stand, a property is one of the
//! farthest parent, which is seldom what was meant.
ghost use Rattle.std.specs.Prelude.{◌≡◌, option_map};
ghost use Rattle.device_core.specs.Steps.{behind};
ghost use Rattle.device_core.specs.Blocks.{behind_after, nothing_behind};

use crate::lines::{DeviceField, LineKind};
use crate::parts::pair_of;

/// What the lines about the last device have of commands, and of properties behind them.
#[derive(Clone, Copy)]
pub(crate) struct Behind<'a> {
    /// Whether there is a command.
    pub(crate) has_command: bool,
    /// The name of the first property behind one.
    pub(crate) property: Option<&'a [u8]>,
}

/// No command, and nothing behind one.
pub(crate) fn nothing_behind<'a>() -> Behind<'a>
    ensures { behind result ≡ nothing_behind }
{
    Behind {
        has_command: false,
        property: None,
    }
}

impl<'a> Behind<'a> {
    /// One line more, after its kind.
    #[tactic(auto, unfolding(crate::specs::Parts::pair_of))]
    pub(crate) fn after(self, kind: LineKind, rest: &'a [u8]) -> Behind<'a>
        ensures { behind result ≡ behind_after (behind self.entry) kind rest.now }
    {
        match kind {
            LineKind::Device => nothing_behind(),
            LineKind::Command => Behind {
                has_command: true,
                property: self.property,
            },
            LineKind::Field(DeviceField::Property) if self.has_command && self.property.is_none() =>
                Behind {
                    has_command: true,
                    property: match pair_of(rest) {
                        Some((name, _)) => Some(name),
                        None => None,
                    },
                },
            _ => self,
        }
    }
}
