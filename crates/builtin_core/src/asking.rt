//! The builtins that go up from the event device, and what they look at.
ghost use Rattle.std.specs.Prelude.{◌≡◌};
ghost use Rattle.builtin_core.specs.Needs.{asks};

use crate::kinds::Kind;

/// A builtin that goes up from the event device.
#[derive(Clone, Copy)]
pub enum Asker {
    /// `usb_id`.
    UsbId,
    /// `path_id`.
    PathId,
    /// `input_id`.
    InputId,
    /// `net_id`.
    NetId,
}

/// Whether a builtin looks at devices of a kind.
pub(crate) fn asks(asker: Asker, kind: Kind) -> bool
    ensures { result ≡ asks asker kind }
{
    match asker {
        Asker::UsbId => matches!(
            kind,
            Kind::UsbDevice | Kind::UsbInterface | Kind::ScsiDevice
        ),
        Asker::PathId => !matches!(kind, Kind::Input),
        Asker::InputId => matches!(kind, Kind::Input),
        Asker::NetId => matches!(kind, Kind::Function | Kind::UsbInterface | Kind::Virtio),
    }
}
