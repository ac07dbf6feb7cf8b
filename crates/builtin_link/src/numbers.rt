//! Numbers that an interface reports about itself.
ghost use Rattle.std.specs.Prelude.{◌≡◌};
ghost use Rattle.builtin_link.specs.Numbers.{own_number};

use builtin_devices::{Base, attribute, number_in};
use device_core::Event;

/// The greatest number of 32 bits.
pub(crate) const MAX_NUMBER: u64 = u32::MAX as u64;

/// The number of 32 bits that an attribute of the interface is.
pub(crate) fn own_number(event: &Event<'_>, name: &[u8]) -> Option<u64>
    ensures { result ≡ own_number event.now name.now }
{
    number_in(
        Base::AsWritten,
        MAX_NUMBER,
        attribute(event.device(), name)?,
    )
}
