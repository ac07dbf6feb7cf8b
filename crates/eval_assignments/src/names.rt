//! Which devices have a name to assign, and what becomes of the bytes of names.
ghost use Rattle.std.specs.Prelude.{◌≡◌, map, IfOk, option_map};
ghost use Rattle.eval_assignments.specs.Names.{has_name, is_foreign, is_interface, is_net, name_byte, name_text};

use crate::escapes::{Escape, with_underscores};
use device_core::Device;
use std::alloc::{AllocError, Global};
use text_bytes::{Bytes, Profile, decimal_below};

/// Whether a device is a network device, by its subsystem.
fn is_net(subsystem: Option<&[u8]>) -> bool
    ensures { result ≡ is_net (option_map (λ t. t.now) subsystem.entry) }
{
    match subsystem {
        Some(subsystem) => subsystem == b"net".as_slice(),
        None => false,
    }
}

/// The numbers of interfaces are below this one.
const INTERFACES: u64 = 1 << 31;

/// Whether a device is an interface for udev (systemd 257): its property IFINDEX, as the kernel gives it, is a
/// decimal number from 1 to 2,147,483,647.
pub fn is_interface(device: &Device<'_>) -> bool
    ensures { result ≡ is_interface device.now }
{
    let index = device.env().get(b"IFINDEX").unwrap_or(b"");
    match decimal_below(INTERFACES, index) {
        Some(number) => number > 0,
        None => false,
    }
}

/// Whether a device has a name to assign: for the manual one of the subsystem net, for udev an interface.
pub(crate) fn has_name(profile: Profile, device: &Device<'_>) -> bool
    ensures { result ≡ has_name profile device.now }
{
    match profile {
        Profile::Manual => is_net(device.subsystem()),
        Profile::Udev => is_interface(device),
    }
}

/// Whether udev puts `_` instead of a byte of a name.
fn is_foreign(byte: u8) -> bool
    ensures { result ≡ is_foreign byte }
{
    byte <= b' ' || byte >= 0x7F || byte == b':' || byte == b'/' || byte == b'%'
}

/// A byte of a name for udev.
fn name_byte(byte: u8) -> u8
    ensures { result ≡ name_byte byte }
{
    if is_foreign(byte) { b'_' } else { byte }
}

/// A name for udev, with `_` for each byte that does not belong there.
fn name_bytes(alloc: Global, text: &[u8]) -> Result<Vec<u8>, AllocError>
    ensures { IfOk result (λ name. name.items ≡ map name_byte text.now) }
{
    text.iter().map(|byte| name_byte(*byte)).collect(alloc)
}

/// A name that is assigned; its bytes are replaced unless the rule keeps them.
pub(crate) fn name_text(
    alloc: Global,
    profile: Profile,
    escape: Escape,
    text: Bytes,
) -> Result<Bytes, AllocError>
    ensures { IfOk result (λ name. name ≡ name_text profile escape text) }
{
    match escape {
        Escape::Keep => Ok(text),
        _ => match profile {
            Profile::Manual => Ok(Bytes::new(with_underscores(alloc, text.as_slice())?)),
            Profile::Udev => Ok(Bytes::new(name_bytes(alloc, text.as_slice())?)),
        },
    }
}
