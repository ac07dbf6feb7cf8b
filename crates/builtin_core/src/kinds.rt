//! What the name of a folder in the path of a device says that it is.
ghost use Rattle.std.specs.Prelude.{◌≡◌};
ghost use Rattle.builtin_core.specs.Kinds.{are_digits, are_ports, are_two, is_at_port, is_function, is_in_slot};
ghost use Rattle.builtin_core.specs.Kinds.{is_interface, is_numbered, is_on_bus, is_place, is_target, kind_of};

use builtin_devices::address_of;
use text_bytes::{following, is_decimal, is_hexadecimal, split_once};

/// The kind of a device, by its name.
#[derive(Clone, Copy)]
pub enum Kind {
    /// A function of PCI, as `0000:00:1f.2`.
    Function,
    /// A root hub of USB, as `usb1`, or a device at a port, as `1-2.3`.
    UsbDevice,
    /// An interface of a USB device, as `1-2.3:1.0`.
    UsbInterface,
    /// A host of SCSI, as `host6`, or a target, as `target6:0:0`.
    ScsiParent,
    /// A SCSI device, as `6:0:0:0`.
    ScsiDevice,
    /// An NVMe controller, as `nvme0`, or subsystem, as `nvme-subsys0`.
    Nvme,
    /// A device of virtio, as `virtio2`.
    Virtio,
    /// A port of a keyboard or mouse, as `serio1`.
    Serio,
    /// An input device, as `input7`.
    Input,
}

/// Whether a text is a number after a start.
fn is_numbered(start: &[u8], text: &[u8]) -> bool
    ensures { result ≡ is_numbered start.now text.now }
{
    match following(start, text) {
        Some(number) => is_decimal(number),
        None => false,
    }
}

/// Whether a text is two numbers with a byte between them.
fn are_two(between: u8, text: &[u8]) -> bool
    ensures { result ≡ are_two between text.now }
{
    match split_once(between, text) {
        Some((first, second)) => is_decimal(first) && is_decimal(second),
        None => false,
    }
}

/// Whether a text is ports: numbers with a dot between each two.
fn are_ports(text: &[u8]) -> bool
    ensures { result ≡ are_ports text.now }
{
    text.split(|byte| *byte == b'.')
        .all(|part| is_decimal(part))
}

/// Whether a name is that of a USB device at a port.
#[tactic(auto, unfolding(crate::specs::Kinds::is_at_port))]
fn is_at_port(name: &[u8]) -> bool
    ensures { result ≡ is_at_port name.now }
{
    match split_once(b'-', name) {
        Some((bus, ports)) => is_decimal(bus) && are_ports(ports),
        None => false,
    }
}

/// Whether a name is that of an interface of a USB device.
#[tactic(auto, unfolding(crate::specs::Kinds::is_interface))]
fn is_interface(name: &[u8]) -> bool
    ensures { result ≡ is_interface name.now }
{
    match split_once(b':', name) {
        Some((device, numbers)) => is_at_port(device) && are_two(b'.', numbers),
        None => false,
    }
}

/// Whether a text is so many hexadecimal digits.
fn are_digits(count: usize, text: &[u8]) -> bool
    ensures { result ≡ are_digits count text.now }
{
    text.len() == count && is_hexadecimal(text)
}

/// Whether a text is `SLOT.FUNCTION`.
#[tactic(auto, unfolding(crate::specs::Kinds::is_in_slot))]
fn is_in_slot(text: &[u8]) -> bool
    ensures { result ≡ is_in_slot text.now }
{
    match split_once(b'.', text) {
        Some((slot, function)) => are_digits(2, slot) && are_digits(1, function),
        None => false,
    }
}

/// Whether a text is `BUS:SLOT.FUNCTION`.
#[tactic(auto, unfolding(crate::specs::Kinds::is_on_bus))]
fn is_on_bus(text: &[u8]) -> bool
    ensures { result ≡ is_on_bus text.now }
{
    match split_once(b':', text) {
        Some((bus, slot)) => are_digits(2, bus) && is_in_slot(slot),
        None => false,
    }
}

/// Whether a name is that of a function of PCI.
#[tactic(auto, unfolding(crate::specs::Kinds::is_function))]
fn is_function(name: &[u8]) -> bool
    ensures { result ≡ is_function name.now }
{
    match split_once(b':', name) {
        Some((domain, place)) => domain.len() >= 4 && is_hexadecimal(domain) && is_on_bus(place),
        None => false,
    }
}

/// Whether a text is `HOST:BUS:TARGET`.
#[tactic(auto, unfolding(crate::specs::Kinds::is_place))]
fn is_place(text: &[u8]) -> bool
    ensures { result ≡ is_place text.now }
{
    match split_once(b':', text) {
        Some((host, rest)) => is_decimal(host) && are_two(b':', rest),
        None => false,
    }
}

/// Whether a name is that of a target of SCSI.
fn is_target(name: &[u8]) -> bool
    ensures { result ≡ is_target name.now }
{
    match following(b"target", name) {
        Some(place) => is_place(place),
        None => false,
    }
}

/// The kind of device that a name says.
#[tactic(auto, unfolding(crate::specs::Kinds::kind_of))]
pub(crate) fn kind_of(name: &[u8]) -> Option<Kind>
    ensures { result ≡ kind_of name.now }
{
    if is_function(name) {
        Some(Kind::Function)
    } else if is_numbered(b"usb", name) || is_at_port(name) {
        Some(Kind::UsbDevice)
    } else if is_interface(name) {
        Some(Kind::UsbInterface)
    } else if is_numbered(b"host", name) || is_target(name) {
        Some(Kind::ScsiParent)
    } else if address_of(name).is_some() {
        Some(Kind::ScsiDevice)
    } else if is_numbered(b"nvme", name) || is_numbered(b"nvme-subsys", name) {
        Some(Kind::Nvme)
    } else if is_numbered(b"virtio", name) {
        Some(Kind::Virtio)
    } else if is_numbered(b"serio", name) {
        Some(Kind::Serio)
    } else if is_numbered(b"input", name) {
        Some(Kind::Input)
    } else {
        None
    }
}
