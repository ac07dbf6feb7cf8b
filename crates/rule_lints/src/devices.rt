//! W5 and W26: what a rule asks one device for is of different devices, or of network devices.
ghost use Rattle.std.specs.Prelude.{◌≡◌, map, option_map};
ghost use Rattle.rule_lints.specs.Devices.{asked, group_by_stem, group_in_subsystem, group_named, group_of, group_of_plain, group_of_up, is_interface_name};
ghost use Rattle.rule_lints.specs.Devices.{is_kind, is_of_net, is_other, number, stranger};

use crate::parts::is_equal;
use crate::texts::{has_byte, rest_after_first};
use rule_tokens::Token;
use rule_types::{Part, PlainKey, UpKey, WrittenPart};
use text_tables::is_among;

/// A kind of devices.
#[derive(Clone, Copy, PartialEq, Eq)]
pub(crate) enum Group {
    /// USB devices.
    UsbDevice,
    /// Interfaces of USB devices.
    UsbInterface,
    /// Input devices.
    Input,
    /// PCI devices.
    Pci,
    /// Terminals.
    Tty,
    /// Network devices.
    Net,
    /// Disks and partitions.
    Block,
    /// Raw HID devices.
    Hidraw,
    /// Sound devices.
    Sound,
    /// Video devices.
    Video,
}

/// Which device a match asks for.
#[derive(Clone, Copy, PartialEq, Eq)]
pub(crate) enum Side {
    /// That of the event.
    Event,
    /// One device of the chain.
    Chain,
}

/// Attributes of a USB device, and of none of its interfaces.
const USB_DEVICE_NAMES: [&[u8]; 10] = [
    b"idVendor",
    b"idProduct",
    b"bcdDevice",
    b"bDeviceClass",
    b"bDeviceSubClass",
    b"bDeviceProtocol",
    b"bNumConfigurations",
    b"bNumInterfaces",
    b"busnum",
    b"devnum",
];

/// Attributes of an interface of a USB device.
const USB_INTERFACE_NAMES: [&[u8]; 6] = [
    b"bInterfaceNumber",
    b"bInterfaceClass",
    b"bInterfaceSubClass",
    b"bInterfaceProtocol",
    b"bAlternateSetting",
    b"bNumEndpoints",
];

/// Attributes of an input device.
const INPUT_NAMES: [&[u8]; 4] = [b"id/vendor", b"id/product", b"id/version", b"id/bustype"];

/// Attributes of a PCI device.
const PCI_NAMES: [&[u8]; 2] = [b"subsystem_vendor", b"subsystem_device"];

/// Drivers of interfaces of USB devices, and of no other devices.
const INTERFACE_DRIVERS: [&[u8]; 16] = [
    b"cdc_acm",
    b"cdc_ether",
    b"cdc_mbim",
    b"cdc_ncm",
    b"ch341",
    b"cp210x",
    b"ftdi_sio",
    b"option",
    b"pl2303",
    b"qcserial",
    b"qmi_wwan",
    b"snd-usb-audio",
    b"uas",
    b"usb-storage",
    b"usbhid",
    b"uvcvideo",
];

/// What the kernel's names of devices of a kind begin with.
const STEMS: [(&[u8], Group); 13] = [
    (b"ttyUSB", Group::Tty),
    (b"ttyACM", Group::Tty),
    (b"ttyS", Group::Tty),
    (b"sda", Group::Block),
    (b"sdb", Group::Block),
    (b"sdc", Group::Block),
    (b"sd[a-z]", Group::Block),
    (b"sd?", Group::Block),
    (b"mmcblk", Group::Block),
    (b"eth", Group::Net),
    (b"wlan", Group::Net),
    (b"hidraw", Group::Hidraw),
    (b"video", Group::Video),
];

/// The token of a side with which W5 is reported: the first that asks for another kind of devices than the first token
/// that asks for one.
pub(crate) fn stranger<'w, 'a>(
    side: Side,
    tokens: &'w [WrittenPart<'a>],
) -> Option<&'w WrittenPart<'a>>
    ensures { option_map (λ w. w.now) result ≡ stranger side tokens.now }
{
    let mut first = None;
    for written in tokens {
        let group = group_of(side, &written.part);
        match first {
            None => first = group,
            Some(known) => {
                if is_other(known, group) {
                    return Some(written);
                }
            }
        }
    }
    None
}

/// What W5 is reported with: the text in braces, or the key.
pub(crate) fn asked<'a>(token: &Token<'a>) -> &'a [u8]
    ensures { result.now ≡ asked token.now }
{
    match token.attribute() {
        None => token.key(),
        Some(name) => name,
    }
}

/// The kind of devices that alone meets a part that asks for a device of a side.
fn group_of(side: Side, part: &Part) -> Option<Group>
    ensures { result ≡ group_of side part.now }
{
    match (side, part) {
        (Side::Event, Part::Plain(found)) if is_equal(found.wanted.operator) => {
            group_of_plain(&found.key, found.wanted.written.as_slice())
        }
        (Side::Chain, Part::Up(found)) if is_equal(found.wanted.operator) => {
            group_of_up(&found.key, found.wanted.written.as_slice())
        }
        _ => None,
    }
}

/// The kind of devices that alone meets a match of the event by `==`. One of several names of the kernel is not known.
fn group_of_plain(key: &PlainKey, value: &[u8]) -> Option<Group>
    ensures { result ≡ group_of_plain key.now value.now }
{
    match key {
        PlainKey::Attr(name) => group_named(name.as_slice()),
        PlainKey::Subsystem => group_in_subsystem(value),
        PlainKey::Kernel if !has_byte(b'|', value) => group_by_stem(&STEMS, value),
        _ => None,
    }
}

/// The kind of devices that alone meets a match of one device of the chain by `==`.
fn group_of_up(key: &UpKey, value: &[u8]) -> Option<Group>
    ensures { result ≡ group_of_up key.now value.now }
{
    match key {
        UpKey::Attrs(name) => group_named(name.as_slice()),
        UpKey::Subsystems => group_in_subsystem(value),
        UpKey::Kernels => is_interface_name(value).then_some(Group::UsbInterface),
        UpKey::Drivers => is_among(&INTERFACE_DRIVERS, value).then_some(Group::UsbInterface),
        UpKey::Tags => None,
    }
}

/// The kind of the first of these stems that a text begins with.
fn group_by_stem(rows: &[(&[u8], Group)], text: &[u8]) -> Option<Group>
    ensures { result ≡ group_by_stem (map (λ row. (row.0.now, row.1)) rows.now) text.now }
{
    for row in rows {
        if text.starts_with(row.0) {
            return Some(row.1);
        }
    }
    None
}

/// Whether a value asks for the name of an interface of a USB device: it has a `:` after a `-`.
fn is_interface_name(value: &[u8]) -> bool
    ensures { result ≡ is_interface_name value.now }
{
    !has_byte(b'|', value) && has_byte(b':', rest_after_first(b'-', value))
}

/// The kind of devices that alone is in a subsystem.
fn group_in_subsystem(name: &[u8]) -> Option<Group>
    ensures { result ≡ group_in_subsystem name.now }
{
    if name == b"input".as_slice() {
        Some(Group::Input)
    } else if name == b"pci".as_slice() {
        Some(Group::Pci)
    } else if name == b"tty".as_slice() {
        Some(Group::Tty)
    } else if name == b"net".as_slice() {
        Some(Group::Net)
    } else if name == b"block".as_slice() {
        Some(Group::Block)
    } else if name == b"hidraw".as_slice() {
        Some(Group::Hidraw)
    } else if name == b"sound".as_slice() {
        Some(Group::Sound)
    } else if name == b"video4linux".as_slice() {
        Some(Group::Video)
    } else {
        None
    }
}

/// The kind of devices that alone has an attribute.
fn group_named(name: &[u8]) -> Option<Group>
    ensures { result ≡ group_named name.now }
{
    if is_among(&USB_DEVICE_NAMES, name) {
        Some(Group::UsbDevice)
    } else if is_among(&USB_INTERFACE_NAMES, name) {
        Some(Group::UsbInterface)
    } else if is_among(&INPUT_NAMES, name) {
        Some(Group::Input)
    } else if is_among(&PCI_NAMES, name) {
        Some(Group::Pci)
    } else {
        None
    }
}

/// Whether there is a group, and it is not this one.
fn is_other(group: Group, found: Option<Group>) -> bool
    ensures { result ≡ is_other group found }
{
    match found {
        None => false,
        Some(found) => number(group) != number(found),
    }
}

/// Whether a rule holds for network devices alone: one of its matches is met by no others.
pub(crate) fn is_of_net(tokens: &[WrittenPart<'_>]) -> bool
    ensures { result ≡ is_of_net tokens.now }
{
    tokens.iter().any(|written| is_kind(Group::Net, group_of(Side::Event, &written.part)))
}

/// Whether there is a group, and it is this one.
fn is_kind(group: Group, found: Option<Group>) -> bool
    ensures { result ≡ is_kind group found }
{
    match found {
        None => false,
        Some(found) => number(group) == number(found),
    }
}

/// How many kinds come before a kind.
fn number(group: Group) -> u8
    ensures { result ≡ number group }
{
    match group {
        Group::UsbDevice => 0,
        Group::UsbInterface => 1,
        Group::Input => 2,
        Group::Pci => 3,
        Group::Tty => 4,
        Group::Net => 5,
        Group::Block => 6,
        Group::Hidraw => 7,
        Group::Sound => 8,
        Group::Video => 9,
    }
}
