//! The interfaces of a USB device, by its file of descriptors.
ghost use Rattle.std.specs.Prelude.{◌≡◌, ◌≤◌, ◌++◌, [], drop, flat_map, IfOk, OnOk, length, fold, option_to_list};
ghost use Rattle.std.specs.List.{filter_map};
ghost use Rattle.builtin_usb.specs.Interfaces.{descriptors_of, interface_of, interfaces, joined, packed, two_digits, with_interface, written};

use std::alloc::{AllocError, Global};

/// The bytes of the descriptor of a device, with which the file begins.
const DEVICE_BYTES: usize = 18;

/// The bytes of the descriptor of an interface.
const INTERFACE_BYTES: usize = 9;

/// The most interfaces that are reported.
const MAX_INTERFACES: usize = 72;

/// The kind of descriptor that describes an interface.
const INTERFACE_KIND: u8 = 4;

/// The digits of a hexadecimal number.
const DIGITS: &[u8; 16] = b"0123456789abcdef";

/// What an interface is for.
#[derive(Clone, Copy, PartialEq, Eq)]
pub(crate) struct Interface {
    class: u8,
    subclass: u8,
    protocol: u8,
}

/// The interfaces of a file of descriptors, and whether the descriptors end as they should.
#[derive(Drop)]
struct Found {
    interfaces: Vec<Interface>,
    is_closed: bool,
}

/// The interface that a descriptor describes, if it is of that kind.
fn interface_of(descriptor: &[u8]) -> Option<Interface>
    requires { 8 ≤ length descriptor.now }
    ensures { result ≡ interface_of descriptor.now }
{
    if descriptor[1] != INTERFACE_KIND {
        return None;
    }
    Some(Interface {
        class: descriptor[5],
        subclass: descriptor[6],
        protocol: descriptor[7],
    })
}

/// Adds the interface that a descriptor describes, if it is of that kind.
fn push_reported(interfaces: &mut Vec<Interface>, descriptor: &[u8]) -> Result<(), AllocError>
    requires { 8 ≤ length descriptor.now }
    ensures { OnOk result (interfaces.new.items ≡ interfaces.old.items ++ option_to_list (interface_of descriptor.now)) }
{
    if let Some(interface) = interface_of(descriptor) {
        interfaces.push(interface)?;
    }
    Ok(())
}

/// What follows so many bytes of a text, nothing if it has no more.
#[tactic(auto, using(std::proofs::lemmas::List::drop_min))]
fn following(text: &[u8], size: usize) -> &[u8]
    ensures { result.now ≡ drop size text.now }
{
    text.split_at(size.min(text.len())).1
}

/// All interfaces of a file.
fn read(alloc: Global, file: &[u8]) -> Result<Found, AllocError>
    requires { 9 ≤ length file.now }
    ensures interfaces { IfOk result (λ found. found.interfaces.items ≡ filter_map interface_of (descriptors_of file.now).from) }
    ensures is_closed { IfOk result (λ found. found.is_closed ≡ (descriptors_of file.now).is_closed) }
{
    let longest = file.len() - INTERFACE_BYTES;
    let mut interfaces = Vec::new(alloc);
    let mut rest = file;
    while rest.len() > INTERFACE_BYTES {
        let size = usize::from(rest[0]);
        if size < 3 {
            break;
        }
        if size > longest {
            return Ok(Found {
                interfaces,
                is_closed: false,
            });
        }
        push_reported(&mut interfaces, rest)?;
        rest = following(rest, size);
    }
    Ok(Found {
        interfaces,
        is_closed: true,
    })
}

/// Adds an interface, unless the same one is there already or there are as many as are reported.
fn add(found: &mut Vec<Interface>, interface: Interface) -> Result<(), AllocError>
    ensures { OnOk result (found.new.items ≡ with_interface found.old.items interface) }
{
    if found.len() < MAX_INTERFACES && !found.contains(&interface) {
        found.push(interface)?;
    }
    Ok(())
}

/// The first of these that differ from those before them, as many as are reported.
fn distinct(alloc: Global, interfaces: &[Interface]) -> Result<Vec<Interface>, AllocError>
    ensures { IfOk result (λ found. found.items ≡ fold with_interface [] interfaces.now) }
{
    let mut found = Vec::new(alloc);
    for interface in interfaces {
        add(&mut found, *interface)?;
    }
    Ok(found)
}

/// A byte as two hexadecimal digits.
fn two_digits(byte: u8) -> [u8; 2]
    ensures { result ≡ two_digits byte }
{
    [
        DIGITS[usize::from(byte / 16)],
        DIGITS[usize::from(byte % 16)],
    ]
}

/// Appends an interface to a text.
fn push_interface(text: &mut Vec<u8>, interface: &Interface) -> Result<(), AllocError>
    ensures { OnOk result (text.new.items ≡ text.old.items ++ written interface.now) }
{
    text.push(b':')?;
    text.extend_from_slice(&two_digits(interface.class))?;
    text.extend_from_slice(&two_digits(interface.subclass))?;
    text.extend_from_slice(&two_digits(interface.protocol))
}

/// Interfaces in one text.
fn joined(alloc: Global, found: &[Interface], is_closed: bool) -> Result<Vec<u8>, AllocError>
    ensures { IfOk result (λ text. text.items ≡ joined found.now is_closed) }
{
    let mut text = Vec::new(alloc);
    for interface in found {
        push_interface(&mut text, interface)?;
    }
    if !found.is_empty() && (is_closed || found.len() == MAX_INTERFACES) {
        text.push(b':')?;
    }
    Ok(text)
}

/// The class, subclass and protocol of each interface that a file of descriptors describes, each once and at most
/// 72: a colon and six hexadecimal digits for each, and a colon at the end. It is empty if there are none or the
/// file has fewer than 18 bytes. A descriptor that is longer than the file allows ends the text without a colon,
/// unless there are 72 interfaces.
///
/// This is what udev of systemd 257 reports.
#[tactic(auto, unfolding(crate::specs::Interfaces::packed))]
pub(crate) fn packed(alloc: Global, file: &[u8]) -> Result<Vec<u8>, AllocError>
    ensures { IfOk result (λ text. text.items ≡ packed file.now) }
{
    if file.len() < DEVICE_BYTES {
        return Ok(Vec::new(alloc));
    }
    let all = read(alloc, file)?;
    let found = distinct(alloc, &all.interfaces)?;
    joined(alloc, &found, all.is_closed)
}
