//! What names say about buses other than PCI and USB.
ghost use Rattle.std.specs.Prelude.{◌≡◌, ◌==◌, ◌≤◌, length, option_copied, option_map, IfOk};
ghost use Rattle.std.specs.List.{list_all, list_any, prefix_len};
ghost use Rattle.builtin_net.specs.Allowed.{interface};
ghost use Rattle.builtin_net.specs.Buses.{acpi_text, by_ccw, by_netdevsim, by_platform, by_vio, by_xen, component, is_vendor, is_vendor_byte};
ghost use Rattle.builtin_net.specs.Buses.{parent, parent_after_virtio, trimmed, with_instance};

use crate::allowed::{Attribute, read_own};
use crate::words::{MAX_NUMBER, is_printable, joined, push_number};
use builtin_devices::{Base, Devices, is_of, name_number, number_in, some_text};
use device_core::Device;
use std::alloc::{AllocError, Global};
use text_bytes::{
    begins_with, decimal_below, following, is_hexadecimal, kernel_name, small, split_once, up_to,
};
use text_tables::CowPairs;

/// The device right above the event device.
pub(crate) fn parent<'d, 'a>(
    alloc: Global,
    devices: &'d Devices<'a>,
) -> Result<Option<&'d Device<'a>>, AllocError>
    ensures { IfOk result (λ found. option_copied found ≡ parent devices.now) }
{
    let parents = devices.parents_of(alloc, devices.event().device().path())?;
    Ok(parents.first().copied())
}

/// The nearest device above the event device that is not of virtio.
pub(crate) fn parent_after_virtio<'d, 'a>(
    alloc: Global,
    devices: &'d Devices<'a>,
) -> Result<Option<&'d Device<'a>>, AllocError>
    ensures { IfOk result (λ found. option_copied found ≡ parent_after_virtio devices.now) }
{
    for device in devices.parents_of(alloc, devices.event().device().path())? {
        if !is_of(b"virtio", None, device) {
            return Ok(Some(device));
        }
    }
    Ok(None)
}

/// The component after a folder in the path of the event device, if the device right above is of a subsystem.
#[tactic(auto, unfolding(crate::specs::Buses::component))]
fn component<'a>(
    alloc: Global,
    devices: &Devices<'a>,
    subsystem: &[u8],
    folder: &[u8],
) -> Result<Option<&'a [u8]>, AllocError>
    ensures { IfOk result (λ name. option_map (λ t. t.now) name ≡ component devices.now subsystem.now folder.now) }
{
    let Some(above) = parent(alloc, devices)? else {
        return Ok(None);
    };
    if !is_of(subsystem, None, above) {
        return Ok(None);
    }
    match following(folder, devices.event().device().path()) {
        Some(rest) => Ok(Some(up_to(b'/', rest))),
        None => Ok(None),
    }
}

/// How many bytes at the start of a text are among some marks.
fn start_len(marks: &[u8], text: &[u8]) -> usize
    ensures value { result ≡ prefix_len (λ b. list_any (λ mark. mark == b) marks.now) text.now }
    ensures within { result ≤ length text.now }
{
    text.iter().take_while(|byte| marks.contains(*byte)).count()
}

/// A text without the bytes at its start that are among some marks; if all are, the last one stays.
fn trimmed<'t>(marks: &[u8], text: &'t [u8]) -> &'t [u8]
    ensures { result.now ≡ trimmed marks.now text.now }
{
    let count = start_len(marks, text);
    if count == text.len() {
        return text.split_at(text.len().saturating_sub(1)).1;
    }
    text.split_at(count).1
}

/// What names say about the device of ccw above an interface.
#[tactic(auto, unfolding(crate::specs::Buses::by_ccw))]
pub(crate) fn by_ccw(alloc: Global, devices: &Devices<'_>) -> Result<Option<Vec<u8>>, AllocError>
    ensures { IfOk result (λ text. option_map (λ t. t.items) text ≡ by_ccw devices.now) }
{
    let Some(device) = parent_after_virtio(alloc, devices)? else {
        return Ok(None);
    };
    if !is_of(b"ccwgroup", None, device) && !is_of(b"ccw", None, device) {
        return Ok(None);
    }
    let kernel = kernel_name(alloc, device.path())?;
    let kernel = kernel.as_slice();
    if kernel.len() < 8 || kernel.len() > 9 {
        return Ok(None);
    }
    Ok(Some(joined(alloc, b"c", trimmed(b"0.", kernel))?))
}

/// What names say about the device of vio above an interface.
#[tactic(auto, unfolding(crate::specs::Buses::by_vio))]
pub(crate) fn by_vio(alloc: Global, devices: &Devices<'_>) -> Result<Option<Vec<u8>>, AllocError>
    ensures { IfOk result (λ text. option_map (λ t. t.items) text ≡ by_vio devices.now) }
{
    let Some(name) = component(alloc, devices, b"vio", b"/devices/vio/")? else {
        return Ok(None);
    };
    if name.len() != 8 || !is_hexadecimal(name) {
        return Ok(None);
    }
    let Some(number) = number_in(Base::Hexadecimal, MAX_NUMBER, name.split_at(4).1) else {
        return Ok(None);
    };
    let mut text = Vec::new(alloc);
    push_number(&mut text, b"v", number)?;
    Ok(Some(text))
}

/// Whether a byte is a capital letter or a digit.
fn is_vendor_byte(byte: u8) -> bool
    ensures { result ≡ is_vendor_byte byte }
{
    byte.is_ascii_uppercase() || byte.is_ascii_digit()
}

/// Whether a text has only capital letters and digits.
fn has_vendor_bytes(text: &[u8]) -> bool
    ensures { result ≡ list_all is_vendor_byte text.now }
{
    text.iter().all(|byte| is_vendor_byte(*byte))
}

/// Whether a text names a maker of platform devices.
#[tactic(auto, unfolding(crate::specs::Buses::is_vendor))]
fn is_vendor(text: &[u8]) -> bool
    ensures { result ≡ is_vendor text.now }
{
    match text.len() {
        3 => text.iter().all(|byte| byte.is_ascii_uppercase()),
        4 => has_vendor_bytes(text),
        _ => false,
    }
}

/// Maker, model and instance of a platform device as names of interfaces have them.
fn acpi_text(
    alloc: Global,
    vendor: &[u8],
    model: &[u8],
    instance: u64,
) -> Result<Vec<u8>, AllocError>
    ensures { IfOk result (λ text. text.items ≡ acpi_text vendor.now model.now instance) }
{
    let mut text = Vec::from_slice(alloc, b"a")?;
    text.extend_from_slice(&small(alloc, vendor)?)?;
    let model = trimmed(b"0", model);
    text.extend_from_slice(&small(alloc, model)?)?;
    push_number(&mut text, b"i", instance)?;
    Ok(text)
}

/// A maker, a model and an instance as names of interfaces have them.
#[tactic(auto, unfolding(crate::specs::Buses::with_instance))]
fn with_instance(
    alloc: Global,
    vendor: &[u8],
    model: &[u8],
    instance: &[u8],
) -> Result<Option<Vec<u8>>, AllocError>
    ensures { IfOk result (λ text. option_map (λ t. t.items) text ≡ with_instance vendor.now model.now instance.now) }
{
    if !is_vendor(vendor) || !is_hexadecimal(model) || instance.len() != 2 {
        return Ok(None);
    }
    match number_in(Base::Hexadecimal, MAX_NUMBER, instance) {
        Some(instance) => Ok(Some(acpi_text(alloc, vendor, model, instance)?)),
        None => Ok(None),
    }
}

/// What names say about the platform device above an interface.
#[tactic(auto, unfolding(crate::specs::Buses::by_platform))]
pub(crate) fn by_platform(
    alloc: Global,
    devices: &Devices<'_>,
) -> Result<Option<Vec<u8>>, AllocError>
    ensures { IfOk result (λ text. option_map (λ t. t.items) text ≡ by_platform devices.now) }
{
    let Some(name) = component(alloc, devices, b"platform", b"/devices/platform/")? else {
        return Ok(None);
    };
    let Some((beginning, instance)) = split_once(b':', name) else {
        return Ok(None);
    };
    let (vendor, model) = beginning.split_at(beginning.len().saturating_sub(4));
    with_instance(alloc, vendor, model, instance)
}

/// What names say about the device of Xen above an interface.
#[tactic(auto, unfolding(crate::specs::Buses::by_xen))]
pub(crate) fn by_xen(alloc: Global, devices: &Devices<'_>) -> Result<Option<Vec<u8>>, AllocError>
    ensures { IfOk result (λ text. option_map (λ t. t.items) text ≡ by_xen devices.now) }
{
    let Some(name) = component(alloc, devices, b"xen", b"/devices/")? else {
        return Ok(None);
    };
    let Some(number) = following(b"vif-", name) else {
        return Ok(None);
    };
    let has_zeros = begins_with(b'0', number) && number != b"0".as_slice();
    if has_zeros || decimal_below(1 << 32, number).is_none() {
        return Ok(None);
    }
    Ok(Some(joined(alloc, b"X", number)?))
}

/// What names say about the device of netdevsim above an interface, and about the port.
#[tactic(auto, unfolding(crate::specs::Buses::by_netdevsim))]
pub(crate) fn by_netdevsim(
    alloc: Global,
    devices: &Devices<'_>,
    env: &CowPairs<'_>,
) -> Result<Option<Vec<u8>>, AllocError>
    ensures { IfOk result (λ text. option_map (λ t. t.items) text ≡ by_netdevsim devices.now (interface devices.now env.now)) }
{
    let event = devices.event();
    let Some(device) = devices.above(alloc, b"netdevsim", None, event.device().path())? else {
        return Ok(None);
    };
    let kernel = kernel_name(alloc, device.path())?;
    let Some(digits) = name_number(kernel.as_slice()) else {
        return Ok(None);
    };
    let Some(number) = number_in(Base::AsWritten, MAX_NUMBER, digits) else {
        return Ok(None);
    };
    let Some(port) = some_text(read_own(event, env, Attribute::PhysPortName)) else {
        return Ok(None);
    };
    if !is_printable(port) {
        return Ok(None);
    }
    let mut text = Vec::new(alloc);
    push_number(&mut text, b"i", number)?;
    text.extend_from_slice(b"n")?;
    text.extend_from_slice(port)?;
    Ok(Some(text))
}
