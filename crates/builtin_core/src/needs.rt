//! What the block would have to report for a builtin that goes up from the event device.
ghost use Rattle.std.specs.Prelude.{◌≡◌, [], IfOk, OnOk, map, option_map};
ghost use Rattle.text_tables.specs.Texts.{with_texts};
ghost use Rattle.builtin_core.specs.Needs.{input_needs, is_given, missing, missing_above, missing_everywhere, missing_to_usb};
ghost use Rattle.builtin_core.specs.Needs.{net_needs, other_scheme, path_needs, usb_needs};

use crate::asking::{Asker, asks};
use crate::paths::{is_usb, kind_at, shown_paths};
use crate::virtual_functions::need_physical;
use builtin_devices::{Devices, attribute, is_text, type_of};
use device_core::{Device, Event};
use std::alloc::{AllocError, Global};
use text_bytes::last_component;
use text_tables::OwnedTexts;

/// Whether the block gives a device with a path, and its subsystem.
fn is_given(devices: &Devices<'_>, path: &[u8]) -> bool
    ensures { result ≡ is_given devices.now path.now }
{
    match devices.device_by(path) {
        Some(device) => device.subsystem().is_some(),
        None => false,
    }
}

/// Adds the name of the device with a path, if a builtin asks for it and the block does not give it.
fn need_device(
    alloc: Global,
    devices: &Devices<'_>,
    asker: Asker,
    path: &[u8],
    needs: &mut OwnedTexts,
) -> Result<(), AllocError>
    ensures { OnOk result (needs.new ≡ with_texts needs.old (missing devices.now asker path.now)) }
{
    match kind_at(path) {
        Some(kind) if asks(asker, kind) && !is_given(devices, path) => {
            needs.add(alloc, last_component(path))
        }
        _ => Ok(()),
    }
}

/// Adds the names of those that `usb_id` asks for, up to the first USB device and with that one.
fn need_to_usb(
    alloc: Global,
    devices: &Devices<'_>,
    paths: &[&[u8]],
    needs: &mut OwnedTexts,
) -> Result<(), AllocError>
    ensures { OnOk result (needs.new ≡ with_texts needs.old (missing_to_usb devices.now (map (λ t. t.now) paths.now))) }
{
    for path in paths {
        need_device(alloc, devices, Asker::UsbId, path, needs)?;
        if is_usb(kind_at(path)) {
            return Ok(());
        }
    }
    Ok(())
}

/// Adds the names of those of the devices that a path shows.
fn need_above(
    alloc: Global,
    devices: &Devices<'_>,
    asker: Asker,
    path: &[u8],
    needs: &mut OwnedTexts,
) -> Result<(), AllocError>
    ensures { OnOk result (needs.new ≡ with_texts needs.old (missing_above devices.now asker path.now)) }
{
    let paths = shown_paths(alloc, path)?;
    for path in &paths {
        need_device(alloc, devices, asker, path, needs)?;
    }
    Ok(())
}

/// The names of those of the devices that the event's own path shows, and those of devices outside of its chain.
fn missing_among(
    alloc: Global,
    devices: &Devices<'_>,
    asker: Asker,
) -> Result<OwnedTexts, AllocError>
    ensures { IfOk result (λ needs. needs ≡ with_texts [] (missing_everywhere devices.now asker)) }
{
    let mut needs = OwnedTexts::new(alloc);
    let path = devices.event().device().path();
    need_above(alloc, devices, asker, path, &mut needs)?;
    for other in devices.described() {
        need_above(alloc, devices, asker, other.path(), &mut needs)?;
    }
    Ok(needs)
}

/// The same for an event, whose devices are found first.
fn missing_everywhere(
    alloc: Global,
    event: &Event<'_>,
    asker: Asker,
) -> Result<OwnedTexts, AllocError>
    ensures { IfOk result (λ needs. needs ≡ with_texts [] (missing_everywhere event.now asker)) }
{
    let devices = Devices::new(alloc, event)?;
    missing_among(alloc, &devices, asker)
}

/// Adds a naming scheme that is not known: names by it are not those of v257.
fn need_scheme(
    alloc: Global,
    scheme: Option<&[u8]>,
    needs: &mut OwnedTexts,
) -> Result<(), AllocError>
    ensures { OnOk result (needs.new ≡ with_texts needs.old (other_scheme (option_map (λ t. t.now) scheme.entry))) }
{
    match scheme {
        Some(scheme) if scheme != b"v257".as_slice() && scheme != b"latest".as_slice() => {
            let mut word = Vec::from_slice(alloc, b"scheme ")?;
            word.extend_from_slice(scheme)?;
            needs.add(alloc, &word)
        }
        _ => Ok(()),
    }
}

/// What a block would have to report for `usb_id` about the devices above: the names of those that the event's path
/// shows, up to the USB device, and that have no `P:` line in the block, or no `U:` line.
///
/// There are none if the event device is a USB device itself. systemd.device and sysfs name no rule for such names;
/// they are those that the kernel gives.
#[tactic(auto, unfolding(crate::specs::Needs::usb_needs))]
pub(crate) fn usb_needs(alloc: Global, event: &Event<'_>) -> Result<OwnedTexts, AllocError>
    ensures { IfOk result (λ needs. needs ≡ usb_needs event.now) }
{
    if is_text(b"usb_device", type_of(event.device())) {
        return Ok(OwnedTexts::new(alloc));
    }
    let devices = Devices::new(alloc, event)?;
    let paths = shown_paths(alloc, event.device().path())?;
    let mut needs = OwnedTexts::new(alloc);
    need_to_usb(alloc, &devices, &paths, &mut needs)?;
    Ok(needs)
}

/// What a block would have to report for `path_id` about the devices above: the names of those that the event's path
/// shows, other than input devices, and of those that the paths of devices outside of the chain show.
#[tactic(auto, unfolding(crate::specs::Needs::path_needs))]
pub(crate) fn path_needs(alloc: Global, event: &Event<'_>) -> Result<OwnedTexts, AllocError>
    ensures { IfOk result (λ needs. needs ≡ path_needs event.now) }
{
    missing_everywhere(alloc, event, Asker::PathId)
}

/// What a block would have to report for `input_id` about the devices above: the name of the input device, unless the
/// event device has `capabilities/ev` itself.
#[tactic(auto, unfolding(crate::specs::Needs::input_needs))]
pub(crate) fn input_needs(alloc: Global, event: &Event<'_>) -> Result<OwnedTexts, AllocError>
    ensures { IfOk result (λ needs. needs ≡ input_needs event.now) }
{
    let device = event.device();
    if attribute(device, b"capabilities/ev").is_some() {
        return Ok(OwnedTexts::new(alloc));
    }
    let devices = Devices::new(alloc, event)?;
    let mut needs = OwnedTexts::new(alloc);
    need_above(alloc, &devices, Asker::InputId, device.path(), &mut needs)?;
    Ok(needs)
}

/// What a block would have to report for `net_id` about the devices above: the names of functions of PCI, of interfaces of
/// USB and of devices of virtio that paths show, as for [`path_needs`]; `physfn`, if the configuration of a device of the
/// chain is that of a virtual function and there is no such link; and a naming scheme that the constant `scheme` gives and
/// that is neither `v257` nor `latest`.
#[tactic(auto, unfolding(crate::specs::Needs::net_needs))]
pub(crate) fn net_needs(alloc: Global, event: &Event<'_>) -> Result<OwnedTexts, AllocError>
    ensures { IfOk result (λ needs. needs ≡ net_needs event.now) }
{
    let mut needs = missing_everywhere(alloc, event, Asker::NetId)?;
    need_physical(alloc, event, &mut needs)?;
    need_scheme(alloc, event.constants().get(b"scheme"), &mut needs)?;
    Ok(needs)
}
