//! Which devices usb_id is about.
ghost use Rattle.std.specs.Prelude.{◌≡◌, IfOk, map, option_copied};
ghost use Rattle.builtin_usb.specs.Subjects.{device_of, interface_of, is_untyped, is_usb_device, nearest, unit_of, unsearched, untyped_among};

use crate::kinds::{class_of, takes_scsi};
use builtin_devices::{Devices, is_of, is_text, type_of};
use device_core::Device;
use std::alloc::{AllocError, Global};
use std::marker::Model;

/// A device that is searched for.
#[derive(Drop)]
pub(crate) struct Found<'d, 'a> {
    /// The device, if there is one.
    pub device: Option<&'d Device<'a>>,
    /// Whether the search met a device of the same subsystem that has no type, which may be the one.
    pub is_unsure: bool,
}

impl<'d, 'a> Model for Found<'d, 'a> {
    ghost use Rattle.std.specs.Prelude.{option_copied};
    ghost use Rattle.builtin_usb.specs.Subjects.{FoundValue};

    ghost Value = { FoundValue };

    ghost view = { λ f. record { device = option_copied f.device; is_unsure = f.is_unsure } };
}

/// A device that is not searched for.
fn unsearched<'d, 'a>(device: Option<&'d Device<'a>>) -> Found<'d, 'a>
    ensures { result ≡ unsearched (option_copied device.entry) }
{
    Found {
        device,
        is_unsure: false,
    }
}

/// Whether a device of a subsystem has no type.
pub(crate) fn is_untyped(subsystem: &[u8], device: &Device<'_>) -> bool
    ensures { result ≡ is_untyped subsystem.now device.now }
{
    is_text(subsystem, device.subsystem()) && type_of(device).is_none()
}

/// Whether, before the first of these devices that is of a subsystem and a type, one of the subsystem has no type.
fn untyped_among(subsystem: &[u8], kind: &[u8], devices: &[&Device<'_>]) -> bool
    ensures { result ≡ untyped_among subsystem.now kind.now (map (λ device. device.now) devices.now) }
{
    for device in devices {
        if is_of(subsystem, Some(kind), device) {
            return false;
        }
        if is_untyped(subsystem, device) {
            return true;
        }
    }
    false
}

/// The nearest device above a path that is of a subsystem and a type.
fn nearest<'d, 'a>(
    alloc: Global,
    devices: &'d Devices<'a>,
    subsystem: &[u8],
    kind: &[u8],
    path: &[u8],
) -> Result<Found<'d, 'a>, AllocError>
    ensures { IfOk result (λ found. found ≡ nearest devices.now subsystem.now kind.now path.now) }
{
    let parents = devices.parents_of(alloc, path)?;
    let is_unsure = untyped_among(subsystem, kind, &parents);
    let device = devices.above(alloc, subsystem, Some(kind), path)?;
    Ok(Found { device, is_unsure })
}

/// Whether a device is a USB device by its type.
fn is_usb_device(device: &Device<'_>) -> bool
    ensures { result ≡ is_usb_device device.now }
{
    is_text(b"usb_device", type_of(device))
}

/// The interface above an event device that is not itself a USB device.
pub(crate) fn interface_of<'d, 'a>(
    alloc: Global,
    devices: &'d Devices<'a>,
) -> Result<Found<'d, 'a>, AllocError>
    ensures { IfOk result (λ interface. interface ≡ interface_of devices.now) }
{
    let own = devices.event().device();
    if is_usb_device(own) {
        return Ok(unsearched(None));
    }
    nearest(alloc, devices, b"usb", b"usb_interface", own.path())
}

/// The USB device: the event device, or the one of its interface.
pub(crate) fn device_of<'d, 'a>(
    alloc: Global,
    devices: &'d Devices<'a>,
    interface: Option<&Device<'_>>,
) -> Result<Found<'d, 'a>, AllocError>
    ensures { IfOk result (λ device. device ≡ device_of devices.now (option_copied interface.entry)) }
{
    let own = devices.event().device();
    if is_usb_device(own) {
        return Ok(unsearched(Some(own)));
    }
    match interface {
        Some(interface) if class_of(interface).is_some() => {
            nearest(alloc, devices, b"usb", b"usb_device", interface.path())
        }
        _ => Ok(unsearched(None)),
    }
}

/// The SCSI device that is asked, if there is a USB device.
pub(crate) fn unit_of<'d, 'a>(
    alloc: Global,
    devices: &'d Devices<'a>,
    interface: Option<&Device<'_>>,
    device: Option<&Device<'_>>,
) -> Result<Found<'d, 'a>, AllocError>
    ensures { IfOk result (λ unit. unit ≡ unit_of devices.now (option_copied interface.entry) (option_copied device.entry)) }
{
    match interface {
        Some(interface) if device.is_some() && takes_scsi(interface) => {
            let path = devices.event().device().path();
            nearest(alloc, devices, b"scsi", b"scsi_device", path)
        }
        _ => Ok(unsearched(None)),
    }
}
