//! NVMe: the number of a disk's namespace, and the controller by which a disk of several ways is reached.
ghost use Rattle.std.specs.Prelude.{◌≡◌, IfOk, option_copied, option_map};
ghost use Rattle.builtin_path.specs.Nvme.{bare_stop, controller, controller_name, controller_needs, described_controller, namespace_stop, nvme_stop, ways_stop};

use crate::members::{Member, row};
use crate::stops::{Next, Share, Stop, needed};
use crate::texts::{concatenated, leading_digits};
use builtin_devices::{Devices, attribute, file_at, is_text, type_of};
use device_core::{Device, Event};
use std::alloc::{AllocError, Global};
use text_bytes::last_component;
use text_tables::OwnedTexts;

/// The name of the controller of a disk.
#[tactic(auto, unfolding(crate::specs::Nvme::controller_name))]
fn controller_name(name: &[u8]) -> Option<&[u8]>
    ensures { option_map (λ t. t.now) result ≡ controller_name name.now }
{
    let digits = name.strip_prefix(b"nvme")?;
    Some(name.split_at(4 + leading_digits(digits)).0)
}

/// The controller of the disk among the links of its NVMe subsystem, if it is reported.
#[tactic(auto, unfolding(crate::specs::Nvme::described_controller))]
fn described_controller<'d>(
    alloc: Global,
    devices: &'d Devices<'d>,
    subsystem: &Member<'_>,
) -> Result<Option<&'d Device<'d>>, AllocError>
    ensures { IfOk result (λ device. option_copied device ≡ described_controller devices.now subsystem.now) }
{
    let event = devices.event();
    let Some(name) = controller_name(last_component(event.device().path())) else {
        return Ok(None);
    };
    let link = concatenated(alloc, &[subsystem.device.path(), b"/", name])?;
    match file_at(event, link.as_slice()) {
        Some(target) => Ok(devices.device_by(target)),
        None => Ok(None),
    }
}

/// The controller of the disk, if it is reported and is not a virtual device.
pub(crate) fn controller<'d>(
    alloc: Global,
    devices: &'d Devices<'d>,
    subsystem: &Member<'_>,
) -> Result<Option<&'d Device<'d>>, AllocError>
    ensures { IfOk result (λ device. option_copied device ≡ controller devices.now subsystem.now) }
{
    let Some(device) = described_controller(alloc, devices, subsystem)? else {
        return Ok(None);
    };
    if device.path().starts_with(b"/devices/virtual/") {
        return Ok(None);
    }
    Ok(Some(device))
}

/// What the block would have to report about the controller: its name, if the disk's name gives one.
fn controller_needs(
    alloc: Global,
    devices: &Devices<'_>,
    subsystem: &Member<'_>,
) -> Result<OwnedTexts, AllocError>
    ensures { IfOk result (λ needs. needs ≡ controller_needs devices.now subsystem.now) }
{
    if described_controller(alloc, devices, subsystem)?.is_some() {
        return Ok(OwnedTexts::new(alloc));
    }
    match controller_name(last_component(devices.event().device().path())) {
        Some(name) => needed(alloc, name),
        None => Ok(OwnedTexts::new(alloc)),
    }
}

/// A device that adds nothing, as the event device has no namespace, which a whole disk would have.
fn bare_stop(alloc: Global, event: &Event<'_>) -> Result<Stop, AllocError>
    ensures { IfOk result (λ stop. stop ≡ bare_stop event.now) }
{
    let device = event.device();
    let mut stop = Stop::passing(alloc, false);
    if !is_text(b"block", device.subsystem()) || !is_text(b"disk", type_of(device)) {
        return Ok(stop);
    }
    stop.needs = needed(alloc, b"nsid")?;
    Ok(stop)
}

/// A device that adds the number of a namespace; the controllers directly above are skipped.
fn namespace_stop(alloc: Global, nsid: &[u8], above: &[Member<'_>]) -> Result<Stop, AllocError>
    ensures { IfOk result (λ stop. stop ≡ namespace_stop nsid.now above.now) }
{
    let part = concatenated(alloc, &[b"nvme-", nsid])?;
    let mut stop = Stop::adding(alloc, part, true, true, row(b"nvme", above));
    stop.share = Share::Both;
    Ok(stop)
}

/// What a device of subsystem nvme adds.
#[tactic(auto, unfolding(crate::specs::Nvme::nvme_stop))]
pub(crate) fn nvme_stop(
    alloc: Global,
    event: &Event<'_>,
    above: &[Member<'_>],
) -> Result<Stop, AllocError>
    ensures { IfOk result (λ stop. stop ≡ nvme_stop event.now above.now) }
{
    match attribute(event.device(), b"nsid") {
        Some(nsid) => namespace_stop(alloc, nsid, above),
        None => bare_stop(alloc, event),
    }
}

/// What a device of subsystem nvme-subsystem adds.
#[tactic(auto, unfolding(crate::specs::Nvme::ways_stop))]
pub(crate) fn ways_stop(
    alloc: Global,
    devices: &Devices<'_>,
    member: &Member<'_>,
    above: &[Member<'_>],
) -> Result<Stop, AllocError>
    ensures { IfOk result (λ stop. stop ≡ ways_stop devices.now member.now above.now) }
{
    let Some(nsid) = attribute(devices.event().device(), b"nsid") else {
        return bare_stop(alloc, devices.event());
    };
    if controller(alloc, devices, member)?.is_some() {
        return namespace_stop(alloc, nsid, above);
    }
    let mut stop = Stop::ending(false, false, controller_needs(alloc, devices, member)?);
    stop.next = Next::Fails;
    Ok(stop)
}
