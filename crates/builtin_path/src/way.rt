//! The way up from the event device: which devices it passes, and what they add.
ghost use Rattle.std.specs.Prelude.{◌≡◌, ◌++◌, ◌+◌, ◌≤◌, ◌||◌, IfOk, false, is_some, length, option_copied, take};
ghost use Rattle.builtin_path.specs.Way.{below_subsystem, from_device, members_of, stops_from, way_by};

use crate::members::Member;
use crate::nvme::controller;
use crate::stops::{Stop, following};
use crate::table::stop;
use builtin_devices::{Devices, attribute};
use device_core::Device;
use std::alloc::{AllocError, Global};

/// A device and those above it.
fn from_device<'d>(
    alloc: Global,
    devices: &'d Devices<'d>,
    device: &'d Device<'d>,
) -> Result<Vec<Member<'d>>, AllocError>
    ensures { IfOk result (λ members. members.items ≡ from_device devices.now device.now) }
{
    let mut members = Vec::new(alloc);
    members.push(Member { device })?;
    for parent in devices.parents_of(alloc, device.path())? {
        members.push(Member { device: parent })?;
    }
    Ok(members)
}

/// How many devices a list begins with that are not an NVMe subsystem.
fn below_subsystem(members: &[Member<'_>]) -> usize
    ensures value { result ≡ below_subsystem members.now }
    ensures within { result ≤ length members.now }
{
    members
        .iter()
        .take_while(|member| !member.is_in(b"nvme-subsystem"))
        .count()
}

/// The controller by which a disk of several ways is reached.
fn way_by<'d>(
    alloc: Global,
    devices: &'d Devices<'d>,
    members: &[Member<'_>],
) -> Result<Option<&'d Device<'d>>, AllocError>
    ensures { IfOk result (λ device. option_copied device ≡ way_by devices.now members.now) }
{
    if attribute(devices.event().device(), b"nsid").is_none() {
        return Ok(None);
    }
    match members.get(below_subsystem(members)) {
        Some(subsystem) => controller(alloc, devices, subsystem),
        None => Ok(None),
    }
}

/// The devices up to the first NVMe subsystem, and others after them.
fn proceeding<'d>(
    mut members: Vec<Member<'d>>,
    others: Vec<Member<'d>>,
) -> Result<Vec<Member<'d>>, AllocError>
    ensures { IfOk result (λ all. all.items ≡ take (below_subsystem members.entry.items + 1) members.entry.items ++ others.entry.items) }
{
    let below = below_subsystem(&members);
    members.truncate(below + 1);
    for other in others {
        members.push(other)?;
    }
    Ok(members)
}

/// The devices of the way.
#[tactic(auto, unfolding(crate::specs::Way::members_of))]
pub(crate) fn members_of<'d>(
    alloc: Global,
    devices: &'d Devices<'d>,
) -> Result<Vec<Member<'d>>, AllocError>
    ensures { IfOk result (λ members. members.items ≡ members_of devices.now) }
{
    let members = from_device(alloc, devices, devices.event().device())?;
    match way_by(alloc, devices, &members)? {
        Some(controller) => proceeding(members, from_device(alloc, devices, controller)?),
        None => Ok(members),
    }
}

/// Whether a device has added a part: one of those below, or this one.
fn is_begun_above(is_begun: bool, stop: &Stop) -> bool
    ensures { result ≡ (is_begun || is_some stop.now.part) }
{
    is_begun || stop.part.is_some()
}

/// What devices add, from the first up.
#[tactic(auto, using(crate::proofs::Skipping::skipped))]
pub(crate) fn stops_from(
    alloc: Global,
    devices: &Devices<'_>,
    members: &[Member<'_>],
) -> Result<Vec<Stop>, AllocError>
    ensures { IfOk result (λ stops. stops.items ≡ stops_from devices.now false 0 members.now) }
{
    let mut stops = Vec::new(alloc);
    let mut is_begun = false;
    let mut left = members;
    while let Some((member, above)) = left.split_first() {
        let here = stop(alloc, devices, is_begun, member, above)?;
        is_begun = is_begun_above(is_begun, &here);
        left = following(here.next, above);
        stops.push(here)?;
    }
    Ok(stops)
}
