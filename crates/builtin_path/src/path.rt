//! path_id: what is made from the parts.
ghost use Rattle.std.specs.Prelude.{◌≡◌, ◌++◌, ◌≤◌, IfOk, OnOk, filter_map, is_some, length, map, not, option_map, reverse};
ghost use Rattle.std.specs.List.{list_any, prefix_len};
ghost use Rattle.text_tables.specs.Texts.{with_texts};
ghost use Rattle.builtin_path.specs.Path.{compatible_pairs, compatible_parts, is_ata, is_failing, is_reached, is_whole, lacks_type, needs, path_id, properties_of};
ghost use Rattle.builtin_path.specs.Path.{shared, type_needs};

use crate::members::Member;
use crate::revisions::plain_path;
use crate::stops::{Next, Share, Stop, needed};
use crate::tags::tag;
use crate::texts::joined;
use crate::way::{members_of, stops_from};
use builtin_devices::{BuiltinOutcome, Devices, add_property, is_text, type_of};
use device_core::Event;
use std::alloc::{AllocError, Global};
use text_bytes::Bytes;
use text_tables::OwnedTexts;

/// What a stop adds to the path.
fn part_of(stop: &Stop) -> Option<&[u8]>
    ensures { option_map (λ t. t.now) result ≡ stop.now.part }
{
    match &stop.part {
        Some(part) => Some(part.as_slice()),
        None => None,
    }
}

/// What a stop adds to the compatible path.
fn shared(stop: &Stop) -> Option<&[u8]>
    ensures { option_map (λ t. t.now) result ≡ shared stop.now }
{
    match &stop.share {
        Share::Apart => None,
        Share::Both => part_of(stop),
        Share::Ata(port) => Some(port.as_slice()),
    }
}

/// Whether a stop is a port of ATA.
fn is_ata(share: &Share) -> bool
    ensures { result ≡ is_ata share.now }
{
    match share {
        Share::Ata(_) => true,
        _ => false,
    }
}

/// The parts that stops add, the lowest first.
fn parts_up(alloc: Global, stops: &[Stop]) -> Result<Vec<&[u8]>, AllocError>
    ensures { IfOk result (λ found. map (λ t. t.now) found.items ≡ filter_map (λ s. s.part) stops.now) }
{
    let mut parts = Vec::new(alloc);
    for stop in stops {
        if let Some(part) = part_of(stop) {
            parts.push(part)?;
        }
    }
    Ok(parts)
}

/// What stops add to the compatible path, the lowest first.
fn shares_up(alloc: Global, stops: &[Stop]) -> Result<Vec<&[u8]>, AllocError>
    ensures { IfOk result (λ found. map (λ t. t.now) found.items ≡ filter_map shared stops.now) }
{
    let mut parts = Vec::new(alloc);
    for stop in stops {
        if let Some(part) = shared(stop) {
            parts.push(part)?;
        }
    }
    Ok(parts)
}

/// Texts in reverse order.
#[tactic(auto, using(crate::proofs::Reversing::reversed))]
fn reversed<'t>(mut texts: Vec<&'t [u8]>) -> Vec<&'t [u8]>
    ensures { map (λ t. t.now) result.items ≡ reverse (map (λ t. t.now) texts.entry.items) }
{
    texts.reverse();
    texts
}

/// How many stops a list begins with that are not a port of ATA.
fn below_ata(stops: &[Stop]) -> usize
    ensures value { result ≡ prefix_len (λ s. not (is_ata s.share)) stops.now }
    ensures within { result ≤ length stops.now }
{
    stops.iter().take_while(|stop| !is_ata(&stop.share)).count()
}

/// The parts of the compatible path, the highest first: those from the first port of ATA up.
fn compatible_parts(alloc: Global, stops: &[Stop]) -> Result<Vec<&[u8]>, AllocError>
    ensures { IfOk result (λ found. map (λ t. t.now) found.items ≡ compatible_parts stops.now) }
{
    let (_, begun) = stops.split_at(below_ata(stops));
    Ok(reversed(shares_up(alloc, begun)?))
}

/// Whether path_id fails if the way goes on so.
fn is_failing(next: Next) -> bool
    ensures { result ≡ is_failing next }
{
    match next {
        Next::Fails => true,
        _ => false,
    }
}

/// Whether a stop makes path_id fail.
fn has_failing(stops: &[Stop]) -> bool
    ensures { result ≡ list_any (λ s. is_failing s.next) stops.now }
{
    stops.iter().any(|stop| is_failing(stop.next))
}

/// Whether a stop adds a part.
fn has_part(stops: &[Stop]) -> bool
    ensures { result ≡ list_any (λ s. is_some s.part) stops.now }
{
    stops.iter().any(|stop| stop.part.is_some())
}

/// Whether a stop is a known parent.
fn has_parent(stops: &[Stop]) -> bool
    ensures { result ≡ list_any (λ s. s.parent) stops.now }
{
    stops.iter().any(|stop| stop.parent)
}

/// Whether a stop is a known transport.
fn has_transport(stops: &[Stop]) -> bool
    ensures { result ≡ list_any (λ s. s.transport) stops.now }
{
    stops.iter().any(|stop| stop.transport)
}

/// Whether the event device is not a block device, or is reached by a known transport.
fn is_reached(event: &Event<'_>, stops: &[Stop]) -> bool
    ensures { result ≡ is_reached event.now stops.now }
{
    !is_text(b"block", event.device().subsystem()) || has_transport(stops)
}

/// Whether stops are a path.
#[tactic(auto, unfolding(crate::specs::Path::is_whole))]
fn is_whole(event: &Event<'_>, stops: &[Stop]) -> bool
    ensures { result ≡ is_whole event.now stops.now }
{
    !has_failing(stops) && has_part(stops) && has_parent(stops) && is_reached(event, stops)
}

/// Adds the compatible path, if there is one.
fn add_compatible(
    alloc: Global,
    stops: &[Stop],
    properties: &mut Vec<(Bytes, Bytes)>,
) -> Result<(), AllocError>
    ensures { OnOk result (properties.new.items ≡ properties.old.items ++ compatible_pairs (compatible_parts stops.now)) }
{
    let parts = compatible_parts(alloc, stops)?;
    if parts.is_empty() {
        return Ok(());
    }
    let text = joined(alloc, &parts)?;
    add_property(alloc, b"ID_PATH_ATA_COMPAT", text.as_slice(), properties)
}

/// What path_id sets for stops.
#[tactic(auto, unfolding(crate::specs::Path::properties_of))]
fn properties_of(alloc: Global, stops: &[Stop]) -> Result<Vec<(Bytes, Bytes)>, AllocError>
    ensures { IfOk result (λ properties. properties.items ≡ properties_of stops.now) }
{
    let mut properties = Vec::new(alloc);
    let parts = reversed(parts_up(alloc, stops)?);
    let text = joined(alloc, &parts)?;
    let path = plain_path(alloc, text.as_slice(), &mut properties)?;
    let tag = tag(alloc, path.as_slice())?;
    add_property(alloc, b"ID_PATH", path.as_slice(), &mut properties)?;
    add_property(alloc, b"ID_PATH_TAG", tag.as_slice(), &mut properties)?;
    add_compatible(alloc, stops, &mut properties)?;
    Ok(properties)
}

/// Whether a device of usb or scsi has no type, though each of these has one.
fn lacks_type(member: &Member<'_>) -> bool
    ensures { result ≡ lacks_type member.now }
{
    (member.is_in(b"usb") || member.is_in(b"scsi")) && type_of(member.device).is_none()
}

/// Whether there is such a device.
fn has_untyped(members: &[Member<'_>]) -> bool
    ensures { result ≡ list_any lacks_type members.now }
{
    members.iter().any(|member| lacks_type(member))
}

/// What a block would have to report about types.
fn type_needs(alloc: Global, members: &[Member<'_>]) -> Result<OwnedTexts, AllocError>
    ensures { IfOk result (λ needs. needs ≡ type_needs members.now) }
{
    if has_untyped(members) {
        needed(alloc, b"DEVTYPE")
    } else {
        Ok(OwnedTexts::new(alloc))
    }
}

/// What a block would have to report.
#[tactic(auto, unfolding(crate::specs::Path::needs))]
fn needs(alloc: Global, members: &[Member<'_>], stops: &[Stop]) -> Result<OwnedTexts, AllocError>
    ensures { IfOk result (λ texts. texts ≡ needs members.now stops.now) }
{
    let mut needs = type_needs(alloc, members)?;
    for stop in stops {
        add_needs(alloc, stop.needs.as_slice(), &mut needs)?;
    }
    Ok(needs)
}

/// Adds texts that are not there yet.
fn add_needs(alloc: Global, more: &[Vec<u8>], needs: &mut OwnedTexts) -> Result<(), AllocError>
    ensures { OnOk result (needs.new ≡ with_texts needs.old (map (λ t. t.items) more.now)) }
{
    for need in more {
        needs.add(alloc, need)?;
    }
    Ok(())
}

/// What the builtin path_id of udev (systemd 257) makes of an event: the path by which its device is reached.
///
/// It goes up from the event device, along the devices of the block. Each device adds a part by its subsystem, and the
/// parts are joined by `-`, the highest first. It fails if no device adds a part, if none is a known kind of parent, if
/// a block device has no known transport, if the block does not say which hosts are beside a SCSI host, and if the
/// controller of an NVMe disk with several paths is virtual or not in the block.
///
/// `ID_PATH_WITH_USB_REVISION` is set if a USB port reports its revision, then `ID_PATH` and `ID_PATH_TAG`, and
/// `ID_PATH_ATA_COMPAT` if there is a port of ATA.
pub fn path_id(alloc: Global, event: &Event<'_>) -> Result<BuiltinOutcome, AllocError>
    ensures { IfOk result (λ outcome. outcome ≡ path_id event.now) }
{
    let devices = Devices::new(alloc, event)?;
    outcome_of(alloc, &devices)
}

/// The outcome of path_id over the devices of an event.
#[tactic(auto, unfolding(crate::specs::Path::path_id, crate::specs::Way::stops_of))]
fn outcome_of(alloc: Global, devices: &Devices<'_>) -> Result<BuiltinOutcome, AllocError>
    ensures { IfOk result (λ outcome. outcome ≡ path_id devices.now) }
{
    let members = members_of(alloc, devices)?;
    let stops = stops_from(alloc, devices, &members)?;
    let missing = needs(alloc, &members, &stops)?;
    if !is_whole(devices.event(), &stops) {
        return Ok(BuiltinOutcome::failing(alloc, missing));
    }
    Ok(BuiltinOutcome::succeeding(properties_of(alloc, &stops)?, missing))
}
