//! What a SCSI device adds by its transport.
ghost use Rattle.std.specs.Prelude.{◌≡◌, ◌∷◌, [], IfOk, codes, find, option_copied, option_map, ◌≤◌};
ghost use Rattle.text_bytes.specs.Kernels.{last_component};
ghost use Rattle.builtin_path.specs.Members.{begins, class_attribute_at, from_first};
ghost use Rattle.builtin_path.specs.Scsi.{ata_place, ata_port_stop, ata_stop, braced, fibre_stop, guid_stop, iscsi_stop, portal_attribute, portal_needs, portal_stop};
ghost use Rattle.builtin_path.specs.Scsi.{session_stop};

use crate::members::{Member, attribute_at, class_attribute_at, from_first};
use crate::scsi::unit_text;
use crate::stops::{Share, Stop, lost};
use crate::texts::{after_first, concatenated, first_bytes};
use builtin_devices::{Address, address_of, attribute, name_number};
use itoa::Buffer;
use std::alloc::{AllocError, Global};
use text_bytes::{Bytes, begins_with};
use text_tables::OwnedTexts;

/// What a disk of Fibre Channel adds: the port of its target.
#[tactic(auto, unfolding(crate::specs::Scsi::fibre_stop))]
pub(crate) fn fibre_stop(
    alloc: Global,
    member: &Member<'_>,
    above: &[Member<'_>],
) -> Result<Stop, AllocError>
    ensures { IfOk result (λ stop. stop ≡ fibre_stop member.now above.now) }
{
    let devices = from_first(b"scsi_target", above);
    let Some(port) = class_attribute_at(alloc, devices, 0, b"fc_transport", b"port_name")? else {
        return lost(alloc, b"port_name", true);
    };
    let unit = unit_text(alloc, member)?;
    let part = concatenated(alloc, &[b"fc-", port, b"-", unit.as_slice()])?;
    Ok(Stop::adding(alloc, part, true, true, 0))
}

/// An attribute of the connection 0 of a session.
fn portal_attribute<'d>(
    alloc: Global,
    name: &[u8],
    session: &Member<'d>,
) -> Result<Option<&'d [u8]>, AllocError>
    ensures { IfOk result (λ text. option_map (λ t. t.now) text ≡ portal_attribute name.now session.now) }
{
    let Some(number) = name_number(session.component()) else {
        return Ok(None);
    };
    let path = concatenated(
        alloc,
        &[
            b"connection",
            number,
            b":0/iscsi_connection/connection",
            number,
            b":0/",
            name,
        ],
    )?;
    Ok(attribute(session.device, path.as_slice()))
}

/// What the block would have to report about a portal.
fn portal_needs(
    alloc: Global,
    address: Option<&[u8]>,
    port: Option<&[u8]>,
) -> Result<OwnedTexts, AllocError>
    ensures { IfOk result (λ needs. needs ≡ portal_needs (option_map (λ t. t.now) address.entry) (option_map (λ t. t.now) port.entry)) }
{
    let mut needs = OwnedTexts::new(alloc);
    if address.is_none() {
        needs.add(alloc, b"persistent_address")?;
    }
    if port.is_none() {
        needs.add(alloc, b"persistent_port")?;
    }
    Ok(needs)
}

/// What a disk of iSCSI adds, by the portal and the target of its session.
fn portal_stop<'t>(
    alloc: Global,
    member: &Member<'_>,
    target: &'t [u8],
    address: Option<&'t [u8]>,
    port: Option<&'t [u8]>,
) -> Result<Stop, AllocError>
    ensures { IfOk result (λ stop. stop ≡ portal_stop member.now target.now (option_map (λ t. t.now) address.entry) (option_map (λ t. t.now) port.entry)) }
{
    let Some(portal) = address else {
        return Ok(Stop::ending(true, true, portal_needs(alloc, address, port)?));
    };
    let Some(number) = port else {
        return Ok(Stop::ending(true, true, portal_needs(alloc, address, port)?));
    };
    let unit = unit_text(alloc, member)?;
    let part = concatenated(
        alloc,
        &[
            b"ip-",
            portal,
            b":",
            number,
            b"-iscsi-",
            target,
            b"-",
            unit.as_slice(),
        ],
    )?;
    Ok(Stop::adding(alloc, part, true, true, 0))
}

/// What a disk of iSCSI adds, by its session and the target there.
fn target_stop(
    alloc: Global,
    member: &Member<'_>,
    session: &Member<'_>,
    target: &[u8],
) -> Result<Stop, AllocError>
    ensures { IfOk result (λ stop. stop
        ≡ portal_stop member.now target.now (portal_attribute (codes "persistent_address") session.now)
        (portal_attribute (codes "persistent_port") session.now)) }
{
    let address = portal_attribute(alloc, b"persistent_address", session)?;
    let port = portal_attribute(alloc, b"persistent_port", session)?;
    portal_stop(alloc, member, target, address, port)
}

/// What a disk of iSCSI adds, by its session.
fn session_stop(
    alloc: Global,
    member: &Member<'_>,
    session: &Member<'_>,
) -> Result<Stop, AllocError>
    ensures { IfOk result (λ stop. stop ≡ session_stop member.now session.now) }
{
    match session.class_attribute(alloc, b"iscsi_session", b"targetname")? {
        Some(target) => target_stop(alloc, member, session, target),
        None => lost(alloc, b"targetname", true),
    }
}

/// Whether a device is a session of iSCSI, by its name.
fn is_session(member: &Member<'_>) -> bool
    ensures { result ≡ begins (codes "session") (last_component member.now.path) }
{
    member.component().starts_with(b"session")
}

/// The nearest session of iSCSI.
fn nearest_session<'m, 'd>(above: &'m [Member<'d>]) -> Option<&'m Member<'d>>
    ensures { option_copied result ≡ find (λ device. begins (codes "session") (last_component device.path)) above.now }
{
    above.iter().find(|member| is_session(member))
}

/// What a disk of iSCSI adds, by the nearest session.
#[tactic(auto, unfolding(crate::specs::Scsi::iscsi_stop))]
pub(crate) fn iscsi_stop(
    alloc: Global,
    member: &Member<'_>,
    above: &[Member<'_>],
) -> Result<Stop, AllocError>
    ensures { IfOk result (λ stop. stop ≡ iscsi_stop member.now above.now) }
{
    match nearest_session(above) {
        Some(session) => session_stop(alloc, member, session),
        None => Ok(Stop::ending(true, true, OwnedTexts::new(alloc))),
    }
}

/// The place of a disk at a port of ATA.
fn ata_place(alloc: Global, place: Address) -> Result<Bytes, AllocError>
    ensures { IfOk result (λ text. text ≡ ata_place place) }
{
    let mut buffer = Buffer::new();
    if place.bus == 0 {
        Bytes::copy_of(alloc, buffer.format(place.target).as_bytes())
    } else {
        concatenated(alloc, &[buffer.format(place.bus).as_bytes(), b".0"])
    }
}

/// What a disk of ATA adds, by the number of its port and its place there.
fn ata_port_stop(alloc: Global, place: Address, port: Option<&[u8]>) -> Result<Stop, AllocError>
    ensures { IfOk result (λ stop. stop ≡ ata_port_stop place (option_map (λ t. t.now) port.entry)) }
{
    let Some(port) = port else {
        return lost(alloc, b"port_no", false);
    };
    let place = ata_place(alloc, place)?;
    let part = concatenated(alloc, &[b"ata-", port, b".", place.as_slice()])?;
    let mut stop = Stop::adding(alloc, part, true, false, 0);
    stop.share = Share::Ata(concatenated(alloc, &[b"ata-", port])?);
    Ok(stop)
}

/// What a disk of ATA adds, by its address: the port is right above its host.
fn placed_ata_stop(alloc: Global, place: Address, above: &[Member<'_>]) -> Result<Stop, AllocError>
    ensures { IfOk result (λ stop. stop
        ≡ ata_port_stop place (class_attribute_at (from_first (codes "scsi_host") above.now) 1 (codes "ata_port") (codes "port_no"))) }
{
    let devices = from_first(b"scsi_host", above);
    let port = class_attribute_at(alloc, devices, 1, b"ata_port", b"port_no")?;
    ata_port_stop(alloc, place, port)
}

/// What a disk of ATA adds.
#[tactic(auto, unfolding(crate::specs::Scsi::ata_stop))]
pub(crate) fn ata_stop(
    alloc: Global,
    member: &Member<'_>,
    above: &[Member<'_>],
) -> Result<Stop, AllocError>
    ensures { IfOk result (λ stop. stop ≡ ata_stop member.now above.now) }
{
    match address_of(member.component()) {
        Some(place) => placed_ata_stop(alloc, place, above),
        None => Ok(Stop::ending(true, false, OwnedTexts::new(alloc))),
    }
}

/// What is between the braces, without `-`.
fn braced(alloc: Global, size: usize, text: &[u8]) -> Result<Bytes, AllocError>
    ensures { IfOk result (λ bytes. bytes ≡ braced size text.now) }
{
    let inner = first_bytes(size.saturating_sub(2), after_first(1, text));
    let bytes = inner
        .iter()
        .copied()
        .filter(|byte| *byte != b'-')
        .collect(alloc)?;
    Ok(Bytes::new(bytes))
}

/// What a disk of Hyper-V adds, by the name of the device above its host, which has so many bytes with its braces.
#[tactic(auto, unfolding(crate::specs::Scsi::guid_stop))]
pub(crate) fn guid_stop(
    alloc: Global,
    member: &Member<'_>,
    above: &[Member<'_>],
    size: usize,
) -> Result<Stop, AllocError>
    requires { 1 ≤ size }
    ensures { IfOk result (λ stop. stop ≡ guid_stop member.now above.now size) }
{
    let devices = from_first(b"scsi_host", above);
    let Some(guid) = attribute_at(devices, 1, b"device_id") else {
        return lost(alloc, b"device_id", false);
    };
    if !begins_with(b'{', guid) || guid.get(size - 1) != Some(&b'}') {
        return Ok(Stop::ending(true, false, OwnedTexts::new(alloc)));
    }
    let name = braced(alloc, size, guid)?;
    let unit = unit_text(alloc, member)?;
    let part = concatenated(alloc, &[b"vmbus-", name.as_slice(), b"-", unit.as_slice()])?;
    Ok(Stop::adding(alloc, part, true, false, 0))
}
