//! USB: the port of a device or an interface, and the revision of its root hub.
ghost use Rattle.std.specs.Prelude.{◌≡◌, ◌++◌, IfOk, false, option_map, true};
ghost use Rattle.builtin_path.specs.Stops.{adding};
ghost use Rattle.builtin_path.specs.Usb.{by_speed, port_start, protocol_of, revision_needs, revision_of, root, usb_stop};

use crate::members::{Member, row};
use crate::stops::{Stop, absent, needed};
use builtin_devices::{Base, attribute, is_number, is_text, number_in, type_of};
use std::alloc::{AllocError, Global};
use text_bytes::{Bytes, kernel_name, split_once};
use text_tables::OwnedTexts;

/// The revision of USB that a root hub has.
#[derive(Clone, Copy)]
pub(crate) enum Revision {
    /// 1 and 1.1.
    One,
    /// 2.
    Two,
    /// 3.
    Three,
}

/// The last of the devices of USB above one another, the first of which is given: the root hub.
fn root<'m, 'd>(member: &'m Member<'d>, above: &'m [Member<'d>]) -> &'m Member<'d>
    ensures { result.now ≡ root member.now above.now }
{
    match row(b"usb", above).checked_sub(1) {
        Some(place) => above.get(place).unwrap_or(member),
        None => member,
    }
}

/// The revision of a root hub whose protocol is 0.
fn by_speed(speed: Option<&[u8]>) -> Option<Revision>
    ensures { result ≡ by_speed (option_map (λ t. t.now) speed.entry) }
{
    if speed? == b"480".as_slice() {
        Some(Revision::Two)
    } else {
        Some(Revision::One)
    }
}

/// The number of a root hub's protocol.
fn protocol_of(root: &Member<'_>) -> Option<u64>
    ensures { result ≡ protocol_of root.now }
{
    number_in(
        Base::Hexadecimal,
        255,
        attribute(root.device, b"bDeviceProtocol")?,
    )
}

/// The revision of a root hub, if it reports one: by its protocol, and its speed.
#[tactic(auto, unfolding(crate::specs::Usb::revision_of))]
fn revision_of(root: &Member<'_>) -> Option<Revision>
    ensures { result ≡ revision_of root.now }
{
    match protocol_of(root)? {
        0 => by_speed(attribute(root.device, b"speed")),
        1 | 2 => Some(Revision::Two),
        3 => Some(Revision::Three),
        _ => None,
    }
}

/// What the revision of a root hub is read from, and is not there.
#[tactic(auto, unfolding(crate::specs::Usb::revision_needs))]
fn revision_needs(alloc: Global, root: &Member<'_>) -> Result<OwnedTexts, AllocError>
    ensures { IfOk result (λ needs. needs ≡ revision_needs root.now) }
{
    if attribute(root.device, b"bDeviceProtocol").is_none() {
        return needed(alloc, b"bDeviceProtocol");
    }
    if is_number(0, protocol_of(root)) {
        return absent(alloc, b"speed", attribute(root.device, b"speed"));
    }
    Ok(OwnedTexts::new(alloc))
}

/// How the part of a port begins.
fn port_start(revision: Option<Revision>) -> &'static [u8]
    ensures { result.now ≡ port_start revision }
{
    match revision {
        None => b"usb-0:",
        Some(Revision::One) => b"usbv1-0:",
        Some(Revision::Two) => b"usbv2-0:",
        Some(Revision::Three) => b"usbv3-0:",
    }
}

/// What a device with a port adds.
fn port_stop(
    alloc: Global,
    port: &[u8],
    root: &Member<'_>,
    count: usize,
) -> Result<Stop, AllocError>
    ensures { IfOk result (λ stop. stop
        ≡ record (adding (port_start (revision_of root.now) ++ port.now) true false count) { needs = revision_needs root.now }) }
{
    let mut part = Vec::from_slice(alloc, port_start(revision_of(root)))?;
    part.extend_from_slice(port)?;
    let needs = revision_needs(alloc, root)?;
    let mut stop = Stop::adding(alloc, Bytes::new(part), true, false, count);
    stop.needs = needs;
    Ok(stop)
}

/// What a device of subsystem usb adds: a device or an interface at a port adds the port, and the devices of USB above it are skipped.
#[tactic(auto, unfolding(crate::specs::Usb::usb_stop))]
pub(crate) fn usb_stop(
    alloc: Global,
    member: &Member<'_>,
    above: &[Member<'_>],
) -> Result<Stop, AllocError>
    ensures { IfOk result (λ stop. stop ≡ usb_stop member.now above.now) }
{
    let kind = type_of(member.device);
    if !is_text(b"usb_device", kind) && !is_text(b"usb_interface", kind) {
        return Ok(Stop::passing(alloc, true));
    }
    let name = kernel_name(alloc, member.device.path())?;
    let Some((_, port)) = split_once(b'-', name.as_slice()) else {
        return Ok(Stop::passing(alloc, true));
    };
    port_stop(alloc, port, root(member, above), row(b"usb", above))
}
