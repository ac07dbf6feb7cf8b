//! What a SCSI device of every other transport adds: its address, by the hosts beside its own.
ghost use Rattle.std.specs.Prelude.{◌≡◌, [], IfOk, false, map, option_map, option_copied, true};
ghost use Rattle.std.specs.Option.{option_map_or};
ghost use Rattle.text_bytes.specs.Kernels.{last_component};
ghost use Rattle.builtin_path.specs.Stops.{ending};
ghost use Rattle.builtin_path.specs.Scsi.{beside_host, host_name, host_names, host_part, host_stop, lower, lowest, other_stop};

use crate::members::{Member, below_first};
use crate::stops::{Next, Stop, needed};
use crate::texts::{after_first, concatenated};
use builtin_devices::{Address, Base, address_of, number_in};
use itoa::Buffer;
use std::alloc::{AllocError, Global};
use text_bytes::{Bytes, last_component_len, split_once};
use text_tables::{OwnedTexts, is_among};

/// The name of a folder `host*` in which an attribute is.
fn host_name(name: &[u8]) -> Option<&[u8]>
    ensures { option_map (λ t. t.now) result ≡ host_name name.now }
{
    let (folder, _) = split_once(b'/', name)?;
    if folder.starts_with(b"host") {
        Some(folder)
    } else {
        None
    }
}

/// The folders of hosts in the folder of a device.
#[tactic(auto, unfolding(crate::specs::Scsi::host_names))]
fn host_names<'d>(alloc: Global, member: &Member<'d>) -> Result<Vec<&'d [u8]>, AllocError>
    ensures { IfOk result (λ names. map (λ t. t.now) names.items ≡ host_names member.now) }
{
    let mut names = Vec::new(alloc);
    for (name, _) in member.device.attrs().as_map().iter() {
        if let Some(host) = host_name(name) {
            names.push(host)?;
        }
    }
    Ok(names)
}

/// The lower of two numbers, the first of which may be absent.
fn lower(lowest: Option<u64>, number: u64) -> Option<u64>
    ensures { result ≡ lower lowest number }
{
    match lowest {
        None => Some(number),
        Some(other) => Some(other.min(number)),
    }
}

/// The lowest number of folders of hosts.
#[tactic(auto, unfolding(crate::specs::Scsi::lowest))]
fn lowest(names: &[&[u8]]) -> Option<u64>
    ensures { result ≡ lowest (map (λ t. t.now) names.now) }
{
    let mut lowest = None;
    for name in names {
        if let Some(number) = number_in(Base::Decimal, (1 << 32) - 1, after_first(4, name)) {
            lowest = lower(lowest, number);
        }
    }
    lowest
}

/// The address of a device, whose first number counts from the lowest of its hosts.
fn host_part(alloc: Global, place: Address, first: u64) -> Result<Bytes, AllocError>
    ensures { IfOk result (λ part. part ≡ host_part place first) }
{
    let mut host = Buffer::new();
    let mut bus = Buffer::new();
    let mut target = Buffer::new();
    let mut unit = Buffer::new();
    concatenated(
        alloc,
        &[
            b"scsi-",
            host.format(place.host.saturating_sub(first)).as_bytes(),
            b":",
            bus.format(place.bus).as_bytes(),
            b":",
            target.format(place.target).as_bytes(),
            b":",
            unit.format(place.unit).as_bytes(),
        ],
    )
}

/// What a device adds, by its host and the folders of hosts beside it.
fn host_stop(
    alloc: Global,
    place: Address,
    count: usize,
    host: &[u8],
    hosts: &[&[u8]],
) -> Result<Stop, AllocError>
    ensures { IfOk result (λ stop. stop ≡ host_stop place count host.now (map (λ t. t.now) hosts.now)) }
{
    if !is_among(hosts, host) {
        let mut stop = Stop::ending(true, false, needed(alloc, b"host*")?);
        stop.next = Next::Fails;
        return Ok(stop);
    }
    let Some(first) = lowest(hosts) else {
        let mut stop = Stop::passing(alloc, true);
        stop.next = Next::On(count);
        return Ok(stop);
    };
    let part = host_part(alloc, place, first)?;
    Ok(Stop::adding(alloc, part, true, false, count))
}

/// The folders of hosts beside a host.
fn beside_host<'d>(
    alloc: Global,
    host: &Member<'d>,
    above: Option<&Member<'d>>,
) -> Result<Vec<&'d [u8]>, AllocError>
    ensures { IfOk result (λ names. map (λ t. t.now) names.items ≡ beside_host host.now (option_copied above.entry)) }
{
    let Some(above) = above else {
        return Ok(Vec::new(alloc));
    };
    let path = host.device.path();
    let (folder, _) = path.split_at(path.len().saturating_sub(last_component_len(path) + 1));
    if above.device.path() != folder {
        return Ok(Vec::new(alloc));
    }
    host_names(alloc, above)
}

/// What a device adds, by its host and the device above that.
fn nearest_host_stop(
    alloc: Global,
    place: Address,
    count: usize,
    host: Option<&Member<'_>>,
    above: Option<&Member<'_>>,
) -> Result<Stop, AllocError>
    ensures { IfOk result (λ stop. stop
        ≡ option_map_or (λ host. host_stop place count (last_component host.path) (beside_host host (option_copied above.entry)))
        (option_copied host.entry) (ending true false [])) }
{
    let Some(host) = host else {
        return Ok(Stop::ending(true, false, OwnedTexts::new(alloc)));
    };
    let hosts = beside_host(alloc, host, above)?;
    host_stop(alloc, place, count, host.component(), &hosts)
}

/// What a device whose path shows no transport adds, by its address and the hosts above it.
#[tactic(auto, unfolding(crate::specs::Scsi::other_stop))]
pub(crate) fn other_stop(
    alloc: Global,
    member: &Member<'_>,
    above: &[Member<'_>],
) -> Result<Stop, AllocError>
    ensures { IfOk result (λ stop. stop ≡ other_stop member.now above.now) }
{
    let Some(place) = address_of(member.component()) else {
        return Ok(Stop::ending(true, false, OwnedTexts::new(alloc)));
    };
    let count = below_first(b"scsi_host", above);
    let devices = above.split_at(count).1;
    nearest_host_stop(alloc, place, count + 1, devices.get(0), devices.get(1))
}
