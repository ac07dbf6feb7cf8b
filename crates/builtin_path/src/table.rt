//! What devices of each subsystem add to a path.
ghost use Rattle.std.specs.Prelude.{◌≡◌, IfOk, find, map, option_map};
ghost use Rattle.builtin_path.specs.Members.{begins};
ghost use Rattle.builtin_path.specs.Table.{ap_part, beside, leading_number, manner_of, named_stop, numbered_stop, second_number, second_stop, stop, stop_as};
ghost use Rattle.builtin_path.specs.Table.{tape_part, tape_stop};

use crate::members::{Member, row};
use crate::nvme::{nvme_stop, ways_stop};
use crate::scsi::scsi_stop;
use crate::stops::{Next, Share, Stop};
use crate::texts::{concatenated, leading_digits};
use crate::usb::usb_stop;
use builtin_devices::{Devices, attribute, name_number};
use itoa::Buffer;
use std::alloc::{AllocError, Global};
use text_bytes::{Bytes, decimal_below, following, kernel_name};
use text_tables::{OwnedTexts, is_among};

/// How devices of a subsystem add to a path.
#[derive(Clone, Copy)]
pub(crate) enum Manner {
    /// A known parent, by its name.
    Parent,
    /// A known parent and transport, by its name.
    Transport,
    /// A queue of cryptographic adapters.
    Ap,
    /// Nothing; a known transport.
    Virtio,
    /// A port.
    Usb,
    /// A unit.
    Scsi,
    /// The namespace of the event device.
    Nvme,
    /// The same, for a disk of several ways.
    NvmeSubsystem,
    /// The number of a port.
    Serio,
    /// The number of a chip.
    Spi,
    /// The number of a core.
    Bcma,
    /// The number of a disk.
    Cciss,
    /// The name of a tape.
    ScsiTape,
}

/// Each subsystem whose devices add to a path, and how.
pub(crate) const MANNERS: [(&[u8], Manner); 20] = [
    (b"pci", Manner::Parent),
    (b"acpi", Manner::Parent),
    (b"xen", Manner::Parent),
    (b"platform", Manner::Transport),
    (b"amba", Manner::Transport),
    (b"scm", Manner::Transport),
    (b"ccw", Manner::Transport),
    (b"ccwgroup", Manner::Transport),
    (b"iucv", Manner::Transport),
    (b"ap", Manner::Ap),
    (b"virtio", Manner::Virtio),
    (b"usb", Manner::Usb),
    (b"scsi", Manner::Scsi),
    (b"nvme", Manner::Nvme),
    (b"nvme-subsystem", Manner::NvmeSubsystem),
    (b"serio", Manner::Serio),
    (b"spi", Manner::Spi),
    (b"bcma", Manner::Bcma),
    (b"cciss", Manner::Cciss),
    (b"scsi_tape", Manner::ScsiTape),
];

/// Names of tapes that count whole.
pub(crate) const WHOLE_TAPES: [&[u8]; 2] = [b"nst", b"st"];

/// What the names of other tapes begin with.
pub(crate) const BEGUN_TAPES: [&[u8]; 6] = [b"nstl", b"nstm", b"nsta", b"stl", b"stm", b"sta"];

/// The numbers of a name are below this.
const NUMBERS: u64 = 1 << 32;

/// What a table has beside a subsystem.
fn beside(rows: &[(&[u8], Manner)], subsystem: &[u8]) -> Option<Manner>
    ensures { result ≡ beside (map (λ row. (row.0.now, row.1)) rows.now) subsystem.now }
{
    for row in rows {
        if row.0 == subsystem {
            return Some(row.1);
        }
    }
    None
}

/// How devices of a subsystem add.
#[tactic(auto, unfolding(crate::specs::Table::manner_of))]
fn manner_of(subsystem: &[u8]) -> Option<Manner>
    ensures { result ≡ manner_of subsystem.now }
{
    beside(&MANNERS, subsystem)
}

/// A device by its subsystem and its name.
fn named_stop(
    alloc: Global,
    subsystem: &[u8],
    transport: bool,
    member: &Member<'_>,
    above: &[Member<'_>],
) -> Result<Stop, AllocError>
    ensures { IfOk result (λ stop. stop ≡ named_stop subsystem.now transport member.now above.now) }
{
    let name = kernel_name(alloc, member.device.path())?;
    let part = concatenated(alloc, &[subsystem, b"-", name.as_slice()])?;
    let mut stop = Stop::adding(alloc, part, transport, true, row(subsystem, above));
    stop.share = Share::Both;
    Ok(stop)
}

/// The part of a queue of cryptographic adapters: its type and functions, or its name if one of these is not there.
fn ap_part(alloc: Global, member: &Member<'_>) -> Result<Bytes, AllocError>
    ensures { IfOk result (λ part. part ≡ ap_part member.now) }
{
    let name = kernel_name(alloc, member.device.path())?;
    let Some(kind) = attribute(member.device, b"type") else {
        return concatenated(alloc, &[b"ap-", name.as_slice()]);
    };
    let Some(functions) = attribute(member.device, b"ap_functions") else {
        return concatenated(alloc, &[b"ap-", name.as_slice()]);
    };
    concatenated(alloc, &[b"ap-", kind, b"-", functions])
}

/// A device by the number at the end of its name.
fn numbered_stop(
    alloc: Global,
    subsystem: &[u8],
    start: &[u8],
    member: &Member<'_>,
    above: &[Member<'_>],
) -> Result<Stop, AllocError>
    ensures { IfOk result (λ stop. stop ≡ numbered_stop subsystem.now start.now member.now above.now) }
{
    match name_number(member.component()) {
        None => Ok(Stop::passing(alloc, false)),
        Some(digits) => {
            let part = concatenated(alloc, &[start, digits])?;
            Ok(Stop::adding(alloc, part, false, false, row(subsystem, above)))
        }
    }
}

/// The number that a text begins with, and what follows it.
#[tactic(auto, unfolding(crate::specs::Table::leading_number))]
fn leading_number(text: &[u8]) -> Option<(u64, &[u8])>
    ensures { option_map (λ p. (p.0, p.1.now)) result ≡ leading_number text.now }
{
    let (digits, following) = text.split_at(leading_digits(text));
    Some((decimal_below(NUMBERS, digits)?, following))
}

/// The second number of a name that is a start, a number, a mark, and a number.
#[tactic(auto, unfolding(crate::specs::Table::second_number))]
fn second_number(start: &[u8], mark: &[u8], name: &[u8]) -> Option<u64>
    ensures { result ≡ second_number start.now mark.now name.now }
{
    let (_, rest) = leading_number(following(start, name)?)?;
    let (number, _) = leading_number(following(mark, rest)?)?;
    Some(number)
}

/// A device by the second number of its name, which is a start, a number, a mark, and a number.
fn second_stop(
    alloc: Global,
    start: &[u8],
    mark: &[u8],
    label: &[u8],
    member: &Member<'_>,
    count: usize,
) -> Result<Stop, AllocError>
    ensures { IfOk result (λ stop. stop ≡ second_stop start.now mark.now label.now member.now count) }
{
    let name = kernel_name(alloc, member.device.path())?;
    let Some(number) = second_number(start, mark, name.as_slice()) else {
        return Ok(Stop::ending(true, false, OwnedTexts::new(alloc)));
    };
    let mut buffer = Buffer::new();
    let part = concatenated(alloc, &[label, buffer.format(number).as_bytes()])?;
    Ok(Stop::adding(alloc, part, true, false, count))
}

/// The first of some texts that a name begins with.
fn first_begun(starts: &[&'static [u8]], name: &[u8]) -> Option<&'static [u8]>
    ensures { option_map (λ t. t.now) result ≡ find (λ start. begins start name.now) (map (λ t. t.now) starts.now) }
{
    for start in starts {
        if name.starts_with(start) {
            return Some(start);
        }
    }
    None
}

/// What the name of a tape gives.
#[tactic(auto, unfolding(crate::specs::Table::tape_part))]
fn tape_part(name: &[u8]) -> Option<&[u8]>
    ensures { option_map (λ t. t.now) result ≡ tape_part name.now }
{
    if is_among(&WHOLE_TAPES, name) {
        return Some(name);
    }
    match first_begun(&BEGUN_TAPES, name) {
        Some(start) => Some(start),
        None => None,
    }
}

/// What a tape adds, if no device below has added a part.
fn tape_stop(alloc: Global, is_begun: bool, member: &Member<'_>) -> Result<Stop, AllocError>
    ensures { IfOk result (λ stop. stop ≡ tape_stop is_begun member.now) }
{
    if is_begun {
        return Ok(Stop::passing(alloc, false));
    }
    let name = kernel_name(alloc, member.device.path())?;
    match tape_part(name.as_slice()) {
        None => Ok(Stop::passing(alloc, false)),
        Some(part) => Ok(Stop::adding(alloc, Bytes::copy_of(alloc, part)?, false, false, 0)),
    }
}

/// What a device adds, in a manner; `is_begun` says whether a device below has added a part.
fn stop_as(
    alloc: Global,
    manner: Manner,
    devices: &Devices<'_>,
    is_begun: bool,
    subsystem: &[u8],
    member: &Member<'_>,
    above: &[Member<'_>],
) -> Result<Stop, AllocError>
    ensures { IfOk result (λ stop. stop
        ≡ stop_as manner (record { event = devices.now; is_begun = is_begun; subsystem = subsystem.now; member = member.now; above = above.now })) }
{
    match manner {
        Manner::Parent => named_stop(alloc, subsystem, false, member, above),
        Manner::Transport => named_stop(alloc, subsystem, true, member, above),
        Manner::Ap => {
            let part = ap_part(alloc, member)?;
            Ok(Stop::adding(alloc, part, true, true, row(b"ap", above)))
        }
        Manner::Virtio => {
            let mut stop = Stop::passing(alloc, true);
            stop.next = Next::On(row(subsystem, above));
            Ok(stop)
        }
        Manner::Usb => usb_stop(alloc, member, above),
        Manner::Scsi => scsi_stop(alloc, member, above),
        Manner::Nvme => nvme_stop(alloc, devices.event(), above),
        Manner::NvmeSubsystem => ways_stop(alloc, devices, member, above),
        Manner::Serio => numbered_stop(alloc, subsystem, b"serio-", member, above),
        Manner::Spi => numbered_stop(alloc, subsystem, b"cs-", member, above),
        Manner::Bcma => second_stop(alloc, b"bcma", b":", b"bcma-", member, 0),
        Manner::Cciss => {
            let count = row(b"cciss", above);
            second_stop(alloc, b"c", b"d", b"cciss-disk", member, count)
        }
        Manner::ScsiTape => tape_stop(alloc, is_begun, member),
    }
}

/// What a device adds, with those above it; `is_begun` says whether a device below has added a part.
#[tactic(auto, unfolding(crate::specs::Table::stop))]
pub(crate) fn stop(
    alloc: Global,
    devices: &Devices<'_>,
    is_begun: bool,
    member: &Member<'_>,
    above: &[Member<'_>],
) -> Result<Stop, AllocError>
    ensures { IfOk result (λ here. here ≡ stop devices.now is_begun member.now above.now) }
{
    let Some(subsystem) = member.device.subsystem() else {
        return Ok(Stop::passing(alloc, false));
    };
    match manner_of(subsystem) {
        Some(manner) => stop_as(alloc, manner, devices, is_begun, subsystem, member, above),
        None => Ok(Stop::passing(alloc, false)),
    }
}
