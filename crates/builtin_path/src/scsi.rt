//! SCSI: the transport that the path of a device says about, its unit, and what the device adds.
ghost use Rattle.std.specs.Prelude.{◌≡◌, IfOk, map};
ghost use Rattle.builtin_path.specs.Scsi.{described_by, four_digits, hex_digit, scsi_stop, transport_of, transport_stop, unit_number, unit_text};

use crate::members::{Member, row};
use crate::sas::sas_stop;
use crate::scsi_hosts::other_stop;
use crate::scsi_transports::{ata_stop, fibre_stop, guid_stop, iscsi_stop};
use crate::stops::Stop;
use crate::texts::{concatenated, first_place};
use builtin_devices::{Base, attribute, is_text, name_number, number_in, type_of};
use itoa::Buffer;
use std::alloc::{AllocError, Global};
use text_bytes::Bytes;

/// The transport by which a device of SCSI is reached, as its path shows.
#[derive(Clone, Copy)]
pub(crate) enum Transport {
    /// Fibre Channel.
    FibreChannel,
    /// SAS.
    Sas,
    /// iSCSI.
    Iscsi,
    /// ATA.
    Ata,
    /// Hyper-V.
    HyperV,
    /// Hyper-V, by a name of ACPI.
    HyperVByAcpi,
}

/// Texts that are in the path of a device, each with the transport that it shows.
pub(crate) const TRANSPORTS: [(&[u8], Transport); 6] = [
    (b"/rport-", Transport::FibreChannel),
    (b"/end_device-", Transport::Sas),
    (b"/session", Transport::Iscsi),
    (b"/ata", Transport::Ata),
    (b"/vmbus_", Transport::HyperV),
    (b"/VMBUS", Transport::HyperVByAcpi),
];

/// The digits in base 16.
const HEX_DIGITS: [u8; 16] = *b"0123456789abcdef";

/// What a table has beside the first of its texts that is in a path.
fn described_by(rows: &[(&[u8], Transport)], path: &[u8]) -> Option<Transport>
    ensures { result ≡ described_by (map (λ row. (row.0.now, row.1)) rows.now) path.now }
{
    for row in rows {
        if first_place(row.0, path).is_some() {
            return Some(row.1);
        }
    }
    None
}

/// The transport that a path shows.
#[tactic(auto, unfolding(crate::specs::Scsi::transport_of))]
fn transport_of(path: &[u8]) -> Option<Transport>
    ensures { result ≡ transport_of path.now }
{
    described_by(&TRANSPORTS, path)
}

/// The last digit of a number in base 16.
fn hex_digit(number: u64) -> u8
    ensures { result ≡ hex_digit number }
{
    HEX_DIGITS[(number % 16) as usize]
}

/// The low 16 bits of a number in base 16.
fn four_digits(number: u64) -> [u8; 4]
    ensures { result ≡ four_digits number }
{
    [
        hex_digit(number / 4096),
        hex_digit(number / 256),
        hex_digit(number / 16),
        hex_digit(number),
    ]
}

/// The number of the unit of a SCSI device.
fn unit_number(member: &Member<'_>) -> Option<u64>
    ensures { result ≡ unit_number member.now }
{
    number_in(Base::Decimal, u64::MAX, name_number(member.component())?)
}

/// The unit of a SCSI device.
#[tactic(auto, unfolding(crate::specs::Scsi::unit_text))]
pub(crate) fn unit_text(alloc: Global, member: &Member<'_>) -> Result<Bytes, AllocError>
    ensures { IfOk result (λ text. text ≡ unit_text member.now) }
{
    let Some(number) = unit_number(member) else {
        return Bytes::copy_of(alloc, b"(null)");
    };
    if number < 256 {
        let mut buffer = Buffer::new();
        return concatenated(alloc, &[b"lun-", buffer.format(number).as_bytes()]);
    }
    let low = four_digits(number);
    let high = four_digits(number / 65536);
    concatenated(alloc, &[b"lun-0x", &low, &high, b"00000000"])
}

/// What a SCSI device adds by the transport that its path shows.
fn transport_stop(
    alloc: Global,
    member: &Member<'_>,
    above: &[Member<'_>],
) -> Result<Stop, AllocError>
    ensures { IfOk result (λ stop. stop ≡ transport_stop (transport_of member.now.path) member.now above.now) }
{
    match transport_of(member.device.path()) {
        None => other_stop(alloc, member, above),
        Some(Transport::FibreChannel) => fibre_stop(alloc, member, above),
        Some(Transport::Sas) => sas_stop(alloc, member, above),
        Some(Transport::Iscsi) => iscsi_stop(alloc, member, above),
        Some(Transport::Ata) => ata_stop(alloc, member, above),
        Some(Transport::HyperV) => guid_stop(alloc, member, above, 37),
        Some(Transport::HyperVByAcpi) => guid_stop(alloc, member, above, 38),
    }
}

/// What a device of subsystem scsi adds: only one of type scsi_device adds a part. It may be one of FireWire.
#[tactic(auto, unfolding(crate::specs::Scsi::scsi_stop))]
pub(crate) fn scsi_stop(
    alloc: Global,
    member: &Member<'_>,
    above: &[Member<'_>],
) -> Result<Stop, AllocError>
    ensures { IfOk result (λ stop. stop ≡ scsi_stop member.now above.now) }
{
    if !is_text(b"scsi_device", type_of(member.device)) {
        return Ok(Stop::passing(alloc, true));
    }
    let Some(id) = attribute(member.device, b"ieee1394_id") else {
        return transport_stop(alloc, member, above);
    };
    let part = concatenated(alloc, &[b"ieee1394-0x", id])?;
    Ok(Stop::adding(alloc, part, true, true, row(b"scsi", above)))
}
