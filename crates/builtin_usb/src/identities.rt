//! What a USB device reports about itself.
ghost use Rattle.std.specs.Prelude.{◌≡◌, ◌++◌, [], IfOk, OnOk, codes, option_map, unwrap_or};
ghost use Rattle.std.specs.List.{list_all};
ghost use Rattle.builtin_devices.specs.Devices.{attribute};
ghost use Rattle.text_tables.specs.Texts.{with_texts};
ghost use Rattle.builtin_usb.specs.Identities.{all_texts, from_first, full_serial, identity_of, known_as, marked, may_number, most_bytes, most_serial_bytes};
ghost use Rattle.builtin_usb.specs.Identities.{revision_words, says_nothing, serial_of, shown};

use crate::needs::need;
use crate::units::Unit;
use builtin_devices::attribute;
use device_core::Device;
use std::alloc::{AllocError, Global};
use std::marker::Model;
use text_bytes::{Bytes, underscored, value_safe};
use text_tables::OwnedTexts;

/// The most bytes of a vendor, a model or a revision that are reported.
const MAX_BYTES: usize = 63;

/// The most bytes of a serial number that are reported.
const MAX_SERIAL_BYTES: usize = 511;

/// The most bytes of vendor, model, serial number and instance in one text.
const MAX_ALL_BYTES: usize = 255;

/// What is known about a device, with its texts as it has them; empty if there are none.
#[derive(Drop)]
pub(crate) struct Identity<'a> {
    pub(crate) vendor: &'a [u8],
    pub(crate) vendor_id: &'a [u8],
    pub(crate) model: &'a [u8],
    pub(crate) model_id: &'a [u8],
    pub(crate) revision: &'a [u8],
    pub(crate) serial: &'a [u8],
    pub(crate) kind: &'static [u8],
    pub(crate) instance: Bytes,
}

impl<'a> Model for Identity<'a> {
    ghost use Rattle.builtin_devices.specs.Devices.{attribute};
    ghost use Rattle.builtin_usb.specs.Identities.{IdentityValue};

    ghost Value = { IdentityValue };

    ghost view = { λ i. record {
      vendor = i.vendor.now;
      vendor_id = i.vendor_id.now;
      model = i.model.now;
      model_id = i.model_id.now;
      revision = i.revision.now;
      serial = i.serial.now;
      kind = i.kind.now;
      instance = i.instance;
    } };
}

/// A text as it is reported, by at most so many bytes at its start.
#[tactic(auto, unfolding(crate::specs::Identities::shown), using(std::proofs::lemmas::List::take_min))]
fn shown_of(alloc: Global, most: usize, text: &[u8]) -> Result<Vec<u8>, AllocError>
    ensures { IfOk result (λ made. made.items ≡ shown most text.now) }
{
    let word = underscored(alloc, &text[..most.min(text.len())])?;
    value_safe(alloc, &word)
}

/// A vendor, a model or a revision as it is reported.
pub(crate) fn shown(alloc: Global, text: &[u8]) -> Result<Vec<u8>, AllocError>
    ensures { IfOk result (λ made. made.items ≡ shown most_bytes text.now) }
{
    shown_of(alloc, MAX_BYTES, text)
}

/// A serial number as it is reported.
pub(crate) fn shown_serial(alloc: Global, text: &[u8]) -> Result<Vec<u8>, AllocError>
    ensures { IfOk result (λ made. made.items ≡ shown most_serial_bytes text.now) }
{
    shown_of(alloc, MAX_SERIAL_BYTES, text)
}

/// The first of two texts if anything of it is reported, else the second.
fn from_first<'a>(
    alloc: Global,
    first: Option<&'a [u8]>,
    second: &'a [u8],
) -> Result<&'a [u8], AllocError>
    ensures { IfOk result (λ text. text.now ≡ from_first (option_map (λ t. t.now) first.entry) second.now) }
{
    let Some(first) = first else {
        return Ok(second);
    };
    let made = shown(alloc, first)?;
    if made.is_empty() {
        Ok(second)
    } else {
        Ok(first)
    }
}

/// Whether nothing is reported for a text, or there is none.
fn says_nothing(alloc: Global, text: Option<&[u8]>) -> Result<bool, AllocError>
    ensures { IfOk result (λ nothing. nothing ≡ says_nothing (option_map (λ t. t.now) text.entry)) }
{
    match text {
        Some(text) => Ok(shown(alloc, text)?.is_empty()),
        None => Ok(true),
    }
}

/// Whether a serial number may have a byte.
fn may_number(byte: u8) -> bool
    ensures { result ≡ may_number byte }
{
    b' ' <= byte && byte <= 0x7F && byte != b','
}

/// Whether a serial number may have each byte of a text.
fn is_number_text(text: &[u8]) -> bool
    ensures { result ≡ list_all may_number text.now }
{
    text.iter().all(|byte| may_number(*byte))
}

/// A serial number, empty if there is none or it has a byte that is not allowed.
fn serial_of<'a>(text: Option<&'a [u8]>) -> &'a [u8]
    ensures { result.now ≡ serial_of (option_map (λ t. t.now) text.entry) }
{
    match text {
        Some(text) if is_number_text(text) => text,
        _ => b"",
    }
}

/// The instance of a SCSI device, empty if there is none.
fn instance_of(alloc: Global, unit: &Unit<'_>) -> Result<Bytes, AllocError>
    ensures { IfOk result (λ instance. instance ≡ unwrap_or unit.now.instance []) }
{
    match &unit.instance {
        Some(instance) => Bytes::copy_of(alloc, instance.as_slice()),
        None => Ok(Bytes::new(Vec::new(alloc))),
    }
}

/// The serial number of a USB device, empty if there is none that counts.
fn device_serial<'a>(device: &Device<'a>) -> &'a [u8]
    ensures { result.now ≡ serial_of (attribute device.now (codes "serial")) }
{
    serial_of(attribute(device, b"serial"))
}

/// An attribute of a device, or another text if there is none.
fn attribute_or<'a>(device: &Device<'a>, name: &[u8], other: &'a [u8]) -> &'a [u8]
    ensures { result.now ≡ unwrap_or (attribute device.now name.now) other.now }
{
    match attribute(device, name) {
        Some(text) => text,
        None => other,
    }
}

/// What is known about a USB device whose vendor and product have numbers.
fn known_as<'a>(
    alloc: Global,
    device: &Device<'a>,
    unit: &Unit<'a>,
    kind: &'static [u8],
    vendor_id: &'a [u8],
    model_id: &'a [u8],
) -> Result<Identity<'a>, AllocError>
    ensures { IfOk result (λ known. known ≡ known_as device.now unit.now kind.now vendor_id.now model_id.now) }
{
    let vendor = attribute_or(device, b"manufacturer", vendor_id);
    let vendor = from_first(alloc, unit.vendor, vendor)?;
    let model = attribute_or(device, b"product", model_id);
    let model = from_first(alloc, unit.model, model)?;
    let revision = attribute_or(device, b"bcdDevice", b"");
    let revision = from_first(alloc, unit.revision, revision)?;
    let instance = instance_of(alloc, unit)?;
    Ok(Identity {
        vendor,
        vendor_id,
        model,
        model_id,
        revision,
        serial: device_serial(device),
        kind,
        instance,
    })
}

/// Adds the revision, if the SCSI device gives none and a USB device lacks it.
fn need_revision(
    alloc: Global,
    device: &Device<'_>,
    unit: &Unit<'_>,
    needs: &mut OwnedTexts,
) -> Result<(), AllocError>
    ensures { OnOk result (needs.new ≡ with_texts needs.old (revision_words device.now unit.now)) }
{
    if says_nothing(alloc, unit.revision)? {
        need(alloc, device, b"bcdDevice", needs)?;
    }
    Ok(())
}

/// What is known about a USB device, with the SCSI device that is asked: `None` if its vendor or its product has no
/// number. What it lacks is added to what is needed.
pub(crate) fn identity_of<'a>(
    alloc: Global,
    device: &Device<'a>,
    unit: &Unit<'a>,
    kind: &'static [u8],
    needs: &mut OwnedTexts,
) -> Result<Option<Identity<'a>>, AllocError>
    ensures identity { IfOk result (λ identity. identity ≡ (identity_of device.now unit.now kind.now).identity) }
    ensures needs { OnOk result (needs.new ≡ with_texts needs.old (identity_of device.now unit.now kind.now).needs) }
{
    let Some(vendor_id) = attribute(device, b"idVendor") else {
        needs.add(alloc, b"idVendor")?;
        return Ok(None);
    };
    let Some(model_id) = attribute(device, b"idProduct") else {
        needs.add(alloc, b"idProduct")?;
        return Ok(None);
    };
    need_revision(alloc, device, unit, needs)?;
    let identity = known_as(alloc, device, unit, kind, vendor_id, model_id)?;
    Ok(Some(identity))
}

/// Appends a text to another, with a mark in between, unless it is empty.
fn push_marked(made: &mut Vec<u8>, mark: u8, text: &[u8]) -> Result<(), AllocError>
    ensures { OnOk result (made.new.items ≡ made.old.items ++ marked mark text.now) }
{
    if !text.is_empty() {
        made.push(mark)?;
        made.extend_from_slice(text)?;
    }
    Ok(())
}

/// Vendor, model, serial number and instance in one text, whatever its length.
fn all_texts(alloc: Global, identity: &Identity<'_>) -> Result<Vec<u8>, AllocError>
    ensures { IfOk result (λ made. made.items ≡ all_texts identity.now) }
{
    let mut made = shown(alloc, identity.vendor)?;
    let model = shown(alloc, identity.model)?;
    let serial = shown_serial(alloc, identity.serial)?;
    made.push(b'_')?;
    made.extend_from_slice(&model)?;
    push_marked(&mut made, b'_', &serial)?;
    push_marked(&mut made, b'-', identity.instance.as_slice())?;
    Ok(made)
}

/// ID_SERIAL, at most 255 bytes.
#[tactic(auto, unfolding(crate::specs::Identities::full_serial))]
pub(crate) fn full_serial(alloc: Global, identity: &Identity<'_>) -> Result<Vec<u8>, AllocError>
    ensures { IfOk result (λ made. made.items ≡ full_serial identity.now) }
{
    let mut made = all_texts(alloc, identity)?;
    made.truncate(MAX_ALL_BYTES);
    Ok(made)
}
