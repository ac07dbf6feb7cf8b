//! What a SCSI device reports about itself.
ghost use Rattle.std.specs.Prelude.{◌≡◌, IfOk, OnOk, option_copied, option_map};
ghost use Rattle.std.specs.Option.{option_to_list};
ghost use Rattle.text_tables.specs.Texts.{with_texts};
ghost use Rattle.builtin_usb.specs.Units.{absent_words, instance_text, silent, texts_of, unit_texts, unit_words};

use builtin_devices::{Address, address_of, attribute};
use device_core::Device;
use itoa::Buffer;
use std::alloc::{AllocError, Global};
use std::marker::Model;
use text_bytes::{Bytes, kernel_name};
use text_tables::OwnedTexts;

/// Texts of a SCSI device, as far as they count, and its target and unit.
#[derive(Drop)]
pub(crate) struct Unit<'a> {
    pub(crate) vendor: Option<&'a [u8]>,
    pub(crate) model: Option<&'a [u8]>,
    pub(crate) kind: Option<&'a [u8]>,
    pub(crate) revision: Option<&'a [u8]>,
    pub(crate) instance: Option<Bytes>,
}

impl<'a> Model for Unit<'a> {
    ghost use Rattle.std.specs.Prelude.{option_map};
    ghost use Rattle.builtin_usb.specs.Units.{UnitValue};

    ghost Value = { UnitValue };

    ghost view = { λ u. record {
      vendor = option_map (λ t. t.now) u.vendor;
      model = option_map (λ t. t.now) u.model;
      kind = option_map (λ t. t.now) u.kind;
      revision = option_map (λ t. t.now) u.revision;
      instance = u.instance;
    } };
}

/// The target and the unit of an address as they are reported.
fn instance_text(alloc: Global, address: Address) -> Result<Bytes, AllocError>
    ensures { IfOk result (λ text. text ≡ instance_text address) }
{
    let mut text = Vec::from_slice(alloc, Buffer::new().format(address.target).as_bytes())?;
    text.push(b':')?;
    text.extend_from_slice(Buffer::new().format(address.unit).as_bytes())?;
    Ok(Bytes::new(text))
}

/// No text counts.
fn silent<'a>() -> Unit<'a>
    ensures { result ≡ silent }
{
    Unit {
        vendor: None,
        model: None,
        kind: None,
        revision: None,
        instance: None,
    }
}

/// The texts of a SCSI device whose name gives an instance.
fn texts_of<'a>(unit: &Device<'a>, instance: Bytes) -> Unit<'a>
    ensures { result ≡ texts_of unit.now instance }
{
    let vendor = attribute(unit, b"vendor");
    let model = vendor.and(attribute(unit, b"model"));
    let kind = model.and(attribute(unit, b"type"));
    let revision = kind.and(attribute(unit, b"rev"));
    Unit {
        vendor,
        model,
        kind,
        revision,
        instance: revision.and(Some(instance)),
    }
}

/// The first of the texts of a SCSI device that is absent.
fn first_absent(unit: &Unit<'_>) -> Option<&'static [u8]>
    ensures { option_to_list (option_map (λ t. t.now) result) ≡ absent_words unit.now }
{
    if unit.vendor.is_none() {
        Some(b"vendor")
    } else if unit.model.is_none() {
        Some(b"model")
    } else if unit.kind.is_none() {
        Some(b"type")
    } else if unit.revision.is_none() {
        Some(b"rev")
    } else {
        None
    }
}

/// The texts of the SCSI device that is asked, if one is. The first that is absent is added to what is needed.
pub(crate) fn unit_texts<'a>(
    alloc: Global,
    unit: Option<&Device<'a>>,
    needs: &mut OwnedTexts,
) -> Result<Unit<'a>, AllocError>
    ensures texts { IfOk result (λ texts. texts ≡ unit_texts (option_copied unit.entry)) }
    ensures needs { OnOk result (needs.new ≡ with_texts needs.old (unit_words (option_copied unit.entry))) }
{
    let Some(unit) = unit else {
        return Ok(silent());
    };
    let kernel = kernel_name(alloc, unit.path())?;
    let Some(address) = address_of(kernel.as_slice()) else {
        return Ok(silent());
    };
    let texts = texts_of(unit, instance_text(alloc, address)?);
    if let Some(word) = first_absent(&texts) {
        needs.add(alloc, word)?;
    }
    Ok(texts)
}
