//! The properties that usb_id sets.
ghost use Rattle.std.specs.Prelude.{◌≡◌, ◌++◌, ◌∷◌, [], IfOk, OnOk, codes, if◌then◌else◌, map, option_copied, option_map};
ghost use Rattle.std.specs.Option.{option_and_then};
ghost use Rattle.builtin_devices.specs.Devices.{attribute};
ghost use Rattle.builtin_usb.specs.Identities.{named, rows, unless_empty};
ghost use Rattle.text_tables.specs.Texts.{with_texts};
ghost use Rattle.builtin_usb.specs.UsbId.{bus_properties, descriptors_at, descriptors_words, interfaces_text, own_rows, properties, rows_apart};

use crate::identities::{Identity, full_serial, shown, shown_serial};
use crate::interfaces::packed;
use builtin_devices::{add_property, attribute, bytes_of, file_at};
use device_core::{Device, Event};
use std::alloc::{AllocError, Global};
use text_bytes::{Bytes, encoded};
use text_tables::OwnedTexts;

/// A name, and the value that it is set to, if any.
type Row = (&'static [u8], Option<Bytes>);

/// A text that is set whatever it is.
fn always(text: Vec<u8>) -> Option<Bytes>
    ensures { result ≡ Some text.items }
{
    Some(Bytes::new(text))
}

/// A text that is set only if it is not empty.
fn unless_empty(text: Vec<u8>) -> Option<Bytes>
    ensures { result ≡ unless_empty text.items }
{
    if text.is_empty() {
        return None;
    }
    Some(Bytes::new(text))
}

/// A copy of a text that is there.
fn copy_of(alloc: Global, text: Option<&[u8]>) -> Result<Option<Bytes>, AllocError>
    ensures { IfOk result (λ copy. copy ≡ option_map (λ t. t.now) text.entry) }
{
    match text {
        Some(text) => Ok(Some(Bytes::copy_of(alloc, text)?)),
        None => Ok(None),
    }
}

/// Sets a name with a prefix.
fn set(
    alloc: Global,
    prefix: &[u8],
    name: &[u8],
    value: &[u8],
    properties: &mut Vec<(Bytes, Bytes)>,
) -> Result<(), AllocError>
    ensures { OnOk result (properties.new.items ≡ properties.old.items ++ (prefix.now ++ name.now, value.now) ∷ []) }
{
    let mut whole = Vec::from_slice(alloc, prefix)?;
    whole.extend_from_slice(name)?;
    add_property(alloc, &whole, value, properties)
}

/// Sets the rows that have a value.
fn set_rows(
    alloc: Global,
    prefix: &[u8],
    rows: &[Row],
    properties: &mut Vec<(Bytes, Bytes)>,
) -> Result<(), AllocError>
    ensures { OnOk result (properties.new.items ≡ properties.old.items ++ named prefix.now (map (λ row. (row.0.now, row.1)) rows.now)) }
{
    for (name, value) in rows {
        if let Some(value) = value {
            set(alloc, prefix, name, value.as_slice(), properties)?;
        }
    }
    Ok(())
}

/// Sets what is known about a device, with a prefix to the names.
#[tactic(auto, unfolding(crate::specs::Identities::rows))]
fn set_identity(
    alloc: Global,
    prefix: &[u8],
    identity: &Identity<'_>,
    properties: &mut Vec<(Bytes, Bytes)>,
) -> Result<(), AllocError>
    ensures { OnOk result (properties.new.items ≡ properties.old.items ++ named prefix.now (rows identity.now)) }
{
    let model = shown(alloc, identity.model)?;
    let model_encoded = encoded(alloc, identity.model)?;
    let model_id = Vec::from_slice(alloc, identity.model_id)?;
    let full = full_serial(alloc, identity)?;
    let serial = shown_serial(alloc, identity.serial)?;
    let vendor = shown(alloc, identity.vendor)?;
    let vendor_encoded = encoded(alloc, identity.vendor)?;
    let vendor_id = Vec::from_slice(alloc, identity.vendor_id)?;
    let revision = shown(alloc, identity.revision)?;
    let kind = Vec::from_slice(alloc, identity.kind)?;
    let instance = Vec::from_slice(alloc, identity.instance.as_slice())?;
    let rows: [Row; 11] = [
        (b"MODEL", always(model)),
        (b"MODEL_ENC", always(model_encoded)),
        (b"MODEL_ID", always(model_id)),
        (b"SERIAL", always(full)),
        (b"SERIAL_SHORT", unless_empty(serial)),
        (b"VENDOR", always(vendor)),
        (b"VENDOR_ENC", always(vendor_encoded)),
        (b"VENDOR_ID", always(vendor_id)),
        (b"REVISION", always(revision)),
        (b"TYPE", unless_empty(kind)),
        (b"INSTANCE", unless_empty(instance)),
    ];
    set_rows(alloc, prefix, &rows, properties)
}

/// The bytes of the file of descriptors of a device, if the block reports them.
fn descriptors_at(
    alloc: Global,
    event: &Event<'_>,
    device: &Device<'_>,
) -> Result<Option<Vec<u8>>, AllocError>
    ensures { IfOk result (λ file. option_map (λ f. f.items) file ≡ descriptors_at event.now device.now) }
{
    let mut path = Vec::from_slice(alloc, device.path())?;
    path.extend_from_slice(b"/descriptors")?;
    match file_at(event, &path) {
        Some(text) => bytes_of(alloc, text),
        None => Ok(None),
    }
}

/// The interfaces of a USB device, nothing if there is none. The file of descriptors is added to what is needed, if the
/// block does not report it.
pub(crate) fn interfaces_text(
    alloc: Global,
    event: &Event<'_>,
    device: Option<&Device<'_>>,
    needs: &mut OwnedTexts,
) -> Result<Vec<u8>, AllocError>
    ensures text { IfOk result (λ text. text.items ≡ interfaces_text event.now (option_copied device.entry)) }
    ensures needs { OnOk result (needs.new ≡ with_texts needs.old (descriptors_words event.now (option_copied device.entry))) }
{
    let Some(device) = device else {
        return Ok(Vec::new(alloc));
    };
    match descriptors_at(alloc, event, device)? {
        Some(file) => packed(alloc, &file),
        None => {
            needs.add(alloc, b"descriptors")?;
            packed(alloc, b"")
        }
    }
}

/// The number of an interface, as it is reported.
fn number_of<'a>(interface: Option<&Device<'a>>) -> Option<&'a [u8]>
    ensures { option_map (λ t. t.now) result ≡ option_and_then (λ i. attribute i (codes "bInterfaceNumber")) (option_copied interface.entry) }
{
    attribute(interface?, b"bInterfaceNumber")
}

/// The driver of an interface.
fn driver_of<'a>(interface: Option<&Device<'a>>) -> Option<&'a [u8]>
    ensures { option_map (λ t. t.now) result ≡ option_and_then (λ i. i.driver) (option_copied interface.entry) }
{
    interface?.driver()
}

/// Sets what comes only after `ID_USB_`.
#[tactic(auto, unfolding(crate::specs::UsbId::rows_apart))]
fn set_apart(
    alloc: Global,
    interfaces: Vec<u8>,
    number: Option<Bytes>,
    driver: Option<Bytes>,
    properties: &mut Vec<(Bytes, Bytes)>,
) -> Result<(), AllocError>
    ensures { OnOk result (properties.new.items ≡ properties.old.items ++ named (codes "ID_USB_") (rows_apart interfaces.items number driver)) }
{
    let rows: [Row; 3] = [
        (b"INTERFACES", unless_empty(interfaces)),
        (b"INTERFACE_NUM", number),
        (b"DRIVER", driver),
    ];
    set_rows(alloc, b"ID_USB_", &rows, properties)
}

/// Sets the interfaces, and the number and the driver of the interface.
fn set_own(
    alloc: Global,
    interface: Option<&Device<'_>>,
    interfaces: Vec<u8>,
    properties: &mut Vec<(Bytes, Bytes)>,
) -> Result<(), AllocError>
    ensures { OnOk result (properties.new.items ≡ properties.old.items ++ named (codes "ID_USB_") (own_rows (option_copied interface.entry) interfaces.items)) }
{
    let number = copy_of(alloc, number_of(interface))?;
    let driver = copy_of(alloc, driver_of(interface))?;
    set_apart(alloc, interfaces, number, driver, properties)?;
    Ok(())
}

/// Sets the bus and what is reported after `ID_`, unless a bus was reported before.
fn set_bus(
    alloc: Global,
    identity: &Identity<'_>,
    is_bus_set: bool,
    properties: &mut Vec<(Bytes, Bytes)>,
) -> Result<(), AllocError>
    ensures { OnOk result (properties.new.items ≡ properties.old.items ++ (if is_bus_set then [] else bus_properties identity.now)) }
{
    if is_bus_set {
        return Ok(());
    }
    add_property(alloc, b"ID_BUS", b"usb", properties)?;
    set_identity(alloc, b"ID_", identity, properties)
}

/// The properties of a device that is known.
#[tactic(auto, unfolding(crate::specs::UsbId::properties))]
pub(crate) fn properties_of(
    alloc: Global,
    interface: Option<&Device<'_>>,
    interfaces: Vec<u8>,
    identity: &Identity<'_>,
    is_bus_set: bool,
) -> Result<Vec<(Bytes, Bytes)>, AllocError>
    ensures { IfOk result (λ set. set.items ≡ properties (option_copied interface.entry) interfaces.items identity.now is_bus_set) }
{
    let mut properties = Vec::new(alloc);
    set_bus(alloc, identity, is_bus_set, &mut properties)?;
    set_identity(alloc, b"ID_USB_", identity, &mut properties)?;
    set_own(alloc, interface, interfaces, &mut properties)?;
    Ok(properties)
}
