//! The slot that a function is in.
ghost use Rattle.std.specs.Prelude.{◌≡◌, ◌==◌, ◌≤◌, length, not, option_copied, option_map, IfOk, OnOk};
ghost use Rattle.std.specs.Char.{is_ascii_uppercase};
ghost use Rattle.std.specs.List.{list_any, suffix_len};
ghost use Rattle.text_tables.specs.Texts.{with_texts};
ghost use Rattle.builtin_net.specs.Needs.{bus_needs, firmware_needs, slot_needs};
ghost use Rattle.builtin_net.specs.Slots.{ends_search, firmware_number, is_bridge, is_described, is_slot_of, number_by_firmware};
ghost use Rattle.builtin_net.specs.Slots.{number_by_place, number_holding, search_end, slot_by_bus, slot_by_identity, slot_name, slot_of};

use crate::allowed::{Attribute, lacks, number, read};
use crate::functions::is_several;
use crate::needs::need;
use crate::words::{MAX_NUMBER, positive};
use builtin_devices::{Base, Devices, file_at, files_below, is_number, is_of, number_in};
use device_core::{Device, Event};
use std::alloc::{AllocError, Global};
use text_bytes::{is_hexadecimal, kernel_name, split_once};
use text_tables::OwnedTexts;

/// The folder of all slots of the bus.
pub(crate) const SLOTS_FOLDER: &[u8] = b"/bus/pci/slots";

/// A slot by its number, and whether names by it leave the domain out.
#[derive(Clone, Copy)]
pub(crate) struct Slot {
    /// The number.
    pub number: u64,
    /// Whether the domain is left out.
    pub drops_domain: bool,
}

/// The number of a slot that the firmware gives for a device.
pub(crate) fn firmware_number(pci: &Device<'_>) -> Option<u64>
    ensures { result ≡ firmware_number pci.now }
{
    positive(number(pci, Attribute::Sun))
}

/// How many bytes follow the last `s` of a text.
fn bytes_after_s(text: &[u8]) -> usize
    ensures value { result ≡ suffix_len (λ b. not (b == 115)) text.now }
    ensures within { result ≤ length text.now }
{
    text.iter().rev().take_while(|byte| **byte != b's').count()
}

/// Whether a device is a bridge.
#[tactic(auto, unfolding(crate::specs::Slots::is_bridge))]
pub(crate) fn is_bridge(pci: &Device<'_>) -> bool
    ensures { result ≡ is_bridge pci.now }
{
    let Some(alias) = read(pci, Attribute::Modalias) else {
        return false;
    };
    let (_, end) = alias.split_at(alias.len() - bytes_after_s(alias));
    alias.starts_with(b"pci:") && end.starts_with(b"c04")
}

/// The number that the firmware gives for a function, or else for the device above. What is needed for it is added.
#[tactic(auto, unfolding(crate::specs::Slots::number_by_firmware))]
fn number_by_firmware(
    alloc: Global,
    needs: &mut OwnedTexts,
    devices: &Devices<'_>,
    pci: &Device<'_>,
) -> Result<Option<u64>, AllocError>
    ensures number { IfOk result (λ number. number ≡ number_by_firmware devices.now pci.now) }
    ensures needs { OnOk result (needs.new ≡ with_texts needs.old (firmware_needs devices.now pci.now)) }
{
    if let Some(number) = firmware_number(pci) {
        return Ok(Some(number));
    }
    let several = is_several(alloc, devices.event(), pci)?;
    let Some(above) = devices.above(alloc, b"pci", None, pci.path())? else {
        return Ok(None);
    };
    need(alloc, needs, lacks(above, Attribute::Modalias), b"modalias")?;
    if is_bridge(above) && !several {
        return Ok(None);
    }
    Ok(firmware_number(above))
}

/// Whether a block describes a folder, perhaps as empty.
#[tactic(auto, unfolding(crate::specs::Slots::is_described))]
pub(crate) fn is_described(
    alloc: Global,
    event: &Event<'_>,
    folder: &[u8],
) -> Result<bool, AllocError>
    ensures { IfOk result (λ described. described ≡ is_described event.now folder.now) }
{
    let files = files_below(alloc, event, folder)?;
    Ok(file_at(event, folder).is_some() || !files.is_empty())
}

/// The name of the slot whose file says what is in it.
#[tactic(auto, unfolding(crate::specs::Slots::slot_name))]
fn slot_name(path: &[u8]) -> Option<&[u8]>
    ensures { option_map (λ t. t.now) result ≡ slot_name path.now }
{
    let (name, file) = split_once(b'/', path)?;
    if file != b"address".as_slice() {
        return None;
    }
    Some(name)
}

/// The number of a slot by the path of its file, if the text of the file says that it holds the device with a name.
#[tactic(auto, unfolding(crate::specs::Slots::number_holding))]
fn number_holding(kernel: &[u8], path: &[u8], address: &[u8]) -> Option<u64>
    ensures { result ≡ number_holding kernel.now (path.now, address.now) }
{
    if !kernel.starts_with(address) {
        return None;
    }
    positive(number_in(Base::AsWritten, MAX_NUMBER, slot_name(path)?))
}

/// The number of the slot that holds a device.
#[tactic(auto, unfolding(crate::specs::Slots::number_by_place))]
fn number_by_place(
    alloc: Global,
    event: &Event<'_>,
    pci: &Device<'_>,
) -> Result<Option<u64>, AllocError>
    ensures { IfOk result (λ number. number ≡ number_by_place event.now pci.now) }
{
    let kernel = kernel_name(alloc, pci.path())?;
    for file in files_below(alloc, event, SLOTS_FOLDER)? {
        if let Some(number) = number_holding(kernel.as_slice(), file.0, file.1) {
            return Ok(Some(number));
        }
    }
    Ok(None)
}

/// Whether a text has a capital letter.
fn has_large(text: &[u8]) -> bool
    ensures { result ≡ list_any is_ascii_uppercase text.now }
{
    text.iter().any(|byte| byte.is_ascii_uppercase())
}

/// Whether a file is that of the slot whose name is a number in eight hexadecimal digits with lower case letters.
#[tactic(auto, unfolding(crate::specs::Slots::is_slot_of))]
fn is_slot_of(number: u64, path: &[u8], address: &[u8]) -> bool
    ensures { result ≡ is_slot_of number (path.now, address.now) }
{
    let Some(name) = slot_name(path) else {
        return false;
    };
    name.len() == 8
        && is_hexadecimal(name)
        && !has_large(name)
        && is_number(number, number_in(Base::Hexadecimal, MAX_NUMBER, name))
}

/// The slot of a function of System z, whose number has a slot of its own.
#[tactic(auto, unfolding(crate::specs::Slots::slot_by_identity))]
fn slot_by_identity(
    alloc: Global,
    event: &Event<'_>,
    identity: &[u8],
) -> Result<Option<Slot>, AllocError>
    ensures { IfOk result (λ slot. slot ≡ slot_by_identity event.now identity.now) }
{
    let Some(number) = positive(number_in(Base::AsWritten, MAX_NUMBER, identity)) else {
        return Ok(None);
    };
    for file in files_below(alloc, event, SLOTS_FOLDER)? {
        if is_slot_of(number, file.0, file.1) {
            return Ok(Some(Slot {
                number,
                drops_domain: true,
            }));
        }
    }
    Ok(None)
}

/// Whether the search for a slot of the bus ends at a device.
#[tactic(auto, unfolding(crate::specs::Slots::ends_search))]
fn ends_search(alloc: Global, event: &Event<'_>, pci: &Device<'_>) -> Result<bool, AllocError>
    ensures { IfOk result (λ ends. ends ≡ ends_search event.now pci.now) }
{
    if read(pci, Attribute::FunctionId).is_some() {
        return Ok(true);
    }
    Ok(number_by_place(alloc, event, pci)?.is_some())
}

/// The device at which the search that begins at a function and goes on above it ends.
#[tactic(auto, unfolding(crate::specs::Slots::search_end))]
fn search_end<'d, 'a>(
    alloc: Global,
    devices: &'d Devices<'a>,
    pci: &'d Device<'a>,
) -> Result<Option<&'d Device<'a>>, AllocError>
    ensures { IfOk result (λ found. option_copied found ≡ search_end devices.now pci.now) }
{
    if ends_search(alloc, devices.event(), pci)? {
        return Ok(Some(pci));
    }
    for device in devices.parents_of(alloc, pci.path())? {
        if is_of(b"pci", None, device) && ends_search(alloc, devices.event(), device)? {
            return Ok(Some(device));
        }
    }
    Ok(None)
}

/// The slot of a function by the slots of the bus. What is needed for it is added.
#[tactic(auto, unfolding(crate::specs::Slots::slot_by_bus))]
fn slot_by_bus<'a>(
    alloc: Global,
    needs: &mut OwnedTexts,
    devices: &Devices<'a>,
    pci: &Device<'a>,
) -> Result<Option<Slot>, AllocError>
    ensures slot { IfOk result (λ slot. slot ≡ slot_by_bus devices.now pci.now) }
    ensures needs { OnOk result (needs.new ≡ with_texts needs.old (bus_needs devices.now pci.now)) }
{
    let end = search_end(alloc, devices, pci)?;
    let is_described = is_described(alloc, devices.event(), SLOTS_FOLDER)?;
    let lacks_modalias = match end {
        Some(found) => {
            lacks(found, Attribute::Modalias) && read(found, Attribute::FunctionId).is_none()
        }
        None => false,
    };
    need(alloc, needs, lacks_modalias, b"modalias")?;
    need(alloc, needs, !is_described, b"slots")?;
    let Some(found) = end else {
        return Ok(None);
    };
    if let Some(identity) = read(found, Attribute::FunctionId) {
        return slot_by_identity(alloc, devices.event(), identity);
    }
    if is_bridge(found) {
        return Ok(None);
    }
    match number_by_place(alloc, devices.event(), found)? {
        Some(number) => Ok(Some(Slot {
            number,
            drops_domain: false,
        })),
        None => Ok(None),
    }
}

/// The slot of a function: by the firmware, or else by the slots of the bus. What is needed for it is added.
#[tactic(auto, unfolding(crate::specs::Slots::slot_of))]
pub(crate) fn slot_of<'a>(
    alloc: Global,
    needs: &mut OwnedTexts,
    devices: &Devices<'a>,
    pci: &Device<'a>,
) -> Result<Option<Slot>, AllocError>
    ensures slot { IfOk result (λ slot. slot ≡ slot_of devices.now pci.now) }
    ensures needs { OnOk result (needs.new ≡ with_texts needs.old (slot_needs devices.now pci.now)) }
{
    match number_by_firmware(alloc, needs, devices, pci)? {
        Some(number) => Ok(Some(Slot {
            number,
            drops_domain: false,
        })),
        None => slot_by_bus(alloc, needs, devices, pci),
    }
}
