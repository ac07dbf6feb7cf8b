//! The outcome of the builtin.
ghost use Rattle.std.specs.Prelude.{◌≡◌, IfOk, OnOk, option_copied};
ghost use Rattle.text_tables.specs.Texts.{with_texts};
ghost use Rattle.builtin_usb.specs.UsbId.{known, usb_id, usb_id_by};

use crate::identities::{Identity, identity_of};
use crate::kinds::reported_kind;
use crate::needs::{need_of_interface, need_type};
use crate::properties::{interfaces_text, properties_of};
use crate::subjects::{device_of, interface_of, unit_of};
use crate::units::{Unit, unit_texts};
use builtin_devices::{BuiltinOutcome, Devices};
use device_core::{Device, Event};
use std::alloc::{AllocError, Global};
use text_tables::OwnedTexts;

/// What is known about the USB device. What it lacks is added to what is needed.
fn known<'a>(
    alloc: Global,
    interface: Option<&Device<'_>>,
    device: Option<&Device<'a>>,
    texts: &Unit<'a>,
    needs: &mut OwnedTexts,
) -> Result<Option<Identity<'a>>, AllocError>
    ensures identity { IfOk result (λ identity. identity ≡ (known (option_copied interface.entry) (option_copied device.entry) texts.now).identity) }
    ensures needs { OnOk result (needs.new ≡ with_texts needs.old (known (option_copied interface.entry) (option_copied device.entry) texts.now).needs) }
{
    let Some(device) = device else {
        return Ok(None);
    };
    let kind = reported_kind(interface, texts.kind);
    identity_of(alloc, device, texts, kind, needs)
}

/// The outcome by the interface, the USB device and the SCSI device, and whether a search was unsure.
#[tactic(auto, using(crate::proofs::Needed::five_more), unfolding(crate::specs::UsbId::usb_id_by))]
fn usb_id_by(
    alloc: Global,
    event: &Event<'_>,
    interface: Option<&Device<'_>>,
    device: Option<&Device<'_>>,
    unit: Option<&Device<'_>>,
    is_unsure: bool,
    is_bus_set: bool,
) -> Result<BuiltinOutcome, AllocError>
    ensures { IfOk result (λ outcome. outcome
        ≡ usb_id_by event.now (option_copied interface.entry) (option_copied device.entry) (option_copied unit.entry) is_unsure is_bus_set) }
{
    let mut needs = OwnedTexts::new(alloc);
    need_type(alloc, event, is_unsure, &mut needs)?;
    need_of_interface(alloc, interface, &mut needs)?;
    let texts = unit_texts(alloc, unit, &mut needs)?;
    let interfaces = interfaces_text(alloc, event, device, &mut needs)?;
    let Some(identity) = known(alloc, interface, device, &texts, &mut needs)? else {
        return Ok(BuiltinOutcome::failing(alloc, needs));
    };
    let properties = properties_of(alloc, interface, interfaces, &identity, is_bus_set)?;
    Ok(BuiltinOutcome::succeeding(properties, needs))
}

/// The outcome of usb_id of udev (systemd 257) over an event: the properties `ID_USB_*` of the USB device that the
/// event device is or belongs to, and if ID_BUS was not set before, that and the same properties with the prefix
/// `ID_`.
///
/// The builtin fails if there is no USB device, if the class of its interface is not a number, or if its vendor or
/// its product has no number.
#[tactic(auto, unfolding(crate::specs::UsbId::usb_id))]
pub fn usb_id(
    alloc: Global,
    event: &Event<'_>,
    is_bus_set: bool,
) -> Result<BuiltinOutcome, AllocError>
    ensures { IfOk result (λ outcome. outcome ≡ usb_id event.now is_bus_set) }
{
    let devices = Devices::new(alloc, event)?;
    let interface = interface_of(alloc, &devices)?;
    let device = device_of(alloc, &devices, interface.device)?;
    let unit = unit_of(alloc, &devices, interface.device, device.device)?;
    let is_unsure = interface.is_unsure | device.is_unsure | unit.is_unsure;
    usb_id_by(
        alloc,
        event,
        interface.device,
        device.device,
        unit.device,
        is_unsure,
        is_bus_set,
    )
}
