//! What the block would have to report for usb_id, beside what the parts of the builtin say.
ghost use Rattle.std.specs.Prelude.{◌≡◌, OnOk, option_copied};
ghost use Rattle.text_tables.specs.Texts.{with_texts};
ghost use Rattle.builtin_devices.specs.Outcomes.{lacking};
ghost use Rattle.builtin_usb.specs.Needs.{interface_words, subclass_words, type_words};

use crate::kinds::is_storage;
use crate::subjects::is_untyped;
use builtin_devices::need_attribute;
use device_core::{Device, Event};
use std::alloc::{AllocError, Global};
use text_tables::OwnedTexts;

/// Adds a type, if a device is asked for one that it does not have: the event device, or one that a search met.
pub(crate) fn need_type(
    alloc: Global,
    event: &Event<'_>,
    is_unsure: bool,
    needs: &mut OwnedTexts,
) -> Result<(), AllocError>
    ensures { OnOk result (needs.new ≡ with_texts needs.old (type_words event.now is_unsure)) }
{
    let own = event.device();
    if is_untyped(b"usb", own) || is_untyped(b"scsi", own) || is_unsure {
        return needs.add(alloc, b"DEVTYPE");
    }
    Ok(())
}

/// Adds an attribute that a device lacks.
pub(crate) fn need(
    alloc: Global,
    device: &Device<'_>,
    name: &[u8],
    needs: &mut OwnedTexts,
) -> Result<(), AllocError>
    ensures { OnOk result (needs.new ≡ with_texts needs.old (lacking device.now name.now name.now)) }
{
    need_attribute(alloc, device, name, name, needs)
}

/// Adds the subclass, if an interface is storage and lacks it.
fn need_subclass(
    alloc: Global,
    interface: &Device<'_>,
    needs: &mut OwnedTexts,
) -> Result<(), AllocError>
    ensures { OnOk result (needs.new ≡ with_texts needs.old (subclass_words interface.now)) }
{
    if is_storage(interface) {
        need(alloc, interface, b"bInterfaceSubClass", needs)?;
    }
    Ok(())
}

/// Adds what an interface lacks, if there is one.
#[tactic(auto, using(crate::proofs::Needed::three_more))]
pub(crate) fn need_of_interface(
    alloc: Global,
    interface: Option<&Device<'_>>,
    needs: &mut OwnedTexts,
) -> Result<(), AllocError>
    ensures { OnOk result (needs.new ≡ with_texts needs.old (interface_words (option_copied interface.entry))) }
{
    let Some(interface) = interface else {
        return Ok(());
    };
    need(alloc, interface, b"bInterfaceNumber", needs)?;
    need(alloc, interface, b"bInterfaceClass", needs)?;
    need_subclass(alloc, interface, needs)?;
    Ok(())
}
