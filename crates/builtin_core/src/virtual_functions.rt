//! Virtual functions of PCI whose physical one the block does not give.
ghost use Rattle.std.specs.Prelude.{◌≡◌, IfOk, OnOk, option_map};
ghost use Rattle.std.specs.List.{list_any};
ghost use Rattle.text_tables.specs.Texts.{with_texts};
ghost use Rattle.device_core.specs.Values.{chain};
ghost use Rattle.builtin_core.specs.Needs.{file_of, lacks_physical, physical_words};

use builtin_devices::{bytes_of, file_at};
use device_core::{Device, Event};
use std::alloc::{AllocError, Global};
use text_tables::OwnedTexts;

/// What the file of a device says, by its name after a slash.
fn file_of<'a>(
    alloc: Global,
    event: &Event<'a>,
    device: &Device<'_>,
    name: &[u8],
) -> Result<Option<&'a [u8]>, AllocError>
    ensures { IfOk result (λ text. option_map (λ t. t.now) text ≡ file_of event.now device.now name.now) }
{
    let mut path = Vec::from_slice(alloc, device.path())?;
    path.extend_from_slice(name)?;
    Ok(file_at(event, &path))
}

/// Whether a device is a virtual function, by its configuration, and the block does not say of which physical one.
#[tactic(auto, unfolding(crate::specs::Needs::lacks_physical))]
fn lacks_physical(alloc: Global, event: &Event<'_>, device: &Device<'_>) -> Result<bool, AllocError>
    ensures { IfOk result (λ lacks. lacks ≡ lacks_physical event.now device.now) }
{
    let Some(digits) = file_of(alloc, event, device, b"/config")? else {
        return Ok(false);
    };
    let Some(config) = bytes_of(alloc, digits)? else {
        return Ok(false);
    };
    let is_virtual = config.starts_with(b"\xff\xff\xff\xff");
    Ok(is_virtual && file_of(alloc, event, device, b"/physfn")?.is_none())
}

/// Whether one of these devices is such a virtual function.
fn some_lacks_physical(
    alloc: Global,
    event: &Event<'_>,
    devices: &[Device<'_>],
) -> Result<bool, AllocError>
    ensures { IfOk result (λ lacks. lacks ≡ list_any (lacks_physical event.now) devices.now) }
{
    for device in devices {
        if lacks_physical(alloc, event, device)? {
            return Ok(true);
        }
    }
    Ok(false)
}

/// Adds the link to a physical function, if a device of the chain lacks it.
pub(crate) fn need_physical(
    alloc: Global,
    event: &Event<'_>,
    needs: &mut OwnedTexts,
) -> Result<(), AllocError>
    ensures { OnOk result (needs.new ≡ with_texts needs.old (physical_words event.now)) }
{
    if lacks_physical(alloc, event, event.device())?
        || some_lacks_physical(alloc, event, event.parents())?
    {
        needs.add(alloc, b"physfn")?;
    }
    Ok(())
}
