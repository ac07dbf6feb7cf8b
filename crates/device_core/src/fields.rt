//! A device with one more line about it.
ghost use Rattle.std.specs.Prelude.{◌≡◌, Some, option_map};
ghost use Rattle.device_core.specs.Steps.{Gives, if_ok, once_step, number_step, pair_step, member_step, field_step, bare_device};

use crate::devices::{Device, DeviceNumber};
use crate::faults::BlockFaultKind;
use crate::lines::DeviceField;
use crate::parts::{number_of, pair_of};
use std::alloc::Global;
use text_tables::{Pairs, Texts};

/// A device of which only the path is known.
pub(crate) fn bare_device<'a>(alloc: Global, path: &'a [u8]) -> Device<'a>
    ensures { result ≡ bare_device path.now }
{
    Device {
        path,
        subsystem: None,
        driver: None,
        node: None,
        number: None,
        attrs: Pairs::new(alloc),
        env: Pairs::new(alloc),
        stored: Pairs::new(alloc),
        tags: Texts::new(alloc),
        links: Texts::new(alloc),
    }
}

/// A text that a device may have once.
#[tactic(auto, unfolding(crate::specs::Steps::once_step))]
fn set_text<'a>(text: &mut Option<&'a [u8]>, rest: &'a [u8]) -> Result<(), BlockFaultKind>
    ensures { Gives (λ _. option_map (λ t. t.now) text.new) result (if_ok Some (once_step (option_map (λ t. t.now) text.old) rest.now)) }
{
    if rest.is_empty() {
        return Err(BlockFaultKind::Pair);
    }
    if text.is_some() {
        return Err(BlockFaultKind::Twice);
    }
    *text = Some(rest);
    Ok(())
}

/// The number of a device.
#[tactic(auto, unfolding(crate::specs::Steps::number_step))]
fn set_number<'a>(
    number: &mut Option<DeviceNumber<'a>>,
    rest: &'a [u8],
) -> Result<(), BlockFaultKind>
    ensures { Gives (λ _. number.new) result (if_ok Some (number_step number.old rest.now)) }
{
    let Some(read) = number_of(rest) else {
        return Err(BlockFaultKind::Number);
    };
    if number.is_some() {
        return Err(BlockFaultKind::Twice);
    }
    *number = Some(read);
    Ok(())
}

/// One more name with its value.
#[tactic(auto, unfolding(crate::specs::Steps::pair_step))]
pub(crate) fn add_pair<'a>(pairs: &mut Pairs<'a>, rest: &'a [u8]) -> Result<(), BlockFaultKind>
    ensures { Gives (λ _. pairs.new) result (pair_step pairs.old rest.now) }
{
    let Some((name, value)) = pair_of(rest) else {
        return Err(BlockFaultKind::Pair);
    };
    if !pairs.add(name, value)? {
        return Err(BlockFaultKind::Twice);
    }
    Ok(())
}

/// One more tag or link.
#[tactic(auto, unfolding(crate::specs::Steps::member_step))]
fn add_text<'a>(texts: &mut Texts<'a>, rest: &'a [u8]) -> Result<(), BlockFaultKind>
    ensures { Gives (λ _. texts.new) result (member_step texts.old rest.now) }
{
    if rest.is_empty() {
        return Err(BlockFaultKind::Pair);
    }
    if !texts.add(rest)? {
        return Err(BlockFaultKind::Twice);
    }
    Ok(())
}

/// A line about the device above.
#[tactic(auto, unfolding(crate::specs::Steps::field_step))]
pub(crate) fn add_field<'a>(
    device: &mut Device<'a>,
    field: DeviceField,
    rest: &'a [u8],
) -> Result<(), BlockFaultKind>
    ensures { Gives (λ _. device.new) result (field_step device.old field rest.now) }
{
    match field {
        DeviceField::Subsystem => set_text(&mut device.subsystem, rest),
        DeviceField::Driver => set_text(&mut device.driver, rest),
        DeviceField::Node => set_text(&mut device.node, rest),
        DeviceField::Devnum => set_number(&mut device.number, rest),
        DeviceField::Attribute => add_pair(&mut device.attrs, rest),
        DeviceField::Property => add_pair(&mut device.env, rest),
        DeviceField::Stored => add_pair(&mut device.stored, rest),
        DeviceField::Tag => add_text(&mut device.tags, rest),
        DeviceField::Link => add_text(&mut device.links, rest),
    }
}
