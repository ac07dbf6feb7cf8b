//! The outcome of input_id.
ghost use Rattle.std.specs.Prelude.{◌≡◌, ◌&&◌, ◌++◌, IfOk, OnOk, map, option_copied, Some};
ghost use Rattle.std.specs.List.{find};
ghost use Rattle.text_tables.specs.Texts.{with_texts};
ghost use Rattle.device_core.specs.Values.{chain};
ghost use Rattle.builtin_devices.specs.Outcomes.{needs_of};
ghost use Rattle.builtin_input.specs.Input.{attribute_needs, chain_needs, device_needs, input_device, input_id, is_input, is_input_device};
ghost use Rattle.builtin_input.specs.Input.{is_input_path, kind_properties, outcome_of, reports, set, size_needs};
ghost use Rattle.builtin_input.specs.Kinds.{property_of};
ghost use Rattle.builtin_input.specs.Capabilities.{capabilities};

use crate::capabilities::Capabilities;
use crate::kinds::Kind;
use builtin_devices::{BuiltinOutcome, add_property, is_text, need_attribute, word_about};
use device_core::{Device, Event};
use std::alloc::{AllocError, Global};
use text_bytes::{Bytes, kernel_name, last_digits};
use text_tables::OwnedTexts;

/// The attributes that each input device has.
const EXPECTED: [&[u8]; 5] = [
    b"id/bustype",
    b"capabilities/abs",
    b"capabilities/rel",
    b"capabilities/key",
    b"properties",
];

/// Whether a device reports which kinds of events it has.
fn reports(device: &Device<'_>) -> bool
    ensures { result ≡ reports device.now }
{
    device.attrs().get(b"capabilities/ev").is_some()
}

/// Whether a device is of the subsystem of input devices.
fn is_input(device: &Device<'_>) -> bool
    ensures { result ≡ is_input device.now }
{
    is_text(b"input", device.subsystem())
}

/// The nearest of these devices that is of the subsystem and reports about itself.
fn nearest<'d, 'a>(devices: &'d [Device<'a>]) -> Option<&'d Device<'a>>
    ensures { option_copied result ≡ find (λ device. is_input device && reports device) devices.now }
{
    devices
        .iter()
        .find(|device| is_input(device) && reports(device))
}

/// The device that reports about itself.
fn input_device<'d, 'a>(event: &'d Event<'a>) -> Option<&'d Device<'a>>
    ensures { option_copied result ≡ input_device event.now }
{
    if reports(event.device()) {
        Some(event.device())
    } else {
        nearest(event.parents())
    }
}

/// Adds the properties of these kinds.
fn add_kinds(
    alloc: Global,
    kinds: &[Kind],
    properties: &mut Vec<(Bytes, Bytes)>,
) -> Result<(), AllocError>
    ensures { OnOk result (properties.new.items ≡ properties.old.items ++ map (λ kind. set (property_of kind)) kinds.now) }
{
    for kind in kinds {
        add_property(alloc, kind.property(), b"1", properties)?;
    }
    Ok(())
}

/// The properties that are set for a device that reports this about itself.
#[tactic(auto, unfolding(crate::specs::Input::kind_properties))]
fn kind_properties(alloc: Global, device: &Capabilities) -> Result<Vec<(Bytes, Bytes)>, AllocError>
    ensures { IfOk result (λ p. p.items ≡ kind_properties device.now) }
{
    let kinds = device.kinds(alloc)?;
    let mut properties = Vec::new(alloc);
    add_property(alloc, b"ID_INPUT", b"1", &mut properties)?;
    add_kinds(alloc, &kinds, &mut properties)?;
    Ok(properties)
}

/// Adds the size of a device to what is needed, if the node is asked for it.
fn add_size(
    alloc: Global,
    event: &Event<'_>,
    reported: &Capabilities,
    needs: &mut OwnedTexts,
) -> Result<(), AllocError>
    ensures { OnOk result (needs.new ≡ with_texts needs.old (size_needs event.now reported.now)) }
{
    let kernel = kernel_name(alloc, event.device().path())?;
    if kernel.as_slice().starts_with(b"event") && reported.has_position() {
        needs.add(alloc, b"absolute axes")?;
    }
    Ok(())
}

/// Adds those of these attributes that a device lacks to what is needed.
fn add_lacking(
    alloc: Global,
    event: &Event<'_>,
    device: &Device<'_>,
    names: &[&[u8]],
    needs: &mut OwnedTexts,
) -> Result<(), AllocError>
    ensures { OnOk result (needs.new ≡ with_texts needs.old (attribute_needs event.now device.now (map (λ name. name.now) names.now))) }
{
    for name in names {
        let word = word_about(alloc, event, device, name)?;
        need_attribute(alloc, device, name, &word, needs)?;
    }
    Ok(())
}

/// What the block would have to report about a device and its node.
#[tactic(auto, using(crate::proofs::Needs::in_two), unfolding(crate::specs::Input::device_needs))]
fn device_needs(
    alloc: Global,
    event: &Event<'_>,
    device: &Device<'_>,
    reported: &Capabilities,
) -> Result<OwnedTexts, AllocError>
    requires { reported.now ≡ capabilities device.now }
    ensures { IfOk result (λ needs. needs ≡ needs_of (device_needs event.now device.now)) }
{
    let mut needs = OwnedTexts::new(alloc);
    add_lacking(alloc, event, device, &EXPECTED, &mut needs)?;
    add_size(alloc, event, reported, &mut needs)?;
    Ok(needs)
}

/// Whether the last component of a path is `input` and a number.
fn is_input_path(path: &[u8]) -> bool
    ensures { result ≡ is_input_path path.now }
{
    let digits = last_digits(path);
    let (before, _) = path.split_at(path.len() - digits.len());
    !digits.is_empty() && before.ends_with(b"/input")
}

/// Whether a device is an input device by its subsystem and its name.
fn is_input_device(device: &Device<'_>) -> bool
    ensures { result ≡ is_input_device device.now }
{
    is_input(device) && is_input_path(device.path())
}

/// The nearest of these devices that is an input device.
fn first_input_device<'d, 'a>(devices: &'d [Device<'a>]) -> Option<&'d Device<'a>>
    ensures { option_copied result ≡ find is_input_device devices.now }
{
    devices.iter().find(|device| is_input_device(device))
}

/// The nearest device of the chain that is an input device.
fn input_device_of_chain<'d, 'a>(event: &'d Event<'a>) -> Option<&'d Device<'a>>
    ensures { option_copied result ≡ find is_input_device (chain event.now) }
{
    if is_input_device(event.device()) {
        return Some(event.device());
    }
    first_input_device(event.parents())
}

/// What is needed if no device reports about itself.
#[tactic(auto, unfolding(crate::specs::Input::chain_needs))]
fn chain_needs(alloc: Global, event: &Event<'_>) -> Result<OwnedTexts, AllocError>
    ensures { IfOk result (λ needs. needs ≡ needs_of (chain_needs event.now)) }
{
    let mut needs = OwnedTexts::new(alloc);
    if let Some(device) = input_device_of_chain(event) {
        let word = word_about(alloc, event, device, b"capabilities/ev")?;
        needs.add(alloc, &word)?;
    }
    Ok(needs)
}

/// The outcome for a device that reports about itself.
fn outcome_of(
    alloc: Global,
    event: &Event<'_>,
    device: &Device<'_>,
) -> Result<BuiltinOutcome, AllocError>
    ensures { IfOk result (λ outcome. outcome ≡ outcome_of event.now (Some device.now)) }
{
    let reported = Capabilities::read(alloc, device)?;
    let needs = device_needs(alloc, event, device, &reported)?;
    let properties = kind_properties(alloc, &reported)?;
    drop(reported);
    Ok(BuiltinOutcome::succeeding(properties, needs))
}

/// The outcome of input_id of udev (systemd 257) over an event: `ID_INPUT=1`, then a property for each kind of
/// input device that the device is, such as `ID_INPUT_MOUSE=1`.
///
/// The kinds follow from the attributes `capabilities/*`, `properties` and `id/bustype` of the event device if it
/// has `capabilities/ev`, or else of its nearest parent of the subsystem `input` that has. It always succeeds, and
/// sets nothing if no device has them. What is needed are the attributes that an input device lacks, and `absolute
/// axes` if udev would ask the node of a touchpad or a screen for its size, which is never set here.
#[tactic(auto, unfolding(crate::specs::Input::input_id))]
pub fn input_id(alloc: Global, event: &Event<'_>) -> Result<BuiltinOutcome, AllocError>
    ensures { IfOk result (λ outcome. outcome ≡ input_id event.now) }
{
    match input_device(event) {
        Some(device) => outcome_of(alloc, event, device),
        None => Ok(BuiltinOutcome::succeeding(Vec::new(alloc), chain_needs(alloc, event)?)),
    }
}
