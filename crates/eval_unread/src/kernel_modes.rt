//! The mode that the kernel gives the node of a device.
ghost use Rattle.std.specs.Prelude.{◌≡◌, ◌<◌, ◌^◌, IfOk, IfSome, option_map};
ghost use Rattle.std.specs.Option.{option_and_then};
ghost use Rattle.eval_unread.specs.KernelModes.{kernel_mode, node_mode, with_kernel_mode, written_mode};

use device_core::{Device, Event};
use eval_assignments::four_digits;
use eval_rules::Outcome;
use rule_types::mode_of;
use std::alloc::{AllocError, Global};
use text_bytes::{Bytes, Profile, begins_with};

/// The mode that a text is, if it is written as the kernel writes it.
fn written_mode(text: Option<&[u8]>) -> Option<u32>
    ensures value { result ≡ option_and_then written_mode (option_map (λ t. t.now) text.entry) }
    ensures within { IfSome result (λ mode. mode < 8 ^ 4) }
{
    let text = text?;
    if begins_with(b'0', text) {
        mode_of(text)
    } else {
        None
    }
}

/// The mode of the node of a device by its property DEVMODE.
fn node_mode(alloc: Global, device: &Device<'_>) -> Result<Option<Bytes>, AllocError>
    ensures { IfOk result (λ mode. mode ≡ node_mode device.now) }
{
    if device.number().is_none() {
        return Ok(None);
    }
    match written_mode(device.env().get(b"DEVMODE")) {
        Some(mode) => Ok(Some(four_digits(alloc, mode)?)),
        None => Ok(None),
    }
}

/// The mode that the kernel gives by the profile of an event.
fn kernel_mode(alloc: Global, event: &Event<'_>) -> Result<Option<Bytes>, AllocError>
    ensures { IfOk result (λ mode. mode ≡ kernel_mode event.now.profile event.now) }
{
    match event.profile() {
        Profile::Manual => Ok(None),
        Profile::Udev => node_mode(alloc, event.device()),
    }
}

/// An outcome with the kernel's mode of the node, for udev (systemd 257), if no rule set one. If memory runs out, the outcome is
/// dropped.
pub(crate) fn with_kernel_mode<'o>(
    alloc: Global,
    event: &Event<'_>,
    mut outcome: Outcome<'o>,
) -> Result<Outcome<'o>, AllocError>
    ensures { IfOk result (λ all. all ≡ with_kernel_mode event.now outcome.entry) }
{
    if outcome.mode.is_some() {
        return Ok(outcome);
    }
    match kernel_mode(alloc, event) {
        Ok(mode) => {
            outcome.mode = mode;
            Ok(outcome)
        }
        Err(refused) => {
            drop(outcome);
            Err(refused)
        }
    }
}
