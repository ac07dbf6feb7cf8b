//! The devices whose modaliases `hwdb` looks up as udev does.
ghost use Rattle.std.specs.Prelude.{◌≡◌, ◌≤◌, None, length, map, option_map, IfOk};
ghost use Rattle.text_bytes.specs.declared.profile.Profile.TheVariants.{Udev};
ghost use Rattle.eval_commands.specs.Inner.{candidates_as, wanted_in};
ghost use Rattle.eval_commands.specs.LookUps.{candidate_with, count_before_usb, is_last, is_wanted, modaliases_in, udev_modaliases_of};

use crate::usb_modalias::made_up;
use builtin_devices::{is_text, type_of};
use device_core::Device;
use eval_state::State;
use std::alloc::{AllocError, Global};
use std::marker::Model;
use text_bytes::Bytes;

/// What is looked at in a device.
#[derive(Drop)]
pub(crate) struct Candidate<'a> {
    subsystem: Option<&'a [u8]>,
    devtype: Option<&'a [u8]>,
    pub(crate) modalias: Option<Bytes>,
}

impl<'a> Model for Candidate<'a> {
    ghost use Rattle.std.specs.Prelude.{option_map};
    ghost use Rattle.eval_commands.specs.LookUps.{Candidate};

    ghost Value = { Candidate };

    ghost view = { λ c. record { subsystem = option_map (λ t. t.now) c.subsystem; devtype = option_map (λ t. t.now) c.devtype; modalias = c.modalias } };
}

/// A device as udev sees it, by its property MODALIAS, or the modalias that udev makes up for it if it has none; an empty
/// one is none.
pub(crate) fn seen_by_udev<'a>(
    alloc: Global,
    device: &'a Device<'_>,
    modalias: Option<&[u8]>,
) -> Result<Candidate<'a>, AllocError>
    ensures { IfOk result (λ c. c ≡ candidate_with Udev device.now None (option_map (λ t. t.now) modalias.entry)) }
{
    let modalias = match modalias {
        Some(modalias) if !modalias.is_empty() => Some(Bytes::copy_of(alloc, modalias)?),
        _ => made_up(alloc, device)?,
    };
    Ok(Candidate {
        subsystem: device.subsystem(),
        devtype: type_of(device),
        modalias,
    })
}

/// The devices of an event as udev sees them, nearest first.
pub(crate) fn candidates<'a>(
    alloc: Global,
    state: &'a State<'_>,
) -> Result<Vec<Candidate<'a>>, AllocError>
    ensures { IfOk result (λ devices. devices.items ≡ candidates_as Udev state.now) }
{
    let mut devices = Vec::new(alloc);
    let event = state.event.event();
    devices.push(seen_by_udev(alloc, event.device(), state.env.get(b"MODALIAS"))?)?;
    for device in event.parents() {
        devices.push(seen_by_udev(alloc, device, device.env().get(b"MODALIAS"))?)?;
    }
    Ok(devices)
}

/// Whether a subsystem is wanted: the one that is named, if any.
pub(crate) fn is_wanted(named: Option<&[u8]>, subsystem: Option<&[u8]>) -> bool
    ensures { result ≡ wanted_in (option_map (λ t. t.now) named.entry) (option_map (λ t. t.now) subsystem.entry) }
{
    match named {
        Some(name) => is_text(name, subsystem),
        None => subsystem.is_some(),
    }
}

impl<'a> Candidate<'a> {
    /// Whether it has a subsystem: the one that is named, if any.
    #[tactic(auto, using(crate::proofs::Seeing::wanted_by))]
    pub(crate) fn is_wanted(&self, subsystem: Option<&[u8]>) -> bool
        ensures { result ≡ is_wanted (option_map (λ t. t.now) subsystem.entry) self.now }
    {
        is_wanted(subsystem, self.subsystem)
    }

    /// Whether it is a device of USB that is wanted.
    pub(crate) fn is_last(&self, subsystem: Option<&[u8]>) -> bool
        ensures { result ≡ is_last (option_map (λ t. t.now) subsystem.entry) self.now }
    {
        self.is_wanted(subsystem)
            && is_text(b"usb", self.subsystem)
            && is_text(b"usb_device", self.devtype)
    }
}

/// The modaliases of those devices that are wanted and have one.
fn modaliases_in<'a>(
    alloc: Global,
    subsystem: Option<&[u8]>,
    devices: &'a [Candidate<'_>],
) -> Result<Vec<&'a [u8]>, AllocError>
    ensures { IfOk result (λ found. map (λ m. m.now) found.items ≡ modaliases_in (option_map (λ t. t.now) subsystem.entry) devices.now) }
{
    let mut found = Vec::new(alloc);
    for device in devices {
        if device.is_wanted(subsystem) {
            if let Some(modalias) = &device.modalias {
                found.push(modalias.as_slice())?;
            }
        }
    }
    Ok(found)
}

/// How many devices come before the first USB device that is wanted.
fn count_before_usb(subsystem: Option<&[u8]>, devices: &[Candidate<'_>]) -> usize
    ensures value { result ≡ count_before_usb (option_map (λ t. t.now) subsystem.entry) devices.now }
    ensures within { result ≤ length devices.now }
{
    let mut count = 0;
    for device in devices {
        if device.is_last(subsystem) {
            break;
        }
        count += 1;
    }
    count
}

/// The modaliases at which udev looks: those before the first device of USB, and from that device on the first one.
pub(crate) fn udev_modaliases_of<'a>(
    alloc: Global,
    subsystem: Option<&[u8]>,
    devices: &'a [Candidate<'_>],
) -> Result<Vec<&'a [u8]>, AllocError>
    ensures { IfOk result (λ found. map (λ m. m.now) found.items ≡ udev_modaliases_of (option_map (λ t. t.now) subsystem.entry) devices.now) }
{
    let (before, from) = devices.split_at(count_before_usb(subsystem, devices));
    let mut found = modaliases_in(alloc, subsystem, before)?;
    let others = modaliases_in(alloc, subsystem, from)?;
    if let Some((first, _)) = others.split_first() {
        found.push(*first)?;
    }
    Ok(found)
}
