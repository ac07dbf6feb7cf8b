//! The modaliases that `hwdb` looks up by the manual.
//!
//! They are borrowed.
ghost use Rattle.std.specs.Prelude.{◌≡◌, ◌∷◌, ◌++◌, [], IfOk, map, option_map};
ghost use Rattle.text_bytes.specs.declared.profile.Profile.TheVariants.{Manual};
ghost use Rattle.eval_commands.specs.Inner.{candidates_as};
ghost use Rattle.eval_commands.specs.LookUps.{candidate_with, is_last, modaliases_in, modaliases_of};

use crate::candidates::is_wanted;
use builtin_devices::is_text;
use device_core::Device;
use eval_state::State;
use std::alloc::{AllocError, Global};

/// Adds the modalias of a device, if it is wanted and has one, and returns whether no device after it is looked at.
#[tactic(auto, using(crate::proofs::Seeing::wanted_by))]
fn add_modalias<'a>(
    named: Option<&[u8]>,
    device: &Device<'_>,
    devtype: Option<&[u8]>,
    modalias: Option<&'a [u8]>,
    found: &mut Vec<&'a [u8]>,
) -> Result<bool, AllocError>
    ensures found { IfOk result (λ last. map (λ m. m.now) found.new.items ≡ map (λ m. m.now) found.old.items
        ++ modaliases_in (option_map (λ t. t.now) named.entry)
        (candidate_with Manual device.now (option_map (λ t. t.now) devtype.entry) (option_map (λ t. t.now) modalias.entry) ∷ [])) }
    ensures last { IfOk result (λ last. last ≡ is_last (option_map (λ t. t.now) named.entry)
        (candidate_with Manual device.now (option_map (λ t. t.now) devtype.entry) (option_map (λ t. t.now) modalias.entry))) }
{
    if !is_wanted(named, device.subsystem()) {
        return Ok(false);
    }
    if let Some(modalias) = modalias {
        found.push(modalias)?;
    }
    Ok(is_text(b"usb", device.subsystem()) && is_text(b"usb_device", devtype))
}

/// The modaliases of devices, nearest first, each of which has a subsystem: the one that is named, if any. Such a
/// USB device is the last one, with or without a modalias. The event device is taken by its properties as they are now.
pub(crate) fn modaliases_of<'a>(
    alloc: Global,
    named: Option<&[u8]>,
    state: &'a State<'_>,
) -> Result<Vec<&'a [u8]>, AllocError>
    ensures { IfOk result (λ found. map (λ m. m.now) found.items ≡ modaliases_of (option_map (λ t. t.now) named.entry) (candidates_as Manual state.now)) }
{
    let event = state.event.event();
    let mut found = Vec::new(alloc);
    let devtype = state.env.get(b"DEVTYPE");
    let modalias = state.env.get(b"MODALIAS");
    if add_modalias(named, event.device(), devtype, modalias, &mut found)? {
        return Ok(found);
    }
    for device in event.parents() {
        let devtype = device.env().get(b"DEVTYPE");
        let modalias = device.env().get(b"MODALIAS");
        if add_modalias(named, device, devtype, modalias, &mut found)? {
            return Ok(found);
        }
    }
    Ok(found)
}
