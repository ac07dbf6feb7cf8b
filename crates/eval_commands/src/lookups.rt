//! What `hwdb` finds in the hardware database.
ghost use Rattle.std.specs.Prelude.{◌≡◌, ◌++◌, map, IfOk};
ghost use Rattle.trie_nodes.specs.Query.{query, shown};
ghost use Rattle.eval_commands.specs.Inner.{answer_of};
ghost use Rattle.eval_commands.specs.LookUps.{candidates, counted_properties, found, modaliases_by};

use crate::candidates::{candidates, udev_modaliases_of};
use crate::request::Request;
use crate::seen::modaliases_of;
use builtin_devices::Knowledge;
use eval_state::State;
use std::alloc::{AllocError, Global};
use text_bytes::Profile;

/// The properties of a modalias after a prefix.
fn properties<'k, K: Knowledge>(
    alloc: Global,
    prefix: &[u8],
    modalias: &[u8],
    knowledge: &'k K,
) -> Result<Vec<(&'k [u8], &'k [u8])>, AllocError>
    ensures { IfOk result (λ found. shown found.items ≡ query (K.known knowledge.now).entries (prefix.now ++ modalias.now)) }
{
    if prefix.is_empty() {
        return knowledge.query(alloc, modalias);
    }
    let mut text = Vec::with_capacity(alloc, prefix.len() + modalias.len())?;
    text.extend_from_slice(prefix)?;
    text.extend_from_slice(modalias)?;
    knowledge.query(alloc, &text)
}

/// The properties of a modalias that count: those whose keys fit the filter, if there is one.
fn counted_properties<'k, K: Knowledge>(
    alloc: Global,
    request: &Request<'_>,
    modalias: &[u8],
    knowledge: &'k K,
) -> Result<Vec<(&'k [u8], &'k [u8])>, AllocError>
    ensures { IfOk result (λ kept. shown kept.items ≡ counted_properties (K.known knowledge.now) request.now (request.now.prefix ++ modalias.now)) }
{
    let found = properties(alloc, request.prefix, modalias, knowledge)?;
    let Some(pattern) = request.filter else {
        return Ok(found);
    };
    let mut kept = Vec::new(alloc);
    for (key, value) in &found {
        if pattern.fits(key) {
            kept.push((*key, *value))?;
        }
    }
    Ok(kept)
}

/// The answer to the first of these modaliases that has one.
fn first_answer<'k, K: Knowledge>(
    alloc: Global,
    request: &Request<'_>,
    modaliases: &[&[u8]],
    knowledge: &'k K,
) -> Result<Vec<(&'k [u8], &'k [u8])>, AllocError>
    ensures { IfOk result (λ properties. shown properties.items ≡ answer_of (K.known knowledge.now) request.now (map (λ m. m.now) modaliases.now)) }
{
    for modalias in modaliases {
        let properties = counted_properties(alloc, request, modalias, knowledge)?;
        if !properties.as_slice().is_empty() {
            return Ok(properties);
        }
    }
    Ok(Vec::new(alloc))
}

/// What is found for the devices of an event.
fn found_for_devices<'k, K: Knowledge>(
    alloc: Global,
    request: &Request<'_>,
    state: &State<'_>,
    knowledge: &'k K,
) -> Result<Vec<(&'k [u8], &'k [u8])>, AllocError>
    ensures { IfOk result (λ properties. shown properties.items
        ≡ answer_of (K.known knowledge.now) request.now (modaliases_by state.now.event.profile request.now.subsystem (candidates state.now))) }
{
    match state.event.event().profile() {
        Profile::Manual => {
            let modaliases = modaliases_of(alloc, request.subsystem, state)?;
            first_answer(alloc, request, &modaliases, knowledge)
        }
        Profile::Udev => {
            let devices = candidates(alloc, state)?;
            let modaliases = udev_modaliases_of(alloc, request.subsystem, &devices)?;
            first_answer(alloc, request, &modaliases, knowledge)
        }
    }
}

/// What `hwdb` finds in a database for an event, as udev(7) has it: the answer to the first of these
/// texts that has one. With a modalias it is the one text, after the prefix; else it is the property
/// MODALIAS of each device, nearest first, that has a subsystem (the one named, if any) and this
/// property, after the prefix. The event device is taken by its properties as they are now. A device
/// of the subsystem `usb` whose property DEVTYPE is `usb_device` and that has the subsystem named, if
/// any, is the last one looked at, with or without a modalias. Only keys that fit the filter count.
///
/// In an event of udev's (systemd 257) DEVTYPE is what the kernel said, and a USB device without MODALIAS has
/// `usb:vVVVVpPPPP:NAME`, made of its attributes idVendor, idProduct and product, if the first two are numbers in
/// base 16 up to FFFF. If it does not have these either, the next device with a modalias is the last one looked at.
#[tactic(auto, unfolding(crate::specs::LookUps::found))]
pub fn look_up<'k, K: Knowledge>(
    alloc: Global,
    request: &Request<'_>,
    state: &State<'_>,
    knowledge: &'k K,
) -> Result<Vec<(&'k [u8], &'k [u8])>, AllocError>
    ensures { IfOk result (λ properties. shown properties.items ≡ found (K.known knowledge.now) request.now state.now) }
{
    match request.modalias {
        Some(modalias) => first_answer(alloc, request, &[modalias], knowledge),
        None => found_for_devices(alloc, request, state, knowledge),
    }
}
