//! What a block would have to report for a look-up of `hwdb` that finds nothing.
ghost use Rattle.std.specs.Prelude.{◌≡◌, ◌++◌, None, IfOk, map, option_map};
ghost use Rattle.trie_nodes.specs.Query.{shown};
ghost use Rattle.text_bytes.specs.declared.profile.Profile.TheVariants.{Udev};
ghost use Rattle.eval_commands.specs.LookUps.{candidate_with, is_last};
ghost use Rattle.eval_commands.specs.LookUpNeeds.{devices_seen, has_modalias, lookup_needs, modalias_word, modalias_words};

use crate::candidates::seen_by_udev;
use crate::request::Request;
use builtin_devices::{is_text, word_about};
use device_core::{Device, Event};
use eval_state::State;
use std::alloc::{AllocError, Global};
use text_bytes::{Profile, last_component};

/// Whether udev finds a modalias of each such device on a machine.
#[tactic(auto, unfolding(crate::specs::LookUpNeeds::has_modalias))]
fn has_modalias(device: &Device<'_>) -> bool
    ensures { result ≡ has_modalias device.now }
{
    let subsystem = device.subsystem();
    is_text(b"pci", subsystem)
        || is_text(b"usb", subsystem)
        || is_text(b"hid", subsystem)
        || is_text(b"virtio", subsystem)
        || (is_text(b"input", subsystem) && last_component(device.path()).starts_with(b"input"))
}

/// Adds the word for the modalias that a device lacks, and returns whether the device is the last one that is looked
/// at.
fn add_word(
    alloc: Global,
    event: &Event<'_>,
    subsystem: Option<&[u8]>,
    device: &Device<'_>,
    modalias: Option<&[u8]>,
    words: &mut Vec<Vec<u8>>,
) -> Result<bool, AllocError>
    ensures words { IfOk result (λ last. map (λ w. w.items) words.new.items
        ≡ map (λ w. w.items) words.old.items ++ modalias_word event.now (option_map (λ t. t.now) subsystem.entry) device.now
        (candidate_with Udev device.now None (option_map (λ t. t.now) modalias.entry))) }
    ensures last { IfOk result (λ last. last ≡ is_last (option_map (λ t. t.now) subsystem.entry)
        (candidate_with Udev device.now None (option_map (λ t. t.now) modalias.entry))) }
{
    let seen = seen_by_udev(alloc, device, modalias)?;
    if seen.is_wanted(subsystem) && seen.modalias.is_none() && has_modalias(device) {
        words.push(word_about(alloc, event, device, b"MODALIAS")?)?;
    }
    Ok(seen.is_last(subsystem))
}

/// The words for the modaliases that the block lacks of the devices that are looked at.
fn modalias_words(
    alloc: Global,
    subsystem: Option<&[u8]>,
    state: &State<'_>,
) -> Result<Vec<Vec<u8>>, AllocError>
    ensures { IfOk result (λ words. map (λ w. w.items) words.items
        ≡ modalias_words state.now.event (option_map (λ t. t.now) subsystem.entry) (devices_seen state.now)) }
{
    let event = state.event.event();
    let mut words = Vec::new(alloc);
    let modalias = state.env.get(b"MODALIAS");
    if add_word(
        alloc,
        event,
        subsystem,
        event.device(),
        modalias,
        &mut words,
    )? {
        return Ok(words);
    }
    for device in event.parents() {
        let modalias = device.env().get(b"MODALIAS");
        if add_word(alloc, event, subsystem, device, modalias, &mut words)? {
            return Ok(words);
        }
    }
    Ok(words)
}

/// What the block would have to report for a look-up, by what was found: for udev the modaliases of devices, if they
/// were looked up and nothing was found, each as a word about its device, as a note has it; by the manual nothing.
pub fn lookup_needs(
    alloc: Global,
    request: &Request<'_>,
    state: &State<'_>,
    found: &[(&[u8], &[u8])],
) -> Result<Vec<Vec<u8>>, AllocError>
    ensures { IfOk result (λ needs. map (λ w. w.items) needs.items ≡ lookup_needs state.now.event.profile state.now request.now (shown found.now)) }
{
    match state.event.event().profile() {
        Profile::Manual => Ok(Vec::new(alloc)),
        Profile::Udev => match found.split_first() {
            Some((_first, _others)) => Ok(Vec::new(alloc)),
            None => match request.modalias {
                Some(_given) => Ok(Vec::new(alloc)),
                None => modalias_words(alloc, request.subsystem, state),
            },
        },
    }
}
