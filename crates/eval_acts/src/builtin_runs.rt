//! The builtins of udev that look at the devices of an event.
ghost use Rattle.std.specs.Prelude.{◌≡◌, ◌-◌, nat_le, Some, None, if◌then◌else◌, IfOk, OnErr, OnOk, map, option_map};
ghost use Rattle.trie_nodes.specs.Query.{shown};
ghost use Rattle.rule_types.specs.Builtins.{builtin_name};
ghost use Rattle.rule_types.specs.declared.builtins.Builtin.TheVariants.{NetId};
ghost use Rattle.eval_state.specs.Properties.{properties_set};
ghost use Rattle.eval_acts.specs.BuiltinRuns.{input_id_run, is_address_name, looked_up, most_set, needs_noted, needs_word, net_id_run};
ghost use Rattle.eval_acts.specs.BuiltinRuns.{net_setup_link_run, outcome_set};
ghost use Rattle.eval_acts.specs.BuiltinRuns.{outcome_taken, path_id_run, properties_size, property_size, usb_id_run, with_maker};

use crate::imports::set_as_udev;
use builtin_devices::{BuiltinOutcome, Knowledge};
use eval_state::{NoteKind, Scene, set_property};
use rule_types::{Builtin, Rule};
use std::alloc::{AllocError, Global};
use text_bytes::Bytes;
use text_tables::CowPairs;

/// The most that a builtin may set: its names and values, each counted with one byte more.
pub(crate) const MAX_SET: usize = 65536;

/// The word of a note on what a builtin needs.
fn needs_word(
    alloc: Global,
    name: &[u8],
    first: &[u8],
    further: &[Vec<u8>],
) -> Result<Vec<u8>, AllocError>
    ensures { IfOk result (λ word. word.items ≡ needs_word name.now first.now (map (λ need. need.items) further.now)) }
{
    let mut word = Vec::from_slice(alloc, name)?;
    word.extend_from_slice(b": ")?;
    word.extend_from_slice(first)?;
    for need in further {
        word.extend_from_slice(b", ")?;
        word.extend_from_slice(need)?;
    }
    Ok(word)
}

/// Notes all that a builtin needs from the block, if it needs anything.
pub(crate) fn note_needs(
    alloc: Global,
    rule: &Rule,
    name: &[u8],
    needs: &[Vec<u8>],
    scene: &mut Scene<'_>,
) -> Result<(), AllocError>
    ensures scene { OnOk result (scene.new ≡ needs_noted rule.now name.now (map (λ need. need.items) needs.now) scene.old) }
    ensures refused { OnErr result (scene.new.state.event ≡ scene.old.state.event) }
{
    match needs.split_first() {
        Some((first, further)) => {
            let word = needs_word(alloc, name, first, further)?;
            scene.note(alloc, rule, NoteKind::BuiltinNeeds, &word)
        }
        None => Ok(()),
    }
}

/// How much of a room is left after a property, if it fits.
fn room_after(room: usize, name: &[u8], value: &[u8]) -> Option<usize>
    ensures { result ≡ (if nat_le (property_size (name.now, value.now)) room then Some (room - property_size (name.now, value.now)) else None) }
{
    room.checked_sub(name.len())?
        .checked_sub(value.len())?
        .checked_sub(2)
}

/// Whether properties are no more than a builtin may set.
fn may_be_set(properties: &[(Bytes, Bytes)]) -> bool
    ensures { result ≡ nat_le (properties_size properties.now) most_set }
{
    let mut room = MAX_SET;
    for (name, value) in properties {
        match room_after(room, name.as_slice(), value.as_slice()) {
            Some(left) => room = left,
            None => return false,
        }
    }
    true
}

/// Sets the properties of a builtin.
fn set_properties(
    alloc: Global,
    properties: &[(Bytes, Bytes)],
    env: &mut CowPairs<'_>,
) -> Result<(), AllocError>
    ensures { OnOk result (env.new ≡ properties_set env.old properties.now) }
{
    for (name, value) in properties {
        set_property(alloc, name.as_slice(), value.as_slice(), env)?;
    }
    Ok(())
}

/// Takes the outcome of a builtin, and returns whether it was done.
fn take_outcome(
    alloc: Global,
    rule: &Rule,
    builtin: Builtin,
    outcome: &BuiltinOutcome,
    scene: &mut Scene<'_>,
) -> Result<bool, AllocError>
    ensures scene { IfOk result (λ done. (scene.new, done) ≡ outcome_taken rule.now (builtin_name builtin) outcome.now scene.old) }
    ensures refused { OnErr result (scene.new.state.event ≡ scene.old.state.event) }
{
    if !may_be_set(outcome.properties()) {
        scene.note(alloc, rule, NoteKind::TextTooLong, builtin.name())?;
        return Ok(false);
    }
    set_properties(alloc, outcome.properties(), &mut scene.state.env)?;
    note_needs(
        alloc,
        rule,
        builtin.name(),
        outcome.needs().as_slice(),
        scene,
    )?;
    Ok(outcome.is_done())
}

/// Runs `usb_id`, unless it has run before.
pub(crate) fn run_usb_id<K: Knowledge>(
    alloc: Global,
    rule: &Rule,
    knowledge: &K,
    scene: &mut Scene<'_>,
) -> Result<bool, AllocError>
    ensures scene { IfOk result (λ done. (scene.new, done) ≡ usb_id_run (K.known knowledge.now) scene.old.ran.usb_id rule.now scene.old) }
    ensures refused { OnErr result (scene.new.state.event ≡ scene.old.state.event) }
{
    if let Some(done) = scene.ran.usb_id {
        return Ok(done);
    }
    let is_bus_set = scene.state.env.get(b"ID_BUS").is_some();
    let outcome = knowledge.usb_id(alloc, scene.state.event.event(), is_bus_set)?;
    let done = take_outcome(alloc, rule, Builtin::UsbId, &outcome, scene)?;
    scene.ran.usb_id = Some(done);
    Ok(done)
}

/// Runs `path_id`, unless it has run before.
pub(crate) fn run_path_id<K: Knowledge>(
    alloc: Global,
    rule: &Rule,
    knowledge: &K,
    scene: &mut Scene<'_>,
) -> Result<bool, AllocError>
    ensures scene { IfOk result (λ done. (scene.new, done) ≡ path_id_run (K.known knowledge.now) scene.old.ran.path_id rule.now scene.old) }
    ensures refused { OnErr result (scene.new.state.event ≡ scene.old.state.event) }
{
    if let Some(done) = scene.ran.path_id {
        return Ok(done);
    }
    let outcome = knowledge.path_id(alloc, scene.state.event.event())?;
    let done = take_outcome(alloc, rule, Builtin::PathId, &outcome, scene)?;
    scene.ran.path_id = Some(done);
    Ok(done)
}

/// Runs `input_id`.
pub(crate) fn run_input_id<K: Knowledge>(
    alloc: Global,
    rule: &Rule,
    knowledge: &K,
    scene: &mut Scene<'_>,
) -> Result<bool, AllocError>
    ensures scene { IfOk result (λ done. (scene.new, done) ≡ input_id_run (K.known knowledge.now) rule.now scene.old) }
    ensures refused { OnErr result (scene.new.state.event ≡ scene.old.state.event) }
{
    let outcome = knowledge.input_id(alloc, scene.state.event.event())?;
    take_outcome(alloc, rule, Builtin::InputId, &outcome, scene)
}

/// What the hardware database says about a text, if there is one.
fn found_for<'k, K: Knowledge>(
    alloc: Global,
    knowledge: &'k K,
    text: Option<&[u8]>,
) -> Result<Vec<(&'k [u8], &'k [u8])>, AllocError>
    ensures { IfOk result (λ found. shown found.items ≡ looked_up (K.known knowledge.now) (option_map (λ t. t.now) text.entry)) }
{
    match text {
        Some(text) => knowledge.query(alloc, text),
        None => Ok(Vec::new(alloc)),
    }
}

/// Whether a property is the name by an address.
fn is_address_name(property: &(Bytes, Bytes)) -> bool
    ensures { result ≡ is_address_name property.now }
{
    property.0.as_slice() == b"ID_NET_NAME_MAC".as_slice()
}

/// Sets the properties of `net_id`, and right after the name by the device's address what was found for the address.
#[tactic(auto, using(crate::proofs::Setting::in_two))]
fn set_names(
    alloc: Global,
    properties: &[(Bytes, Bytes)],
    found: &[(&[u8], &[u8])],
    env: &mut CowPairs<'_>,
) -> Result<(), AllocError>
    ensures { OnOk result (env.new ≡ properties_set env.old (with_maker (shown found.now) properties.now)) }
{
    let mut rest = properties;
    while let Some((property, later)) = rest.split_first() {
        set_property(alloc, property.0.as_slice(), property.1.as_slice(), env)?;
        if is_address_name(property) {
            set_as_udev(alloc, env, found)?;
            return set_properties(alloc, later, env);
        }
        rest = later;
    }
    Ok(())
}

/// Takes the outcome of `net_id` with what was found for the device's address, and returns whether it was done.
fn take_names(
    alloc: Global,
    rule: &Rule,
    names: &BuiltinOutcome,
    found: &[(&[u8], &[u8])],
    scene: &mut Scene<'_>,
) -> Result<bool, AllocError>
    ensures scene { IfOk result (λ done. (scene.new, done)
        ≡ outcome_set rule.now (builtin_name NetId) names.now (with_maker (shown found.now) names.now.properties) scene.old) }
    ensures refused { OnErr result (scene.new.state.event ≡ scene.old.state.event) }
{
    if !may_be_set(names.properties()) {
        scene.note(alloc, rule, NoteKind::TextTooLong, Builtin::NetId.name())?;
        return Ok(false);
    }
    set_names(alloc, names.properties(), found, &mut scene.state.env)?;
    let needs = names.needs().as_slice();
    note_needs(alloc, rule, Builtin::NetId.name(), needs, scene)?;
    Ok(names.is_done())
}

/// Runs `net_id`; right after the name by the device's address it sets what the hardware database says about the
/// address.
pub(crate) fn run_net_id<K: Knowledge>(
    alloc: Global,
    rule: &Rule,
    knowledge: &K,
    scene: &mut Scene<'_>,
) -> Result<bool, AllocError>
    ensures scene { IfOk result (λ done. (scene.new, done) ≡ net_id_run (K.known knowledge.now) rule.now scene.old) }
    ensures refused { OnErr result (scene.new.state.event ≡ scene.old.state.event) }
{
    let names = knowledge.net_id(alloc, scene.state.event.event(), &scene.state.env)?;
    let text = names.lookup.as_ref().map(Bytes::as_slice);
    let found = found_for(alloc, knowledge, text)?;
    take_names(alloc, rule, &names.outcome, &found, scene)
}

/// Runs `net_setup_link`.
pub(crate) fn run_net_setup_link<K: Knowledge>(
    alloc: Global,
    rule: &Rule,
    knowledge: &K,
    scene: &mut Scene<'_>,
) -> Result<bool, AllocError>
    ensures scene { IfOk result (λ done. (scene.new, done) ≡ net_setup_link_run (K.known knowledge.now) rule.now scene.old) }
    ensures refused { OnErr result (scene.new.state.event ≡ scene.old.state.event) }
{
    let event = scene.state.event.event();
    let outcome = knowledge.net_setup_link(alloc, event, &scene.state.env)?;
    take_outcome(alloc, rule, Builtin::NetSetupLink, &outcome, scene)
}
