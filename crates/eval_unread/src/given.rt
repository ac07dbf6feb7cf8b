//! The note on a block that gives no attribute of any device, if a rule looks at one.
ghost use Rattle.std.specs.Prelude.{◌≡◌, IfOk, option_map, option_to_list};
ghost use Rattle.std.specs.List.{list_all};
ghost use Rattle.eval_unread.specs.Given.{first_looking, first_plain, first_up, gives_none, is_bare, looked_at, not_given, own_name, plain_name, up_name};
ghost use Rattle.eval_unread.specs.Unread.{with_notes};

use crate::others::is_of_others;
use device_core::{Device, Event};
use eval_rules::Outcome;
use eval_state::{Note, NoteKind};
use rule_types::{PlainKey, PlainMatch, Rule, UpKey, UpMatch};
use std::alloc::{AllocError, Global};
use text_bytes::Profile;

/// The name of an attribute that a device has itself.
fn own_name(name: &[u8]) -> Option<&[u8]>
    ensures { option_map (λ name. name.now) result ≡ own_name name.now }
{
    if is_of_others(name) { None } else { Some(name) }
}

/// The attribute of the device itself that a match of the event looks at.
fn plain_name(key: &PlainKey) -> Option<&[u8]>
    ensures { option_map (λ name. name.now) result ≡ plain_name key.now }
{
    match key {
        PlainKey::Attr(name) => own_name(name.as_slice()),
        _ => None,
    }
}

/// The attribute of the device itself that a match of one device looks at.
fn up_name(key: &UpKey) -> Option<&[u8]>
    ensures { option_map (λ name. name.now) result ≡ up_name key.now }
{
    match key {
        UpKey::Attrs(name) => own_name(name.as_slice()),
        _ => None,
    }
}

/// The first such attribute among matches of the event.
#[tactic(auto, unfolding(crate::specs::Given::first_plain))]
fn first_plain(parts: &[PlainMatch]) -> Option<&[u8]>
    ensures { option_map (λ name. name.now) result ≡ first_plain parts.now }
{
    for part in parts {
        if let Some(name) = plain_name(&part.key) {
            return Some(name);
        }
    }
    None
}

/// The first such attribute among matches of one device.
#[tactic(auto, unfolding(crate::specs::Given::first_up))]
fn first_up(parts: &[UpMatch]) -> Option<&[u8]>
    ensures { option_map (λ name. name.now) result ≡ first_up parts.now }
{
    for part in parts {
        if let Some(name) = up_name(&part.key) {
            return Some(name);
        }
    }
    None
}

/// The first attribute that a rule looks at.
fn looked_at(rule: &Rule) -> Option<&[u8]>
    ensures { option_map (λ name. name.now) result ≡ looked_at rule.now }
{
    match first_plain(&rule.plain) {
        Some(name) => Some(name),
        None => first_up(&rule.up),
    }
}

/// The note of the first of these rules that looks at an attribute.
#[tactic(auto, unfolding(crate::specs::Given::first_looking))]
fn first_looking(alloc: Global, rules: &[Rule]) -> Result<Option<Note>, AllocError>
    ensures { IfOk result (λ note. note ≡ first_looking rules.now) }
{
    for rule in rules {
        if let Some(name) = looked_at(rule) {
            return Ok(Some(Note::about(alloc, rule, NoteKind::AttributesNotGiven, name)?));
        }
    }
    Ok(None)
}

/// Whether a block gives no attribute of a device.
fn is_bare(device: &Device<'_>) -> bool
    ensures { result ≡ is_bare device.now }
{
    device.attrs().len() == 0
}

/// Whether a block gives no attribute of any of these devices.
fn are_bare(devices: &[Device<'_>]) -> bool
    ensures { result ≡ list_all is_bare devices.now }
{
    devices.iter().all(|device| is_bare(device))
}

/// Whether a block gives no attribute of any device, and its event device is not removed.
fn gives_none(event: &Event<'_>) -> bool
    ensures { result ≡ gives_none event.now }
{
    event.action() != b"remove".as_slice() && is_bare(event.device()) && are_bare(event.parents())
}

/// The note on a block without attributes, by the first rule that looks at one.
fn not_given(alloc: Global, rules: &[Rule], event: &Event<'_>) -> Result<Option<Note>, AllocError>
    ensures { IfOk result (λ note. note ≡ not_given rules.now event.now) }
{
    match event.profile() {
        Profile::Udev if gives_none(event) => first_looking(alloc, rules),
        _ => Ok(None),
    }
}

/// An outcome with the note on a block without attributes after its own. If memory runs out, the outcome is dropped.
#[tactic(auto, using(crate::proofs::FirstLooking::none_added))]
pub(crate) fn with_not_given<'o>(
    alloc: Global,
    rules: &[Rule],
    event: &Event<'_>,
    mut outcome: Outcome<'o>,
) -> Result<Outcome<'o>, AllocError>
    ensures { IfOk result (λ all. all ≡ with_notes (option_to_list (not_given rules.now event.now)) outcome.entry) }
{
    match not_given(alloc, rules, event)? {
        Some(note) => {
            outcome.notes.add(note)?;
            Ok(outcome)
        }
        None => Ok(outcome),
    }
}
