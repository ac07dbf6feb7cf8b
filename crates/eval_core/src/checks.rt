//! The check of a rule: with it and what is seen of an event, the rule can be skipped.
//!
//! Most rules begin with a match that asks for one text of something that no rule changes: the action, the kernel's
//! name, the subsystem, the driver or an attribute of the event device. If the event has another text there, which
//! its sketch shows, the rule changes nothing, and need not be looked at. For a pattern of the kernel's name the
//! first byte is nearly always known.
ghost use Rattle.std.specs.Prelude.{◌≡◌, ◌<◌, ◌≤◌, length, position, IfOk, IfSome};
ghost use Rattle.text_tables.specs.Texts.{same_text};
ghost use Rattle.eval_core.specs.Checks.{attribute_slot, check_by, check_of, check_with, choice_check, head_slot, most_names, slot_of};

use crate::heads::exact_head;
use crate::sketches::exact_sketch;
use rule_types::{MatchOperator, PlainKey, PlainMatch, Rule};
use std::alloc::{AllocError, Global};
use text_bytes::Bytes;
use text_core::Choice;

/// At most how many attributes are looked up for each event.
const MAX_NAMES: usize = 60;

/// The positions in what is seen of an event.
const ACTION_SLOT: usize = 0;

const KERNEL_SLOT: usize = 1;

const SUBSYSTEM_SLOT: usize = 2;

const DRIVER_SLOT: usize = 3;

/// The position of the first byte of the kernel's name.
const KERNEL_HEAD_SLOT: usize = 4;

/// The position of the first of the attributes that are looked up, which come last.
const FIRST_ATTRIBUTE_SLOT: usize = 5;

/// What has to be seen of an event for a choice to fit.
#[derive(Clone, Copy)]
pub(crate) struct Check {
    /// Its position in what is seen of an event.
    pub slot: usize,
    /// The sketch of the text that is asked for.
    pub sketch: u64,
}

/// The place of a name among others, if it is there.
fn place_of(names: &[Bytes], name: &[u8]) -> Option<usize>
    ensures value { result ≡ position (same_text name.now) names.now }
    ensures within { IfSome result (λ place. place < length names.now) }
{
    names.iter().position(|known| name == known.as_slice())
}

/// The position of an attribute in what is seen of an event.
fn attribute_slot(names: &[Bytes], name: &[u8]) -> Option<usize>
    ensures { result ≡ attribute_slot names.now name.now }
{
    Some(place_of(names, name)? + FIRST_ATTRIBUTE_SLOT)
}

/// The position of what a key looks at in what is seen of an event, if it is there.
fn slot_of(names: &[Bytes], key: &PlainKey) -> Option<usize>
    ensures { result ≡ slot_of names.now key.now }
{
    match key {
        PlainKey::Action => Some(ACTION_SLOT),
        PlainKey::Kernel => Some(KERNEL_SLOT),
        PlainKey::Subsystem => Some(SUBSYSTEM_SLOT),
        PlainKey::Driver => Some(DRIVER_SLOT),
        PlainKey::Attr(name) => attribute_slot(names, name.as_slice()),
        _ => None,
    }
}

/// A check, if both its parts are known.
fn check_by(slot: Option<usize>, sketch: Option<u64>) -> Option<Check>
    ensures { result ≡ check_by slot sketch }
{
    Some(Check {
        slot: slot?,
        sketch: sketch?,
    })
}

/// The position of the first byte of what a key looks at in what is seen of an event, if it is there.
fn head_slot(key: &PlainKey) -> Option<usize>
    ensures { result ≡ head_slot key.now }
{
    match key {
        PlainKey::Kernel => Some(KERNEL_HEAD_SLOT),
        _ => None,
    }
}

/// The check of what a key looks at, by the text of a choice, or by the first byte of its pattern.
pub(crate) fn choice_check(names: &[Bytes], key: &PlainKey, choice: &Choice) -> Option<Check>
    ensures { result ≡ choice_check names.now key.now choice.now }
{
    check_by(slot_of(names, key), exact_sketch(choice)).or(check_by(
        head_slot(key),
        exact_head(choice),
    ))
}

/// The check of a match by `==`; one by `!=` has none.
fn check_with(names: &[Bytes], part: &PlainMatch) -> Option<Check>
    ensures { result ≡ check_with names.now part.now }
{
    match part.wanted.operator {
        MatchOperator::Equal => choice_check(names, &part.key, &part.wanted.choice),
        MatchOperator::NotEqual => None,
    }
}

/// The check of a rule, by its first match.
pub(crate) fn check_of(names: &[Bytes], rule: &Rule) -> Option<Check>
    ensures { result ≡ check_of names.now rule.now }
{
    check_with(names, rule.plain.first()?)
}

/// The name of the attribute that a rule looks at first, if it does.
fn first_attribute(rule: &Rule) -> Option<&[u8]> {
    match &rule.plain.first()?.key {
        PlainKey::Attr(name) => Some(name.as_slice()),
        _ => None,
    }
}

/// The names of the attributes that rules look at first, as many as are looked up for each event.
pub(crate) fn first_attributes(alloc: Global, rules: &[Rule]) -> Result<Vec<Bytes>, AllocError>
    ensures { IfOk result (λ names. length names.items ≤ most_names) }
{
    let mut names = Vec::new(alloc);
    for name in rules.iter().filter_map(first_attribute) {
        if names.len() < MAX_NAMES && place_of(&names, name).is_none() {
            names.push(Bytes::copy_of(alloc, name)?)?;
        }
    }
    Ok(names)
}
