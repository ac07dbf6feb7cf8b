//! Which properties are there only after an act, and which only before it.
ghost use Rattle.std.specs.Prelude.{◌≡◌, ◌++◌, IfOk, OnOk, map};
ghost use Rattle.eval_effects.specs.Items.{is_present};
ghost use Rattle.eval_effects.specs.Shown.{shown};
ghost use Rattle.eval_courses.specs.Acts.{gone_from, newly_set, property_report, taken_report};

use eval_effects::{push_joined, push_shown};
use std::alloc::{AllocError, Global};
use text_bytes::Bytes;
use text_tables::CowPairs;

/// A copy of properties.
pub(crate) fn copied(
    alloc: Global,
    properties: &CowPairs<'_>,
) -> Result<CowPairs<'static>, AllocError>
    ensures { IfOk result (λ copy. copy ≡ properties.now) }
{
    let mut copy = CowPairs::new(alloc);
    for (name, value) in properties.as_map().iter() {
        copy.set(alloc, name.as_slice(), value.as_slice())?;
    }
    Ok(copy)
}

/// Whether a property is among others with its value.
fn is_present(properties: &CowPairs<'_>, name: &[u8], value: &[u8]) -> bool
    ensures { result ≡ is_present (name.now, value.now) properties.now }
{
    match properties.get(name) {
        Some(kept) => kept == value,
        None => false,
    }
}

/// A property as it is reported.
#[tactic(auto, unfolding(crate::specs::Acts::property_report))]
fn property_report(alloc: Global, name: &[u8], value: &[u8]) -> Result<Bytes, AllocError>
    ensures { IfOk result (λ text. text ≡ property_report (name.now, value.now)) }
{
    let mut text = Vec::new(alloc);
    push_shown(alloc, &mut text, name)?;
    text.push(b'=')?;
    push_shown(alloc, &mut text, value)?;
    Ok(Bytes::new(text))
}

/// The name of a property as it is reported.
fn name_report(alloc: Global, name: &[u8]) -> Result<Bytes, AllocError>
    ensures { IfOk result (λ text. text ≡ shown name.now) }
{
    let mut text = Vec::new(alloc);
    push_shown(alloc, &mut text, name)?;
    Ok(Bytes::new(text))
}

/// The properties that are there now and were not there with the same value before.
fn newly_set(
    alloc: Global,
    before: &CowPairs<'_>,
    now: &CowPairs<'_>,
) -> Result<Vec<Bytes>, AllocError>
    ensures { IfOk result (λ texts. texts.items ≡ map property_report (newly_set before.now now.now)) }
{
    let mut texts = Vec::new(alloc);
    for (name, value) in now.as_map().iter() {
        if !is_present(before, name.as_slice(), value.as_slice()) {
            texts.push(property_report(alloc, name.as_slice(), value.as_slice())?)?;
        }
    }
    Ok(texts)
}

/// The names of the properties that were there before and are no longer.
fn removed(
    alloc: Global,
    before: &CowPairs<'_>,
    now: &CowPairs<'_>,
) -> Result<Vec<Bytes>, AllocError>
    ensures { IfOk result (λ texts. texts.items ≡ map (λ property. shown property.0) (gone_from now.now before.now)) }
{
    let mut texts = Vec::new(alloc);
    for (name, _) in before.as_map().iter() {
        if now.get(name.as_slice()).is_none() {
            texts.push(name_report(alloc, name.as_slice())?)?;
        }
    }
    Ok(texts)
}

/// Appends to a text what was removed and set of properties, by those before and those now.
pub(crate) fn push_taken(
    alloc: Global,
    text: &mut Vec<u8>,
    before: &CowPairs<'_>,
    now: &CowPairs<'_>,
) -> Result<(), AllocError>
    ensures { OnOk result (text.new.items ≡ text.old.items ++ taken_report before.now now.now) }
{
    let gone = removed(alloc, before, now)?;
    let set = newly_set(alloc, before, now)?;
    if gone.is_empty() {
        if set.is_empty() {
            return text.extend_from_slice(b"sets nothing");
        }
        text.extend_from_slice(b"sets ")?;
        return push_joined(text, &set);
    }
    text.extend_from_slice(b"removes ")?;
    push_joined(text, &gone)?;
    if set.is_empty() {
        return Ok(());
    }
    text.extend_from_slice(b", sets ")?;
    push_joined(text, &set)
}
