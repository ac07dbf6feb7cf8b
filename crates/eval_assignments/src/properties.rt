//! Properties, as ENV changes them.
ghost use Rattle.std.specs.Prelude.{◌≡◌, ◌∷◌, ◌++◌, OnOk, OnErr, IfOk, option_map};
ghost use Rattle.text_bytes.specs.Names.{space};
ghost use Rattle.eval_rendering.specs.Bounds.{short};
ghost use Rattle.eval_assignments.specs.Properties.{appended, env_text, extended, property_added, property_changed, property_extended};
ghost use Rattle.eval_assignments.specs.Properties.{property_joined, property_put, udev_property_changed, unslashed_byte};

use crate::escapes::{Escape, with_underscores};
use eval_rendering::{MAX_BYTES, MAX_VALUE_BYTES, link_safe};
use eval_state::{Scene, set_property};
use rule_types::{AssignOperator, Key, Rule};
use std::alloc::{AllocError, Global};
use text_bytes::Bytes;

/// A text after a value, with a space between them; `None` if that is too long. The text alone if the value is
/// empty.
fn appended(alloc: Global, value: &[u8], text: &[u8]) -> Result<Option<Bytes>, AllocError>
    ensures { IfOk result (λ joined. joined ≡ appended value.now text.now) }
{
    if value.is_empty() {
        return Ok(Some(Bytes::copy_of(alloc, text)?));
    }
    if value.len() >= MAX_BYTES || text.len() > MAX_BYTES - value.len() - 1 {
        return Ok(None);
    }
    let mut joined = Vec::from_slice(alloc, value)?;
    joined.push(b' ')?;
    joined.extend_from_slice(text)?;
    Ok(Some(Bytes::new(joined)))
}

/// Gives a property a value that was put together, or leaves a note if that is too long.
fn set_joined(
    alloc: Global,
    rule: &Rule,
    name: &[u8],
    joined: Option<Bytes>,
    scene: &mut Scene<'_>,
) -> Result<(), AllocError>
    ensures scene { OnOk result (scene.new ≡ property_joined rule.now name.now joined scene.old) }
    ensures refused { OnErr result (scene.new.state.event ≡ scene.old.state.event) }
{
    match joined {
        Some(value) => scene.state.env.put(alloc, name, value),
        None => scene.note_too_long(alloc, rule, Key::Env, Some(name)),
    }
}

/// Appends a text to the value of a property; an empty text changes nothing.
fn add_to_property(
    alloc: Global,
    rule: &Rule,
    name: &[u8],
    text: &[u8],
    scene: &mut Scene<'_>,
) -> Result<(), AllocError>
    ensures scene { OnOk result (scene.new ≡ property_added rule.now name.now text.now scene.old) }
    ensures refused { OnErr result (scene.new.state.event ≡ scene.old.state.event) }
{
    if text.is_empty() {
        return Ok(());
    }
    let joined = appended(alloc, scene.state.property(name), text)?;
    set_joined(alloc, rule, name, joined, scene)
}

/// Changes a property by an operator.
pub(crate) fn change_property(
    alloc: Global,
    rule: &Rule,
    operator: AssignOperator,
    name: &[u8],
    text: &[u8],
    scene: &mut Scene<'_>,
) -> Result<(), AllocError>
    ensures scene { OnOk result (scene.new ≡ property_changed rule.now operator name.now text.now scene.old) }
    ensures refused { OnErr result (scene.new.state.event ≡ scene.old.state.event) }
{
    match operator {
        AssignOperator::Add => add_to_property(alloc, rule, name, text, scene),
        _ => set_property(alloc, name, text, &mut scene.state.env),
    }
}

/// A byte, with `_` for a slash.
fn unslashed_byte(byte: u8) -> u8
    ensures { result ≡ unslashed_byte byte }
{
    if byte == b'/' { b'_' } else { byte }
}

/// The value of a property as udev takes it: bytes are replaced if the rule says so.
fn env_text(alloc: Global, escape: Escape, text: &[u8]) -> Result<Bytes, AllocError>
    ensures { IfOk result (λ value. value ≡ env_text escape text.now) }
{
    match escape {
        Escape::Replace => {
            let safe = with_underscores(alloc, &link_safe(alloc, text)?)?;
            let value = safe
                .iter()
                .map(|byte| unslashed_byte(*byte))
                .collect(alloc)?;
            Ok(Bytes::new(value))
        }
        _ => Bytes::copy_of(alloc, text),
    }
}

/// A text, unless it is too long for a value of udev.
fn short_value(text: Bytes) -> Option<Bytes>
    ensures { result ≡ short text }
{
    if text.as_slice().len() > MAX_VALUE_BYTES {
        None
    } else {
        Some(text)
    }
}

/// A text after a value, with a space between them.
fn spaced(alloc: Global, value: &[u8], text: &[u8]) -> Result<Bytes, AllocError>
    ensures { IfOk result (λ whole. whole ≡ value.now ++ space ∷ text.now) }
{
    let mut whole = Vec::from_slice(alloc, value)?;
    whole.push(b' ')?;
    whole.extend_from_slice(text)?;
    Ok(Bytes::new(whole))
}

/// A text after a value as udev puts it together; `None` if that is too long. Without a value it is the text.
fn extended(alloc: Global, value: Option<&[u8]>, text: Bytes) -> Result<Option<Bytes>, AllocError>
    ensures { IfOk result (λ whole. whole ≡ extended (option_map (λ v. v.now) value.entry) text) }
{
    match value {
        Some(value) => Ok(short_value(spaced(alloc, value, text.as_slice())?)),
        None => Ok(short_value(text)),
    }
}

/// Gives a property a value that udev put together, or leaves a note if that is too long.
fn put_property(
    alloc: Global,
    rule: &Rule,
    name: &[u8],
    value: Option<Bytes>,
    scene: &mut Scene<'_>,
) -> Result<(), AllocError>
    ensures scene { OnOk result (scene.new ≡ property_put rule.now name.now value scene.old) }
    ensures refused { OnErr result (scene.new.state.event ≡ scene.old.state.event) }
{
    match value {
        Some(value) => set_property(alloc, name, value.as_slice(), &mut scene.state.env),
        None => scene.note_too_long(alloc, rule, Key::Env, Some(name)),
    }
}

/// Appends a text to the value of a property as udev does; a text that is written empty changes nothing.
fn extend_property(
    alloc: Global,
    rule: &Rule,
    name: &[u8],
    written: &[u8],
    text: Bytes,
    scene: &mut Scene<'_>,
) -> Result<(), AllocError>
    ensures scene { OnOk result (scene.new ≡ property_extended rule.now name.now written.now text scene.old) }
    ensures refused { OnErr result (scene.new.state.event ≡ scene.old.state.event) }
{
    if written.is_empty() {
        return Ok(());
    }
    let value = extended(alloc, scene.state.env.get(name), text)?;
    put_property(alloc, rule, name, value, scene)
}

/// Changes a property by an operator as udev does (systemd 257): `+=` appends a space and the text to a value that
/// is there, and changes nothing if the text is written empty. Over 511 bytes together leave a note.
pub(crate) fn change_udev_property(
    alloc: Global,
    rule: &Rule,
    escape: Escape,
    operator: AssignOperator,
    name: &[u8],
    written: &[u8],
    text: &[u8],
    scene: &mut Scene<'_>,
) -> Result<(), AllocError>
    ensures scene { OnOk result (scene.new ≡ udev_property_changed rule.now escape operator name.now written.now text.now scene.old) }
    ensures refused { OnErr result (scene.new.state.event ≡ scene.old.state.event) }
{
    let value = env_text(alloc, escape, text)?;
    match operator {
        AssignOperator::Add => extend_property(alloc, rule, name, written, value, scene),
        _ => set_property(alloc, name, value.as_slice(), &mut scene.state.env),
    }
}
