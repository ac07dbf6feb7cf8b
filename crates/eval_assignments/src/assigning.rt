//! What each key makes of the text that is assigned to it.
ghost use Rattle.std.specs.Prelude.{◌≡◌, [], ◌∷◌, ◌++◌, OnOk, OnErr, IfOk};
ghost use Rattle.text_tables.specs.Pairs.{with_value};
ghost use Rattle.eval_assignments.specs.Assigning.{assigned, assigned_by_manual, assigned_by_udev, group_set, labels_before};
ghost use Rattle.eval_assignments.specs.Assigning.{link_text, or_written, owner_set, unless_empty};

use crate::attributes::set_attribute;
use crate::escapes::{Escape, with_underscores};
use crate::givens::Given;
use crate::links::change_udev_links;
use crate::lists::{change_links, change_tags};
use crate::modes::set_mode;
use crate::names::name_text;
use crate::parameters::set_parameter;
use crate::properties::{change_property, change_udev_property};
use crate::tags::change_udev_tags;
use eval_state::{Labels, NoteKind, Scene};
use rule_types::{AssignOperator, Key, Rule, Target};
use std::alloc::{AllocError, Global};
use text_bytes::{Bytes, Profile};

/// A text that is assigned; `None` if it is empty.
fn unless_empty(text: Bytes) -> Option<Bytes>
    ensures { result ≡ unless_empty text }
{
    if text.as_slice().is_empty() {
        None
    } else {
        Some(text)
    }
}

/// The names of links; their spaces become `_` if the rule replaces them, too.
fn link_text(alloc: Global, escape: Escape, text: Bytes) -> Result<Bytes, AllocError>
    ensures { IfOk result (λ names. names ≡ link_text escape text) }
{
    match escape {
        Escape::Replace => Ok(Bytes::new(with_underscores(alloc, text.as_slice())?)),
        _ => Ok(text),
    }
}

/// Removes the labels that do not stay before one is set: all, unless it is added.
fn make_room(operator: AssignOperator, labels: &mut Labels)
    ensures { labels.new ≡ labels_before operator labels.old }
{
    match operator {
        AssignOperator::Add => {}
        _ => labels.clear(),
    }
}

/// Sets the label of a module, which has no other one then; unless it is added, it is the only one.
fn set_label(
    alloc: Global,
    operator: AssignOperator,
    name: &[u8],
    text: Bytes,
    labels: &mut Labels,
) -> Result<(), AllocError>
    ensures { OnOk result (labels.new ≡ with_value (labels_before operator labels.old) name.now text) }
{
    make_room(operator, labels);
    labels.put(alloc, name, text)
}

/// Sets the label of a module as udev does (systemd 257): after all others, those of the module, too; unless it is
/// added, it is the only one.
fn set_udev_label(
    alloc: Global,
    operator: AssignOperator,
    name: &[u8],
    text: Bytes,
    labels: &mut Labels,
) -> Result<(), AllocError>
    ensures { OnOk result (labels.new ≡ labels_before operator labels.old ++ (name.now, text) ∷ []) }
{
    make_room(operator, labels);
    labels.push(alloc, name, text)
}

/// Assigns a text as the manual has it, by what it is assigned to.
fn assign_manual(
    alloc: Global,
    given: &Given<'_>,
    text: Bytes,
    scene: &mut Scene<'_>,
) -> Result<(), AllocError>
    ensures scene { OnOk result (scene.new ≡ assigned_by_manual given.now.target given.now text scene.old) }
    ensures refused { OnErr result (scene.new.state.event ≡ scene.old.state.event) }
{
    let operator = given.operator;
    match given.target {
        Target::Owner => scene.owner = unless_empty(text),
        Target::Group => scene.group = unless_empty(text),
        Target::Mode => scene.mode = unless_empty(text),
        Target::Tag => change_tags(alloc, operator, text.as_slice(), &mut scene.state.tags)?,
        Target::Seclabel(name) => {
            set_label(alloc, operator, name.as_slice(), text, &mut scene.labels)?;
        }
        Target::Env(name) => {
            let (name, text) = (name.as_slice(), text.as_slice());
            change_property(alloc, given.rule, operator, name, text, scene)?;
        }
        Target::Name => {
            let name = name_text(alloc, Profile::Manual, given.escape, text)?;
            scene.state.name = unless_empty(name);
        }
        Target::Symlink => {
            let names = link_text(alloc, given.escape, text)?;
            change_links(alloc, operator, names.as_slice(), &mut scene.state.links)?;
        }
        Target::Attr(name) => scene.attrs.put(alloc, name.as_slice(), text)?,
        Target::Sysctl(name) => scene.sysctls.put(alloc, name.as_slice(), text)?,
    }
    Ok(())
}

/// Sets the owner of the device's node as udev does (systemd 257): an empty one leaves a note, and the one before
/// stays.
fn set_owner(
    alloc: Global,
    rule: &Rule,
    text: Bytes,
    scene: &mut Scene<'_>,
) -> Result<(), AllocError>
    ensures scene { OnOk result (scene.new ≡ owner_set rule.now text scene.old) }
    ensures refused { OnErr result (scene.new ≡ scene.old) }
{
    if text.as_slice().is_empty() {
        return scene.note_key(alloc, rule, NoteKind::NoValue, Key::Owner, None);
    }
    scene.owner = Some(text);
    Ok(())
}

/// Sets the group of the device's node, as [`set_owner`] sets its owner.
fn set_group(
    alloc: Global,
    rule: &Rule,
    text: Bytes,
    scene: &mut Scene<'_>,
) -> Result<(), AllocError>
    ensures scene { OnOk result (scene.new ≡ group_set rule.now text scene.old) }
    ensures refused { OnErr result (scene.new ≡ scene.old) }
{
    if text.as_slice().is_empty() {
        return scene.note_key(alloc, rule, NoteKind::NoValue, Key::Group, None);
    }
    scene.group = Some(text);
    Ok(())
}

/// A text, or as it was written if it is empty.
fn or_written(alloc: Global, written: &[u8], text: Bytes) -> Result<Bytes, AllocError>
    ensures { IfOk result (λ t. t ≡ or_written written.now text) }
{
    if text.as_slice().is_empty() {
        Bytes::copy_of(alloc, written)
    } else {
        Ok(text)
    }
}

/// Assigns a text as udev does (systemd 257), by what it is assigned to.
fn assign_udev(
    alloc: Global,
    given: &Given<'_>,
    text: Bytes,
    scene: &mut Scene<'_>,
) -> Result<(), AllocError>
    ensures scene { OnOk result (scene.new ≡ assigned_by_udev given.now.target given.now text scene.old) }
    ensures refused { OnErr result (scene.new.state.event ≡ scene.old.state.event) }
{
    let (rule, operator, escape, written) = (
        given.rule,
        given.operator,
        given.escape,
        given.written,
    );
    match given.target {
        Target::Owner => set_owner(alloc, rule, text, scene),
        Target::Group => set_group(alloc, rule, text, scene),
        Target::Mode => set_mode(alloc, rule, text.as_slice(), scene),
        Target::Tag => change_udev_tags(alloc, rule, operator, text.as_slice(), scene),
        Target::Seclabel(name) => {
            let label = or_written(alloc, written, text)?;
            set_udev_label(alloc, operator, name.as_slice(), label, &mut scene.labels)
        }
        Target::Env(name) => {
            let (name, text) = (name.as_slice(), text.as_slice());
            change_udev_property(alloc, rule, escape, operator, name, written, text, scene)
        }
        Target::Name => {
            scene.state.name = Some(name_text(alloc, Profile::Udev, escape, text)?);
            Ok(())
        }
        Target::Symlink => {
            let paths = link_text(alloc, escape, text)?;
            change_udev_links(alloc, rule, operator, paths.as_slice(), scene)
        }
        Target::Attr(name) => set_attribute(alloc, rule, name.as_slice(), text, scene),
        Target::Sysctl(name) => set_parameter(alloc, rule, name.as_slice(), text, scene),
    }
}

/// Assigns a text by a profile, once it is rendered.
pub(crate) fn assign(
    alloc: Global,
    profile: Profile,
    given: &Given<'_>,
    text: Bytes,
    scene: &mut Scene<'_>,
) -> Result<(), AllocError>
    ensures scene { OnOk result (scene.new ≡ assigned profile given.now.target given.now text scene.old) }
    ensures refused { OnErr result (scene.new.state.event ≡ scene.old.state.event) }
{
    match profile {
        Profile::Manual => assign_manual(alloc, given, text, scene),
        Profile::Udev => assign_udev(alloc, given, text, scene),
    }
}
