//! IMPORT{db}, by what udev had stored about the event device before the event.
ghost use Rattle.std.specs.Prelude.{◌≡◌, IfOk, OnErr, option_map};
ghost use Rattle.eval_acts.specs.Stored.{from_stored, is_removal, is_stored_known, stored_value};

use crate::imports::not_run;
use device_core::Event;
use eval_state::{Scene, set_property};
use rule_types::{ImportType, Rule};
use std::alloc::{AllocError, Global};

/// Whether the event's device is removed.
pub fn is_removal(event: &Event<'_>) -> bool
    ensures { result ≡ is_removal event.now }
{
    event.action() == b"remove".as_slice()
}

/// Whether it is known what an IMPORT{db} of udev's looks its name up in: the event's block gives at least one stored
/// property, or the device is removed, so that there is nothing.
pub fn is_stored_known(event: &Event<'_>) -> bool
    ensures { result ≡ is_stored_known event.now }
{
    is_removal(event) || event.device().stored().len() != 0
}

/// What udev had stored under a name, which is not empty.
fn stored_value<'a>(name: &[u8], event: &Event<'a>) -> Option<&'a [u8]>
    ensures { option_map (λ value. value.now) result ≡ stored_value name.now event.now }
{
    if is_removal(event) {
        return None;
    }
    let value = event.device().stored().get(name)?;
    if value.is_empty() {
        return None;
    }
    Some(value)
}

/// IMPORT{db} for udev.
pub(crate) fn import_stored(
    alloc: Global,
    rule: &Rule,
    name: &[u8],
    scene: &mut Scene<'_>,
) -> Result<bool, AllocError>
    ensures scene { IfOk result (λ done. (scene.new, done) ≡ from_stored rule.now name.now scene.old) }
    ensures refused { OnErr result (scene.new.state.event ≡ scene.old.state.event) }
{
    if !is_stored_known(scene.state.event.event()) {
        return not_run(alloc, rule, ImportType::Db, scene);
    }
    match stored_value(name, scene.state.event.event()) {
        Some(value) => {
            set_property(alloc, name, value, &mut scene.state.env)?;
            Ok(true)
        }
        None => Ok(false),
    }
}
