//! What is there of the items of the device's node.
ghost use Rattle.std.specs.Prelude.{◌≡◌, ◌++◌, ◌∷◌, [], codes, if◌then◌else◌, None, Some, OnOk, option_map};
ghost use Rattle.std.specs.Fmt.{signed_decimal};
ghost use Rattle.eval_state.specs.Texts.{filled};
ghost use Rattle.eval_effects.specs.Items.{items};
ghost use Rattle.eval_sources.specs.Touched as names;

use crate::found::{Found, push_bare, push_found};
use eval_state::Scene;
use itoa::Buffer;
use std::alloc::{AllocError, Global};
use text_bytes::Bytes;

/// Adds an item of the node that has a text as its value.
fn push_text(
    alloc: Global,
    found: &mut Vec<Found>,
    word: &[u8],
    text: &Option<Bytes>,
) -> Result<(), AllocError>
    ensures { OnOk result (found.new.items ≡ found.old.items ++ (word.now, text.now) ∷ []) }
{
    let name = Bytes::copy_of(alloc, word)?;
    match text {
        Some(text) => push_found(alloc, found, name, Some(text.as_slice())),
        None => push_found(alloc, found, name, None),
    }
}

/// Adds an item of the node that has no text as its value.
fn push_mark(
    alloc: Global,
    found: &mut Vec<Found>,
    word: &[u8],
    is_there: bool,
) -> Result<(), AllocError>
    ensures { OnOk result (found.new.items ≡ found.old.items ++ (word.now, if is_there then Some [] else None) ∷ []) }
{
    push_bare(alloc, found, Bytes::copy_of(alloc, word)?, is_there)
}

/// Adds the name of the device; an empty one does not count.
fn push_name(alloc: Global, found: &mut Vec<Found>, name: &Option<Bytes>) -> Result<(), AllocError>
    ensures { OnOk result (found.new.items ≡ found.old.items ++ (codes "name", filled name.now) ∷ []) }
{
    match name {
        Some(text) => {
            if text.as_slice().is_empty() {
                return push_text(alloc, found, b"name", &None);
            }
            push_text(alloc, found, b"name", name)
        }
        None => push_text(alloc, found, b"name", &None),
    }
}

/// Adds the priority of the device's links.
fn push_priority(
    alloc: Global,
    found: &mut Vec<Found>,
    priority: Option<i32>,
) -> Result<(), AllocError>
    ensures { OnOk result (found.new.items ≡ found.old.items ++ (codes "priority", option_map signed_decimal priority) ∷ []) }
{
    let name = Bytes::copy_of(alloc, b"priority")?;
    match priority {
        Some(priority) => push_found(
            alloc,
            found,
            name,
            Some(Buffer::new().format(priority).as_bytes()),
        ),
        None => push_found(alloc, found, name, None),
    }
}

/// Whether a device is watched, or is not, as a rule has it.
fn is_watch(watch: Option<bool>, wanted: bool) -> bool
    ensures { result ≡ names.is_watch watch wanted }
{
    match watch {
        Some(true) => wanted,
        Some(false) => !wanted,
        None => false,
    }
}

/// Adds the items of the node that have a text as their value.
fn push_texts(alloc: Global, found: &mut Vec<Found>, scene: &Scene<'_>) -> Result<(), AllocError>
    ensures { OnOk result (found.new.items ≡ found.old.items ++ names.texts_found scene.now) }
{
    push_name(alloc, found, &scene.state.name)?;
    push_text(alloc, found, b"owner", &scene.owner)?;
    push_text(alloc, found, b"group", &scene.group)?;
    push_text(alloc, found, b"mode", &scene.mode)
}

/// Adds the other items of the node.
fn push_marks(alloc: Global, found: &mut Vec<Found>, scene: &Scene<'_>) -> Result<(), AllocError>
    ensures { OnOk result (found.new.items ≡ found.old.items ++ names.marks_found scene.now) }
{
    push_priority(alloc, found, scene.priority)?;
    push_mark(alloc, found, b"watch", is_watch(scene.watch, true))?;
    push_mark(alloc, found, b"nowatch", is_watch(scene.watch, false))?;
    push_mark(alloc, found, b"persist", scene.persist)
}

/// Adds the items of the device's node.
pub(crate) fn push_node(
    alloc: Global,
    found: &mut Vec<Found>,
    scene: &Scene<'_>,
) -> Result<(), AllocError>
    ensures { OnOk result (found.new.items ≡ found.old.items ++ names.found (items scene.now) names.node_words) }
{
    push_texts(alloc, found, scene)?;
    push_marks(alloc, found, scene)
}
