//! Tags, as udev changes them.
ghost use Rattle.std.specs.Prelude.{◌≡◌, OnOk, OnErr};
ghost use Rattle.std.specs.List.{list_all};
ghost use Rattle.eval_assignments.specs.Tags.{is_tag, is_tag_byte, tag_added, tag_changed, with_tag, without_tags};

use eval_state::{NoteKind, Scene};
use rule_types::{AssignOperator, Key, Rule};
use std::alloc::{AllocError, Global};

/// The most bytes of a tag.
const MAX_TAG_BYTES: usize = 255;

/// Whether a byte may be in a tag for udev.
fn is_tag_byte(byte: u8) -> bool
    ensures { result ≡ is_tag_byte byte }
{
    byte.is_ascii_alphanumeric() || byte == b'-' || byte == b'_'
}

/// Whether all bytes of a text may be in a tag for udev.
fn are_tag_bytes(text: &[u8]) -> bool
    ensures { result ≡ list_all is_tag_byte text.now }
{
    text.iter().all(|byte| is_tag_byte(*byte))
}

/// Whether udev accepts a text as a tag.
fn is_tag(text: &[u8]) -> bool
    ensures { result ≡ is_tag text.now }
{
    text.len() <= MAX_TAG_BYTES && are_tag_bytes(text)
}

/// Sets a tag: again if it was removed, and at the end if it was not there.
fn set_tag(alloc: Global, tag: &[u8], scene: &mut Scene<'_>) -> Result<(), AllocError>
    ensures scene { OnOk result (scene.new ≡ with_tag tag.now scene.old) }
    ensures refused { OnErr result (scene.new.state.event ≡ scene.old.state.event) }
{
    scene.gone.remove(tag);
    scene.state.tags.add(alloc, tag)
}

/// Adds a text as a tag, or leaves a note if it is not one.
fn add_tag(alloc: Global, rule: &Rule, text: &[u8], scene: &mut Scene<'_>) -> Result<(), AllocError>
    ensures scene { OnOk result (scene.new ≡ tag_added rule.now text.now scene.old) }
    ensures refused { OnErr result (scene.new.state.event ≡ scene.old.state.event) }
{
    if text.is_empty() {
        scene.note_key(alloc, rule, NoteKind::NoValue, Key::Tag, None)
    } else if is_tag(text) {
        set_tag(alloc, text, scene)
    } else {
        scene.note(alloc, rule, NoteKind::TagIgnored, text)
    }
}

/// Removes all tags.
fn clear_tags(scene: &mut Scene<'_>)
    ensures { scene.new ≡ without_tags scene.old }
{
    scene.gone.clear();
    scene.state.tags.clear();
}

/// Changes tags by an operator as udev does (systemd 257): a tag has 1 to 255 letters, digits, `-` and `_`, and any
/// other text leaves a note; what is removed is still met by TAG and TAGS.
pub(crate) fn change_udev_tags(
    alloc: Global,
    rule: &Rule,
    operator: AssignOperator,
    text: &[u8],
    scene: &mut Scene<'_>,
) -> Result<(), AllocError>
    ensures scene { OnOk result (scene.new ≡ tag_changed rule.now operator text.now scene.old) }
    ensures refused { OnErr result (scene.new.state.event ≡ scene.old.state.event) }
{
    match operator {
        AssignOperator::Remove => scene.gone.add(alloc, text),
        AssignOperator::Add => add_tag(alloc, rule, text, scene),
        _ => {
            clear_tags(scene);
            add_tag(alloc, rule, text, scene)
        }
    }
}
