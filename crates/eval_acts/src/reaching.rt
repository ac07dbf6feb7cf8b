//! What a match leaves by being reached.
ghost use Rattle.std.specs.Prelude.{◌≡◌, OnOk, OnErr};
ghost use Rattle.eval_acts.specs.Reaching.{attribute_reached, constant_reached, match_reached};

use eval_rendering::{is_not_given, is_not_read};
use eval_state::{NoteKind, Scene};
use rule_types::{PlainKey, PlainMatch, Rule};
use std::alloc::{AllocError, Global};

/// Leaves what a match of an attribute leaves when it is reached: a note if the attribute is not read.
fn attribute_reached(
    alloc: Global,
    rule: &Rule,
    name: &[u8],
    scene: &mut Scene<'_>,
) -> Result<(), AllocError>
    ensures scene { OnOk result (scene.new ≡ attribute_reached rule.now name.now scene.old) }
    ensures refused { OnErr result (scene.new ≡ scene.old) }
{
    if is_not_read(name, &scene.state.event) {
        scene.note(alloc, rule, NoteKind::AttributeNotRead, name)
    } else {
        Ok(())
    }
}

/// Leaves what a match of a constant leaves when it is reached: a note if the constant is not given.
fn constant_reached(
    alloc: Global,
    rule: &Rule,
    name: &[u8],
    scene: &mut Scene<'_>,
) -> Result<(), AllocError>
    ensures scene { OnOk result (scene.new ≡ constant_reached rule.now name.now scene.old) }
    ensures refused { OnErr result (scene.new ≡ scene.old) }
{
    if is_not_given(name, &scene.state.event) {
        scene.note(alloc, rule, NoteKind::ConstantNotGiven, name)
    } else {
        Ok(())
    }
}

/// Leaves what a match of the event leaves when it is reached, whether it holds or not: for SYSCTL, which a dry run
/// does not read, the note `sysctl not read` with the parameter's name; for an attribute that udev would read and a
/// dry run does not, the note `attribute not read` with its name, and for a constant that udev knows and the block does
/// not give, the note `constant not given`, both for udev only; for any other, nothing. If memory runs out, the scene
/// stays as it is.
#[inline(always)]
pub fn match_reached(
    alloc: Global,
    rule: &Rule,
    part: &PlainMatch,
    scene: &mut Scene<'_>,
) -> Result<(), AllocError>
    ensures scene { OnOk result (scene.new ≡ match_reached rule.now part.now.key scene.old) }
    ensures refused { OnErr result (scene.new ≡ scene.old) }
{
    match &part.key {
        PlainKey::Sysctl(name) => {
            scene.note(alloc, rule, NoteKind::SysctlNotRead, name.as_slice())
        }
        PlainKey::Attr(name) => attribute_reached(alloc, rule, name.as_slice(), scene),
        PlainKey::Const(name) => constant_reached(alloc, rule, name.as_slice(), scene),
        _ => Ok(()),
    }
}
