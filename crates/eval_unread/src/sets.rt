//! The assignments of a rule, made while what they ask for is noted.
ghost use Rattle.std.specs.Prelude.{◌≡◌, ◌++◌, OnErr, OnOk, fold, option_map};
ghost use Rattle.eval_acts.specs.Unread.{unread_notes};
ghost use Rattle.eval_assignments.specs.Steps.{set_step};
ghost use Rattle.eval_unread.specs.Unread.{unread_from, unread_of};

use crate::asked::unread_of;
use eval_assignments::set_one;
use eval_state::{Note, NoteKind, Notes, Scene};
use rule_types::{Assignment, Rule};
use std::alloc::{AllocError, Global};

/// Adds a note on an attribute that is not read, if there is one.
pub(crate) fn note_name(
    alloc: Global,
    rule: &Rule,
    name: Option<&[u8]>,
    notes: &mut Notes,
) -> Result<(), AllocError>
    ensures { OnOk result (notes.new ≡ notes.old ++ unread_notes rule.now (option_map (λ t. t.now) name.entry)) }
{
    match name {
        Some(name) => notes.add(Note::about(alloc, rule, NoteKind::AttributeNotRead, name)?),
        None => Ok(()),
    }
}

/// Makes an assignment of a rule, after a note on the first attribute that it asks for and that is not read.
fn note_and_set<'a>(
    alloc: Global,
    rule: &'a Rule,
    assignment: &'a Assignment,
    notes: &mut Notes,
    scene: &mut Scene<'a>,
) -> Result<(), AllocError>
    ensures notes { OnOk result (notes.new ≡ notes.old ++ unread_notes rule.now (unread_of scene.old assignment.now)) }
    ensures scene { OnOk result (scene.new ≡ set_step rule.now scene.old assignment.now) }
    ensures refused { OnErr result (scene.new.state.event ≡ scene.old.state.event) }
{
    note_name(alloc, rule, unread_of(scene, assignment), notes)?;
    set_one(alloc, rule, assignment, scene)
}

/// Makes the assignments of a rule, one after another, and notes of each what it asks for and is not read.
pub(crate) fn set_each<'a>(
    alloc: Global,
    rule: &'a Rule,
    notes: &mut Notes,
    scene: &mut Scene<'a>,
) -> Result<(), AllocError>
    ensures notes { OnOk result (notes.new ≡ notes.old ++ unread_from rule.now rule.now.sets scene.old) }
    ensures scene { OnOk result (scene.new ≡ fold (set_step rule.now) scene.old rule.now.sets) }
    ensures refused { OnErr result (scene.new.state.event ≡ scene.old.state.event) }
{
    for assignment in &rule.sets {
        note_and_set(alloc, rule, assignment, notes, scene)?;
    }
    Ok(())
}
