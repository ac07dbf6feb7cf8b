//! What is looked at in a scene, to compare it with another one.
ghost use Rattle.std.specs.Prelude.{◌≡◌, IfOk, option_map, slice_get};
ghost use Rattle.eval_effects.specs.Changes.{changes};
ghost use Rattle.eval_effects.specs.Narrow.{found_snapshot};

use crate::changes::push_item_changes;
use crate::items::Item;
use crate::made::push_made_changes;
use crate::runs::push_run_changes;
use crate::scope::{Fronts, items_about, made_about, runs_about};
use eval_state::{MadeRun, Note, Run, Scene};
use rule_types::Change;
use std::alloc::{AllocError, Global};
use std::marker::Model;
use text_bytes::Bytes;

/// Items of a scene, RUNs, those that udev made at their rules, and how many notes it has.
#[derive(Drop)]
pub(crate) struct Snapshot<'a> {
    items: Vec<Item>,
    runs: Vec<Run<'a>>,
    made: Vec<MadeRun<'a>>,
    notes: usize,
}

impl<'a> Model for Snapshot<'a> {
    ghost use Rattle.eval_effects.specs.Changes as kept;

    ghost Value = { kept.Snapshot };

    ghost view = { λ s. record { items = s.items.items; runs = s.runs.items; made = s.made.items; notes = s.notes } };
}

/// A copy of a RUN, as it is written.
fn copy_of<'a>(run: &Run<'a>) -> Run<'a>
    ensures { result ≡ run.now }
{
    Run::new(run.rule(), run.braces(), run.template(), run.selected())
}

/// Copies RUNs.
fn copied<'a>(alloc: Global, runs: &[Run<'a>]) -> Result<Vec<Run<'a>>, AllocError>
    ensures { IfOk result (λ copy. copy.items ≡ runs.now) }
{
    let mut copy = Vec::with_capacity(alloc, runs.len())?;
    for run in runs {
        copy.push(copy_of(run))?;
    }
    Ok(copy)
}

/// Copies RUNs that udev made.
fn copied_made<'a>(alloc: Global, made: &[MadeRun<'a>]) -> Result<Vec<MadeRun<'a>>, AllocError>
    ensures { IfOk result (λ copy. copy.items ≡ made.now) }
{
    let mut copy = Vec::with_capacity(alloc, made.len())?;
    for one in made {
        copy.push(MadeRun {
            run: copy_of(&one.run),
            text: Bytes::copy_of(alloc, one.text.as_slice())?,
        })?;
    }
    Ok(copy)
}

impl<'a> Snapshot<'a> {
    /// What there is in a scene of what an assignment can change, by the attribute or the parameter that it writes, but
    /// for the fronts that stay.
    pub(crate) fn of(
        alloc: Global,
        change: &Change,
        written: &Option<Bytes>,
        fronts: Fronts,
        scene: &Scene<'a>,
    ) -> Result<Snapshot<'a>, AllocError>
        ensures { IfOk result (λ s. s ≡ found_snapshot written.now change.now fronts scene.now) }
    {
        Ok(Snapshot {
            items: items_about(alloc, change, written, fronts, scene)?,
            runs: copied(alloc, runs_about(change, fronts, scene))?,
            made: copied_made(alloc, made_about(change, fronts, scene))?,
            notes: scene.notes.as_slice().len(),
        })
    }

    /// All that changed since, by what is there now.
    pub(crate) fn changes(
        &self,
        alloc: Global,
        now: &Snapshot<'_>,
    ) -> Result<Vec<Bytes>, AllocError>
        ensures { IfOk result (λ reported. reported.items ≡ changes self.now now.now) }
    {
        let mut reported = Vec::new(alloc);
        push_item_changes(alloc, &mut reported, &self.items, &now.items)?;
        push_run_changes(alloc, &mut reported, &self.runs, &now.runs)?;
        push_made_changes(alloc, &mut reported, &self.made, &now.made)?;
        Ok(reported)
    }

    /// The first note of a scene that came since, if there is one.
    pub(crate) fn note_since<'s>(&self, scene: &'s Scene<'_>) -> Option<&'s Note>
        ensures { option_map (λ note. note.now) result ≡ slice_get scene.now.notes self.now.notes }
    {
        scene.notes.as_slice().get(self.notes)
    }
}
