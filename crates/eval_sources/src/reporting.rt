//! What is kept while rules run.
ghost use Rattle.std.specs.Prelude.{◌≡◌, ◌∷◌, [], None, IfOk, OnOk};
ghost use Rattle.eval_effects.specs.Items.{items};
ghost use Rattle.eval_sources.specs.Inner.{Keeps, can_change, keeping, kept_after_rule, looks_at_all, told_after};
ghost use Rattle.eval_sources.specs.Touched.{sizes};

use crate::look_ups::found_after;
use crate::sources::Sources;
use crate::touched::{Sizes, changes_more};
use builtin_devices::Knowledge;
use eval_acts::act_step;
use eval_assignments::set_all;
use eval_effects::items_of;
use eval_rules::{Moment, Watch};
use eval_state::Scene;
use rule_types::{Act, Rule};
use std::alloc::{AllocError, Global};
use std::marker::Model;

/// Whether a rule can have changed an item: it acts, or its end was reached and it assigns.
fn can_change(reached: bool, rule: &Rule) -> bool
    ensures { result ≡ can_change reached rule.now }
{
    !rule.acts.is_empty() || (reached && !rule.sets.is_empty())
}

/// Whether all items are looked at after a rule: it acts, or it can have changed more than is told apart.
fn looks_at_all(rule: &Rule, was: Sizes, scene: &Scene<'_>) -> bool
    ensures { result ≡ looks_at_all rule.now was scene.now }
{
    !rule.acts.is_empty() || changes_more(rule, was, scene)
}

/// Keeps what is there after a rule, by what was there before it: all items, or only those that it can have changed.
fn keep_after<'a>(
    alloc: Global,
    rule: &'a Rule,
    was: Sizes,
    scene: &Scene<'_>,
    sources: &mut Sources<'a>,
) -> Result<(), AllocError>
    ensures { OnOk result (sources.new ≡ told_after rule.now was scene.now sources.old) }
{
    if looks_at_all(rule, was, scene) {
        let items = items_of(alloc, scene)?;
        return sources.report(alloc, Some(rule), items);
    }
    let found = found_after(alloc, rule, was, scene)?;
    sources.update(Some(rule), found)
}

/// Keeps where each item that is there comes from while rules run.
#[derive(Drop)]
pub(crate) struct Keeper<'a> {
    /// How many links and tags there were when the sources were kept.
    was: Sizes,
    sources: Sources<'a>,
}

impl<'a> Model for Keeper<'a> {
    ghost use Rattle.eval_sources.specs.Inner as inner;

    ghost Value = { inner.Keeper };

    ghost view = { λ k. (k.was, k.sources) };
}

impl<'a> Keeper<'a> {
    /// Keeps what is there at the start of an event.
    pub(crate) fn new(alloc: Global, scene: &Scene<'_>) -> Result<Keeper<'a>, AllocError>
        ensures was { IfOk result (λ kept. kept.0 ≡ sizes scene.now) }
        ensures sources { IfOk result (λ kept. Keeps ((None, items scene.now) ∷ []) (items scene.now) kept.1) }
    {
        let was = Sizes::of(scene);
        let items = items_of(alloc, scene)?;
        let mut sources = Sources::new(alloc);
        sources.report(alloc, None, items)?;
        Ok(Keeper { was, sources })
    }

    /// Returns what is kept.
    pub(crate) fn into_sources(self) -> Sources<'a>
        ensures { result ≡ self.entry.1 }
    {
        let Keeper { sources, .. } = self;
        sources
    }

    /// Keeps what is there after a rule, if that can have changed an item.
    fn keep(
        &mut self,
        alloc: Global,
        rule: &'a Rule,
        reached: bool,
        scene: &Scene<'_>,
    ) -> Result<(), AllocError>
        ensures { OnOk result (self.new ≡ kept_after_rule self.old rule.now reached scene.now) }
    {
        if can_change(reached, rule) {
            keep_after(alloc, rule, self.was, scene, &mut self.sources)?;
            self.was = Sizes::of(scene);
        }
        Ok(())
    }
}

impl<'a> Watch<'a> for Keeper<'a> {
    ghost telling = { keeping };

    fn tell(
        &mut self,
        alloc: Global,
        moment: Moment<'a>,
        scene: &mut Scene<'a>,
    ) -> Result<(), AllocError> {
        match moment {
            Moment::Left(rule, reached) => self.keep(alloc, rule, reached, scene),
            _ => Ok(()),
        }
    }

    #[tactic(auto, using(eval_rules::proofs::Staying::act_stays))]
    fn act<K: Knowledge>(
        &mut self,
        alloc: Global,
        rule: &'a Rule,
        part: &'a Act,
        knowledge: &K,
        scene: &mut Scene<'a>,
    ) -> Result<bool, AllocError> {
        act_step(alloc, rule, part, knowledge, scene)
    }

    fn assign(
        &mut self,
        alloc: Global,
        rule: &'a Rule,
        scene: &mut Scene<'a>,
    ) -> Result<(), AllocError> {
        set_all(alloc, rule, scene)
    }
}
