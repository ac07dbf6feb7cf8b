//! What watches rules while they are evaluated.
ghost use Rattle.std.specs.Prelude.{◌≡◌, OnErr, OnOk, IfOk, fold};
ghost use Rattle.eval_acts.specs.Acts.{act_step};
ghost use Rattle.eval_assignments.specs.Steps.{set_step};
ghost use Rattle.eval_state.specs.declared.scene.Scene as scenes;
ghost use Rattle.eval_rules.specs.Moments.{happening};
ghost use Rattle.eval_rules.specs.Watched as watched;

use builtin_devices::Knowledge;
use eval_acts::act_step;
use eval_assignments::set_all;
use eval_state::Scene;
use rule_types::{Act, Comparison, PlainMatch, Rule};
use std::alloc::{AllocError, Global};

/// A moment of the evaluation of rules at which the scene does not change.
#[derive(Clone, Copy)]
pub enum Moment<'a> {
    /// A label is sought, and this rule is passed over.
    Passed(&'a Rule),
    /// A rule is reached.
    Entered(&'a Rule),
    /// A match of the event comes next.
    Meeting(&'a Rule, &'a PlainMatch),
    /// The search for one device comes next.
    Searching(&'a Rule),
    /// A match of the result of the last program comes next.
    Comparing(&'a Rule, &'a Comparison),
    /// A key stopped the rule.
    Stopped(&'a Rule),
    /// All keys let the rule go on, but nothing in it counts for the event.
    Skipped(&'a Rule),
    /// The rule is done; whether its end was reached.
    Left(&'a Rule, bool),
}

/// Something that watches rules while they are evaluated: it is told of each moment, and makes what changes the scene
/// itself, so that it sees the scene before and after.
pub trait Watch<'a> {
    /// What it is after it was told what happens, and the scene before that.
    ghost telling: { Self → watched.Happening → scenes.Scene → Self };

    /// Takes a moment in, and leaves the scene as it is.
    fn tell(
        &mut self,
        alloc: Global,
        moment: Moment<'a>,
        scene: &mut Scene<'a>,
    ) -> Result<(), AllocError>
        ensures watch { OnOk result (self.new ≡ telling self.old (happening moment.entry) scene.old) }
        ensures scene { scene.new ≡ scene.old };

    /// Does what an act asks for, as `act_step` does, and returns whether the rule goes on.
    fn act<K: Knowledge>(
        &mut self,
        alloc: Global,
        rule: &'a Rule,
        part: &'a Act,
        knowledge: &K,
        scene: &mut Scene<'a>,
    ) -> Result<bool, AllocError>
        ensures watch { IfOk result (λ on. self.new ≡ telling self.old (watched.acted rule.now part.now (scene.new, on)) scene.old) }
        ensures scene { IfOk result (λ on. (scene.new, on) ≡ act_step (K.known knowledge.now) rule.now part.now scene.old) }
        ensures event { scene.new.state.event ≡ scene.old.state.event };

    /// Makes the assignments of a rule that gets to them, as `set_all` does.
    fn assign(
        &mut self,
        alloc: Global,
        rule: &'a Rule,
        scene: &mut Scene<'a>,
    ) -> Result<(), AllocError>
        ensures watch { OnOk result (self.new ≡ telling self.old (watched.assigned rule.now scene.new) scene.old) }
        ensures scene { OnOk result (scene.new ≡ fold (set_step rule.now) scene.old rule.now.sets) }
        ensures refused { OnErr result (scene.new.state.event ≡ scene.old.state.event) };
}

/// Nothing that watches.
impl<'a> Watch<'a> for () {
    ghost telling = { λ unit happening scene. unit };

    #[inline(always)]
    fn tell(
        &mut self,
        _alloc: Global,
        _moment: Moment<'a>,
        _scene: &mut Scene<'a>,
    ) -> Result<(), AllocError> {
        Ok(())
    }

    #[tactic(auto, using(crate::proofs::Staying::act_stays))]
    #[inline(always)]
    fn act<K: Knowledge>(
        &mut self,
        alloc: Global,
        rule: &'a Rule,
        part: &'a Act,
        knowledge: &K,
        scene: &mut Scene<'a>,
    ) -> Result<bool, AllocError> {
        act_step(alloc, rule, part, knowledge, scene)
    }

    #[inline(always)]
    fn assign(
        &mut self,
        alloc: Global,
        rule: &'a Rule,
        scene: &mut Scene<'a>,
    ) -> Result<(), AllocError> {
        set_all(alloc, rule, scene)
    }
}
