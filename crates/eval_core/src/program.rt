//! Rules laid out for evaluation, as one value.
ghost use Rattle.std.specs.Prelude.{◌≡◌, IfOk};
ghost use Rattle.eval_rules.specs.Outcomes.{outcome};
ghost use Rattle.eval_core.specs.Layout.{IsLaidOut};

use crate::checks::first_attributes;
use crate::courses::{Course, courses};
use crate::running::{Layout, run};
use builtin_devices::Knowledge;
use device_core::Event;
use eval_rules::{Outcome, finish};
use eval_state::Scene;
use rule_types::{Rule, RuleSet, skipped};
use std::alloc::{AllocError, Global};
use std::marker::Model;
use text_bytes::Bytes;

/// Rules laid out for evaluation. Only `compile` makes it.
#[derive(Drop)]
pub struct Program {
    rules: Vec<Rule>,
    passes: Vec<usize>,
    names: Vec<Bytes>,
    courses: Vec<Course>,
}

impl Model for Program {
    ghost use Rattle.std.specs.Prelude.{List};
    ghost use Rattle.rule_types.specs.Rules.{Rule};
    ghost use Rattle.eval_core.specs.Layout.{IsLaidOut};

    ghost Value = { List Rule };

    ghost view = { λ p. p.rules.items };

    ghost invariant = { λ p. IsLaidOut p.rules.items p.passes.items p.names.items p.courses.items };
}

/// Lays out the rules of a set for evaluation.
///
/// If memory runs out, the rules are dropped.
pub fn compile(alloc: Global, rules: RuleSet) -> Result<Program, AllocError>
    ensures { IfOk result (λ program. program ≡ rules) }
{
    let rules = rules.into_rules();
    let passes = skipped(alloc, &rules)?;
    let names = first_attributes(alloc, &rules)?;
    let courses = courses(alloc, &names, &rules)?;
    Ok(Program {
        rules,
        passes,
        names,
        courses,
    })
}

/// The outcome of an event; the rules and the event are borrowed for the same lifetime.
fn evaluate<'a, K: Knowledge>(
    alloc: Global,
    layout: Layout<'a>,
    event: &'a Event<'_>,
    knowledge: &K,
) -> Result<Outcome<'a>, AllocError>
    requires { IsLaidOut layout.rules.now layout.passes.now layout.names.now layout.courses.now }
    ensures { IfOk result (λ answer. answer ≡ outcome layout.entry.rules.now (K.known knowledge.now) event.now) }
{
    let mut scene = Scene::new(alloc, event)?;
    match run(alloc, layout, knowledge, &mut scene) {
        Ok(()) => finish(alloc, scene),
        Err(refused) => {
            drop(scene);
            Err(refused)
        }
    }
}

impl Program {
    /// The outcome of an event by the rules, as `evaluate_plain` has it.
    pub fn evaluate<'a, K: Knowledge>(
        &'a self,
        alloc: Global,
        event: &'a Event<'_>,
        knowledge: &K,
    ) -> Result<Outcome<'a>, AllocError>
        ensures { IfOk result (λ answer. answer ≡ outcome self.now (K.known knowledge.now) event.now) }
    {
        let layout = Layout {
            rules: &self.rules,
            passes: &self.passes,
            names: &self.names,
            courses: &self.courses,
        };
        evaluate(alloc, layout, event, knowledge)
    }

    /// The rules that are laid out.
    pub fn rules(&self) -> &[Rule]
        ensures { result.now ≡ self.now }
    {
        &self.rules
    }
}
