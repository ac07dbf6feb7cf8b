//! An event, from its start to its outcome and where that comes from.
ghost use Rattle.std.specs.Prelude.{◌≡◌, IfOk, OnOk};
ghost use Rattle.eval_rules.specs.Inner.{unselected};
ghost use Rattle.eval_rules.specs.Jumps.{run_all};
ghost use Rattle.eval_rules.specs.Outcomes.{outcome};
ghost use Rattle.eval_sources.specs.Sources.{Reports};
ghost use Rattle.eval_sources.specs.Reported.{commands_over, event_commands, stages, stages_over};

use crate::commands::{SourcedCommand, add_made, sourced_commands};
use crate::reporting::Keeper;
use crate::sources::Sources;
use builtin_devices::Knowledge;
use device_core::Event;
use eval_rules::{Outcome, finish, run_watched};
use eval_state::Scene;
use rule_types::Rule;
use std::alloc::{AllocError, Global};

/// The outcome of an event, and where it comes from.
#[derive(Drop)]
pub struct Sourced<'a> {
    /// The outcome.
    pub outcome: Outcome<'a>,
    /// The rule that each item of it comes from.
    pub sources: Sources<'a>,
    /// Its commands, each with the rule that added it.
    pub commands: Vec<SourcedCommand<'a>>,
}

/// Runs rules over a scene in which none has run yet; returns where the items at the end come from, and the
/// commands. Another device may then be selected.
fn run_sourced<'a, K: Knowledge>(
    alloc: Global,
    rules: &'a [Rule],
    knowledge: &K,
    scene: &mut Scene<'a>,
) -> Result<(Sources<'a>, Vec<SourcedCommand<'a>>), AllocError>
    ensures scene { OnOk result (unselected scene.new ≡ unselected (run_all (K.known knowledge.now) rules.now scene.old)) }
    ensures sources { IfOk result (λ reported. Reports (stages_over (K.known knowledge.now) rules.now scene.old) reported.0) }
    ensures commands { IfOk result (λ reported. reported.1.items ≡ commands_over (K.known knowledge.now) rules.now scene.old) }
{
    let mut keeper = Keeper::new(alloc, scene)?;
    run_watched(alloc, rules, knowledge, &mut keeper, scene)?;
    let sources = keeper.into_sources();
    let mut commands = sourced_commands(alloc, scene.runs.as_slice(), &mut scene.state)?;
    add_made(alloc, scene.made.as_slice(), &mut commands)?;
    Ok((sources, commands))
}

/// The outcome of an event by the rules as they are read, as `evaluate_plain` has it, and where it comes from. An
/// item (a link, a tag, the value of a property or anything else that has a line) comes from the first rule after
/// which it is there, unchanged, until the end; it comes from none if it was there like this from the start. A
/// command comes from the rule that added it.
pub fn evaluate_sources<'a, K: Knowledge>(
    alloc: Global,
    rules: &'a [Rule],
    event: &'a Event<'_>,
    knowledge: &K,
) -> Result<Sourced<'a>, AllocError>
    ensures outcome { IfOk result (λ s. s.outcome ≡ outcome rules.now (K.known knowledge.now) event.now) }
    ensures sources { IfOk result (λ s. Reports (stages rules.now (K.known knowledge.now) event.now) s.sources) }
    ensures commands { IfOk result (λ s. s.commands.items ≡ event_commands rules.now (K.known knowledge.now) event.now) }
{
    let mut scene = Scene::new(alloc, event)?;
    match run_sourced(alloc, rules, knowledge, &mut scene) {
        Ok((sources, commands)) => {
            let outcome = finish(alloc, scene)?;
            Ok(Sourced {
                outcome,
                sources,
                commands,
            })
        }
        Err(refused) => {
            drop(scene);
            Err(refused)
        }
    }
}
