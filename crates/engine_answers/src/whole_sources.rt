//! The whole outcome of an event with the rules that it comes from.
ghost use Rattle.std.specs.Prelude.{◌≡◌, IfOk};
ghost use Rattle.eval_sources.specs.Reported.{event_commands, stages};
ghost use Rattle.eval_sources.specs.Sources.{Reports};
ghost use Rattle.eval_unread.specs.Others.{ask_others};
ghost use Rattle.eval_unread.specs.Unread.{whole_outcome};

use builtin_devices::Knowledge;
use device_core::Event;
use eval_sources::{Sourced, evaluate_sources};
use eval_unread::completed;
use rule_types::Rule;
use std::alloc::{AllocError, Global};

/// The whole outcome of an event by the rules as they are read, as `eval_unread::evaluate_whole` has it, and for each item in it
/// where it comes from, as `eval_sources::evaluate_sources` has it.
///
/// `asks` says whether the rules ask for attributes of other devices, as `eval_unread::ask_others` has it. Fails if memory runs out.
pub fn evaluate_whole_sources<'a, K: Knowledge>(
    alloc: Global,
    asks: bool,
    rules: &'a [Rule],
    event: &'a Event<'_>,
    knowledge: &K,
) -> Result<Sourced<'a>, AllocError>
    requires { asks ≡ ask_others rules.now }
    ensures outcome { IfOk result (λ s. s.outcome ≡ whole_outcome rules.now (K.known knowledge.now) event.now) }
    ensures sources { IfOk result (λ s. Reports (stages rules.now (K.known knowledge.now) event.now) s.sources) }
    ensures commands { IfOk result (λ s. s.commands.items ≡ event_commands rules.now (K.known knowledge.now) event.now) }
{
    let Sourced {
        outcome,
        sources,
        commands,
    } = evaluate_sources(alloc, rules, event, knowledge)?;
    let outcome = completed(alloc, asks, rules, event, knowledge, outcome)?;
    Ok(Sourced {
        outcome,
        sources,
        commands,
    })
}
