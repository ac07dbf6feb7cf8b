//! What IMPORT{builtin} of `hwdb` does.
ghost use Rattle.std.specs.Prelude.{◌≡◌, IfOk, OnErr};
ghost use Rattle.eval_acts.specs.Imports.{hwdb_run};

use crate::builtin_runs::note_needs;
use crate::imports::take;
use builtin_devices::Knowledge;
use eval_commands::{Request, look_up, lookup_needs};
use eval_state::Scene;
use rule_types::Rule;
use std::alloc::{AllocError, Global};

/// Takes what `hwdb` finds, and returns whether that is anything; what the block would have to report for it is noted.
pub(crate) fn run_hwdb<K: Knowledge>(
    alloc: Global,
    rule: &Rule,
    request: &Request<'_>,
    knowledge: &K,
    scene: &mut Scene<'_>,
) -> Result<bool, AllocError>
    ensures scene { IfOk result (λ done. (scene.new, done) ≡ hwdb_run (K.known knowledge.now) rule.now request.now scene.old) }
    ensures refused { OnErr result (scene.new.state.event ≡ scene.old.state.event) }
{
    let found = look_up(alloc, request, &scene.state, knowledge)?;
    let needs = lookup_needs(alloc, request, &scene.state, &found)?;
    let done = take(alloc, &found, scene)?;
    note_needs(alloc, rule, b"hwdb", &needs, scene)?;
    Ok(done)
}
