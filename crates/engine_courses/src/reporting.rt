//! All rules over an event, watched.
ghost use Rattle.std.specs.Prelude.{◌≡◌, IfOk, None, flat_map, map};
ghost use Rattle.eval_state.specs.Scenes.{start};
ghost use Rattle.eval_effects.specs.Since.{no_since};
ghost use Rattle.engine_courses.specs.WhyLines.{reported_from, rule_lines};

use crate::reporter::Reporter;
use builtin_devices::Knowledge;
use device_core::Event;
use eval_rules::run_watched;
use eval_state::Scene;
use rule_types::Rule;
use std::alloc::{AllocError, Global};

/// Evaluates rules at an event, and returns the lines on those that are asked for.
pub(crate) fn reported_lines<'a, K: Knowledge>(
    alloc: Global,
    why: &[&str],
    rules: &'a [Rule],
    event: &'a Event<'_>,
    knowledge: &K,
) -> Result<Vec<u8>, AllocError>
    ensures { IfOk result (λ lines. lines.items
        ≡ flat_map rule_lines (reported_from (map (λ t. t.now) why.now) (K.known knowledge.now) no_since None rules.now (start event.now))) }
{
    let mut scene = Scene::new(alloc, event)?;
    let mut reporter = Reporter::new(alloc, why);
    let went = run_watched(alloc, rules, knowledge, &mut reporter, &mut scene);
    drop(scene);
    went?;
    Ok(reporter.into_lines())
}
