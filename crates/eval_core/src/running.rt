//! Rules one after another, by their numbers.
ghost use Rattle.std.specs.Prelude.{◌≡◌, ◌+◌, ◌<◌, ◌≤◌, None, IfOk, OnOk, length, get_or, if◌then◌else◌};
ghost use Rattle.rule_types.specs.Passed.{skipped};
ghost use Rattle.eval_rules.specs.Jumps.{run};
ghost use Rattle.eval_rules.specs.Steps.{apply};
ghost use Rattle.eval_core.specs.Courses.{as_predicted};
ghost use Rattle.eval_core.specs.Layout.{IsLaidOut};

use crate::actions::action_place;
use crate::courses::{Course, Fate, predicted_by};
use crate::marks::marks;
use crate::seen::seen;
use builtin_devices::Knowledge;
use eval_rules::apply;
use eval_state::Scene;
use rule_types::Rule;
use std::alloc::{AllocError, Global};
use text_bytes::Bytes;

/// Rules as they are laid out.
#[derive(Clone, Copy)]
pub(crate) struct Layout<'a> {
    /// The rules.
    pub rules: &'a [Rule],
    /// How many rules the jump of each skips.
    pub passes: &'a [usize],
    /// The names of the attributes that are looked up for each event.
    pub names: &'a [Bytes],
    /// The course of each rule.
    pub courses: &'a [Course],
}

/// The number of the rule after one that was evaluated: the next, or that to which it jumps.
fn following(rules: &[Rule], passes: &[usize], place: usize, reached: bool) -> usize
    requires is { passes.now ≡ skipped rules.now }
    requires within { place < length rules.now }
    ensures value { result ≡ place + 1 + (if reached then get_or passes.now place 0 else 0) }
    ensures later { place < result }
    ensures within { result ≤ length rules.now }
{
    let over = passes[place];
    if reached { place + 1 + over } else { place + 1 }
}

/// Evaluates a rule whose outcome is known as far as `fate` says, and returns whether its end was reached.
fn step<'a, K: Knowledge>(
    alloc: Global,
    rule: &'a Rule,
    fate: Fate,
    knowledge: &K,
    scene: &mut Scene<'a>,
) -> Result<bool, AllocError>
    requires { as_predicted fate scene.old (apply (K.known knowledge.now) rule.now scene.old) ≡ apply (K.known knowledge.now) rule.now scene.old }
    ensures { IfOk result (λ on. (scene.new, on) ≡ apply (K.known knowledge.now) rule.now scene.old) }
{
    match fate {
        Fate::Unknown => apply(alloc, rule, knowledge, scene),
        Fate::Failed => Ok(false),
        Fate::Reached => Ok(true),
        Fate::NotFound => {
            scene.state.selected = None;
            Ok(false)
        }
    }
}

/// Evaluates rules, one after another: those that are ruled out are skipped, and so are those between a rule that
/// jumps and the one to which it does.
pub(crate) fn run<'a, K: Knowledge>(
    alloc: Global,
    layout: Layout<'a>,
    knowledge: &K,
    scene: &mut Scene<'a>,
) -> Result<(), AllocError>
    requires { IsLaidOut layout.rules.now layout.passes.now layout.names.now layout.courses.now }
    ensures { OnOk result (scene.new ≡ run (K.known knowledge.now) None layout.entry.rules.now scene.old) }
{
    let seen = seen(alloc, layout.names, &scene.state.event)?;
    let found = marks(scene.state.event.event());
    let profile = scene.state.event.event().profile();
    let action = action_place(scene.state.event.event().action());
    let mut place = 0;
    while place < layout.rules.len() {
        let fate = predicted_by(profile, action, &seen, &found, layout.courses[place]);
        let reached = step(alloc, &layout.rules[place], fate, knowledge, scene)?;
        place = following(layout.rules, layout.passes, place, reached);
    }
    Ok(())
}
