//! Rules one after another, with their jumps.
//!
//! The rules of all files are one list: a jump looks for its label below its rule, and the next rule
//! that has it is in the same file. Most rules end without a jump, and then the next one follows.
ghost use Rattle.std.specs.Prelude.{◌≡◌, ◌≤◌, None, OnOk, length, option_map};
ghost use Rattle.std.specs.List.{prefix_len};
ghost use Rattle.eval_rules.specs.Jumps.{is_passed, run_all, sought_after};
ghost use Rattle.eval_rules.specs.Inner.{passed_told};
ghost use Rattle.eval_rules.specs.Watched.{run_watched};

use crate::steps::apply_watched;
use crate::watch::{Moment, Watch};
use builtin_devices::Knowledge;
use eval_state::Scene;
use rule_types::Rule;
use std::alloc::{AllocError, Global};

/// Whether a rule is skipped, while a label is sought or none is.
pub fn is_passed(sought: Option<&[u8]>, rule: &Rule) -> bool
    ensures { result ≡ is_passed (option_map (λ t. t.now) sought.entry) rule.now }
{
    match (sought, rule.label()) {
        (None, _) => false,
        (Some(_), None) => true,
        (Some(name), Some(label)) => label != name,
    }
}

/// The label that is sought after a rule: that of its GOTO, if its end was reached.
pub fn sought_after(reached: bool, rule: &Rule) -> Option<&[u8]>
    ensures { option_map (λ t. t.now) result ≡ sought_after reached rule.now }
{
    if reached { rule.goto() } else { None }
}

/// How many rules from the first on are skipped.
fn passed_len(sought: Option<&[u8]>, rules: &[Rule]) -> usize
    ensures value { result ≡ prefix_len (is_passed (option_map (λ t. t.now) sought.entry)) rules.now }
    ensures within { result ≤ length rules.now }
{
    rules
        .iter()
        .take_while(|rule| is_passed(sought, rule))
        .count()
}

/// Tells of rules that are passed over.
#[inline(always)]
fn tell_passed<'a, W: Watch<'a>>(
    alloc: Global,
    rules: &'a [Rule],
    watch: &mut W,
    scene: &mut Scene<'a>,
) -> Result<(), AllocError>
    ensures watch { OnOk result (watch.new ≡ passed_told W.telling scene.old watch.old rules.now) }
    ensures scene { scene.new ≡ scene.old }
{
    for rule in rules {
        watch.tell(alloc, Moment::Passed(rule), scene)?;
    }
    Ok(())
}

/// Evaluates rules, one after another, while something watches. After a rule that jumps and whose end was reached,
/// those between it and the next one with the label are skipped.
#[tactic(auto, unfolding(crate::specs::Watched::run_watched))]
pub fn run_watched<'a, K: Knowledge, W: Watch<'a>>(
    alloc: Global,
    rules: &'a [Rule],
    knowledge: &K,
    watch: &mut W,
    scene: &mut Scene<'a>,
) -> Result<(), AllocError>
    ensures watch { OnOk result ((scene.new, watch.new) ≡ run_watched W.telling (K.known knowledge.now) None rules.now (scene.old, watch.old)) }
    ensures scene { OnOk result (scene.new ≡ run_all (K.known knowledge.now) rules.now scene.old) }
{
    let mut rest = rules;
    while let Some((rule, following)) = rest.split_first() {
        let reached = apply_watched(alloc, rule, knowledge, watch, scene)?;
        let count = passed_len(sought_after(reached, rule), following);
        let (passed, landing) = following.split_at(count);
        tell_passed(alloc, passed, watch, scene)?;
        rest = landing;
    }
    Ok(())
}

/// Evaluates rules, one after another.
pub(crate) fn run<'a, K: Knowledge>(
    alloc: Global,
    rules: &'a [Rule],
    knowledge: &K,
    scene: &mut Scene<'a>,
) -> Result<(), AllocError>
    ensures { OnOk result (scene.new ≡ run_all (K.known knowledge.now) rules.now scene.old) }
{
    run_watched(alloc, rules, knowledge, &mut (), scene)
}
