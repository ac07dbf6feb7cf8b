//! One rule, step by step.
//!
//! Most rules fail at their first match; memory is taken only for notes, acts and assignments.
ghost use Rattle.std.specs.Prelude.{◌≡◌, true, false, OnErr, OnOk, IfOk};
ghost use Rattle.eval_state.specs.Scenes.{blank};
ghost use Rattle.eval_acts.specs.Acts.{act_step};
ghost use Rattle.eval_rules.specs.Idle.{is_idle};
ghost use Rattle.eval_rules.specs.Steps.{apply, plain_step, result_step, search, walk};
ghost use Rattle.eval_rules.specs.Watched.{acted, apply_watched, assigned_watched, comparing, entered_watched, keys_watched, meeting};
ghost use Rattle.eval_rules.specs.Watched.{searching, skip_told, skipped_watched, told};

use crate::idle::{is_idle, note_all};
use crate::watch::{Moment, Watch};
use builtin_devices::Knowledge;
use eval_acts::match_reached;
use eval_rendering::{found_place, plain_holds, result_holds};
use eval_state::Scene;
use rule_types::{Act, Comparison, PlainMatch, Rule, UpMatch};
use std::alloc::{AllocError, Global};

/// Reaches a match of the event, and returns whether it holds. One of what is not read leaves its note.
///
/// If memory runs out, the scene stays as it is.
#[tactic(auto, unfolding(crate::specs::Steps::plain_step))]
#[inline(always)]
pub fn plain_step(
    alloc: Global,
    rule: &Rule,
    part: &PlainMatch,
    scene: &mut Scene<'_>,
) -> Result<bool, AllocError>
    ensures scene { IfOk result (λ on. (scene.new, on) ≡ plain_step rule.now part.now scene.old) }
    ensures event { scene.new.state.event ≡ scene.old.state.event }
    ensures refused { OnErr result (scene.new ≡ scene.old) }
{
    let holds = plain_holds(part, &scene.state);
    match_reached(alloc, rule, part, scene)?;
    Ok(holds)
}

/// Reaches a match of the event, and returns whether it holds.
#[inline(always)]
fn meet<'a, W: Watch<'a>>(
    alloc: Global,
    rule: &'a Rule,
    part: &'a PlainMatch,
    watch: &mut W,
    scene: &mut Scene<'a>,
) -> Result<bool, AllocError>
    ensures watch { IfOk result (λ on. ((scene.new, watch.new), on)
        ≡ told W.telling (λ p went. meeting rule.now p) (plain_step rule.now) part.now (scene.old, watch.old)) }
    ensures event { scene.new.state.event ≡ scene.old.state.event }
{
    watch.tell(alloc, Moment::Meeting(rule, part), scene)?;
    plain_step(alloc, rule, part, scene)
}

/// Whether the matches of the event hold, up to the first that does not.
#[inline(always)]
fn match_event<'a, W: Watch<'a>>(
    alloc: Global,
    rule: &'a Rule,
    parts: &'a [PlainMatch],
    watch: &mut W,
    scene: &mut Scene<'a>,
) -> Result<bool, AllocError>
    ensures watch { IfOk result (λ on. ((scene.new, watch.new), on)
        ≡ walk (told W.telling (λ p went. meeting rule.now p) (plain_step rule.now)) parts.now (scene.old, watch.old)) }
    ensures event { scene.new.state.event ≡ scene.old.state.event }
{
    for part in parts {
        if !meet(alloc, rule, part, watch, scene)? {
            return Ok(false);
        }
    }
    Ok(true)
}

/// Selects the nearest device that meets all of the matches, or none, and returns whether one does.
/// Without a match nothing is searched, and the selection stays.
pub fn search(parts: &[UpMatch], scene: &mut Scene<'_>) -> bool
    ensures scene { (scene.new, result) ≡ search parts.now scene.old }
    ensures event { scene.new.state.event ≡ scene.old.state.event }
{
    if parts.is_empty() {
        return true;
    }
    let place = found_place(parts, &scene.state);
    scene.state.selected = place;
    place.is_some()
}

/// Searches for one device, and returns whether the rule goes on.
#[inline(always)]
fn search_watched<'a, W: Watch<'a>>(
    alloc: Global,
    rule: &'a Rule,
    watch: &mut W,
    scene: &mut Scene<'a>,
) -> Result<bool, AllocError>
    ensures watch { IfOk result (λ on. ((scene.new, watch.new), on)
        ≡ told W.telling (λ parts went. searching rule.now) search rule.now.up (scene.old, watch.old)) }
    ensures event { scene.new.state.event ≡ scene.old.state.event }
{
    watch.tell(alloc, Moment::Searching(rule), scene)?;
    Ok(search(&rule.up, scene))
}

/// Acts part by part, up to the first that stops the rule.
#[inline(never)]
fn act_all<'a, K: Knowledge, W: Watch<'a>>(
    alloc: Global,
    rule: &'a Rule,
    parts: &'a [Act],
    knowledge: &K,
    watch: &mut W,
    scene: &mut Scene<'a>,
) -> Result<bool, AllocError>
    ensures watch { IfOk result (λ on. ((scene.new, watch.new), on)
        ≡ walk (told W.telling (acted rule.now) (act_step (K.known knowledge.now) rule.now)) parts.now (scene.old, watch.old)) }
    ensures event { scene.new.state.event ≡ scene.old.state.event }
{
    for part in parts {
        if !watch.act(alloc, rule, part, knowledge, scene)? {
            return Ok(false);
        }
    }
    Ok(true)
}

/// Whether a match of the result of the last program holds.
#[tactic(auto, unfolding(crate::specs::Steps::result_step))]
#[inline(always)]
fn compare<'a, W: Watch<'a>>(
    alloc: Global,
    rule: &'a Rule,
    part: &'a Comparison,
    watch: &mut W,
    scene: &mut Scene<'a>,
) -> Result<bool, AllocError>
    ensures watch { IfOk result (λ on. ((scene.new, watch.new), on)
        ≡ told W.telling (λ p went. comparing rule.now p) result_step part.now (scene.old, watch.old)) }
    ensures scene { scene.new ≡ scene.old }
{
    watch.tell(alloc, Moment::Comparing(rule, part), scene)?;
    Ok(result_holds(part, &scene.state))
}

/// Whether the matches of the result of the last program hold, up to the first that does not.
#[inline(always)]
fn match_results<'a, W: Watch<'a>>(
    alloc: Global,
    rule: &'a Rule,
    parts: &'a [Comparison],
    watch: &mut W,
    scene: &mut Scene<'a>,
) -> Result<bool, AllocError>
    ensures watch { IfOk result (λ on. ((scene.new, watch.new), on)
        ≡ walk (told W.telling (λ p went. comparing rule.now p) result_step) parts.now (scene.old, watch.old)) }
    ensures event { scene.new.state.event ≡ scene.old.state.event }
{
    for part in parts {
        if !compare(alloc, rule, part, watch, scene)? {
            return Ok(false);
        }
    }
    Ok(true)
}

/// Goes through a rule up to its assignments, and returns whether it goes on to them: the matches of the event, the
/// search for one device, what acts, the matches of the result.
#[inline(always)]
fn try_rule<'a, K: Knowledge, W: Watch<'a>>(
    alloc: Global,
    rule: &'a Rule,
    knowledge: &K,
    watch: &mut W,
    scene: &mut Scene<'a>,
) -> Result<bool, AllocError>
    ensures watch { IfOk result (λ on. ((scene.new, watch.new), on)
        ≡ keys_watched W.telling (K.known knowledge.now) rule.now (scene.old, watch.old)) }
    ensures event { scene.new.state.event ≡ scene.old.state.event }
{
    if !match_event(alloc, rule, &rule.plain, watch, scene)? {
        return Ok(false);
    }
    if !search_watched(alloc, rule, watch, scene)? {
        return Ok(false);
    }
    if !act_all(alloc, rule, &rule.acts, knowledge, watch, scene)? {
        return Ok(false);
    }
    match_results(alloc, rule, &rule.results, watch, scene)
}

/// Goes through a rule's five steps, up to the first that stops it, and returns whether its end was reached.
#[inline(always)]
fn take_steps<'a, K: Knowledge, W: Watch<'a>>(
    alloc: Global,
    rule: &'a Rule,
    knowledge: &K,
    watch: &mut W,
    scene: &mut Scene<'a>,
) -> Result<bool, AllocError>
    ensures watch { IfOk result (λ on. ((scene.new, watch.new), on)
        ≡ assigned_watched W.telling rule.now (keys_watched W.telling (K.known knowledge.now) rule.now (scene.old, watch.old))) }
    ensures refused { OnErr result (scene.new.state.event ≡ scene.old.state.event) }
{
    if !try_rule(alloc, rule, knowledge, watch, scene)? {
        watch.tell(alloc, Moment::Stopped(rule), scene)?;
        return Ok(false);
    }
    watch.assign(alloc, rule, scene)?;
    Ok(true)
}

/// Tells what becomes of a rule that is skipped, by whether its keys let it go on.
#[inline(always)]
fn tell_skipped<'a, W: Watch<'a>>(
    alloc: Global,
    rule: &'a Rule,
    proceeds: bool,
    watch: &mut W,
    scene: &mut Scene<'a>,
) -> Result<(), AllocError>
    ensures watch { OnOk result (watch.new
        ≡ skip_told W.telling rule.now ((scene.old, watch.old), proceeds)) }
    ensures scene { scene.new ≡ scene.old }
{
    if proceeds {
        watch.tell(alloc, Moment::Skipped(rule), scene)
    } else {
        watch.tell(alloc, Moment::Stopped(rule), scene)
    }
}

/// Skips a rule in which nothing counts for the event: it leaves its notes; the device that was selected before is
/// selected again, and the keys that were final before are the final ones.
#[inline(never)]
fn pass_over<'a, K: Knowledge, W: Watch<'a>>(
    alloc: Global,
    rule: &'a Rule,
    knowledge: &K,
    watch: &mut W,
    scene: &mut Scene<'a>,
) -> Result<(), AllocError>
    requires { is_idle rule.now scene.old.state.event ≡ true }
    ensures watch { OnOk result (((scene.new, watch.new), false)
        ≡ skipped_watched W.telling (K.known knowledge.now) rule.now (scene.old, watch.old)) }
    ensures refused { OnErr result (scene.new.state.event ≡ scene.old.state.event) }
{
    let selected = scene.state.selected;
    let finals = scene.finals;
    let proceeds = try_rule(alloc, rule, knowledge, watch, scene)?;
    tell_skipped(alloc, rule, proceeds, watch, scene)?;
    note_all(alloc, rule, proceeds, scene)?;
    scene.state.selected = selected;
    scene.finals = finals;
    Ok(())
}

/// Evaluates a rule, or skips it, and returns whether its end was reached.
#[inline(always)]
fn evaluate<'a, K: Knowledge, W: Watch<'a>>(
    alloc: Global,
    rule: &'a Rule,
    knowledge: &K,
    watch: &mut W,
    scene: &mut Scene<'a>,
) -> Result<bool, AllocError>
    ensures watch { IfOk result (λ on. ((scene.new, watch.new), on)
        ≡ entered_watched W.telling (K.known knowledge.now) rule.now (scene.old, watch.old)) }
    ensures refused { OnErr result (scene.new.state.event ≡ scene.old.state.event) }
{
    if is_idle(rule, scene.state.event.event()) {
        pass_over(alloc, rule, knowledge, watch, scene)?;
        return Ok(false);
    }
    take_steps(alloc, rule, knowledge, watch, scene)
}

/// The same, and tells that the rule is entered, and that it is left.
#[tactic(auto, unfolding(crate::specs::Watched::apply_watched))]
#[inline(always)]
fn leave<'a, K: Knowledge, W: Watch<'a>>(
    alloc: Global,
    rule: &'a Rule,
    knowledge: &K,
    watch: &mut W,
    scene: &mut Scene<'a>,
) -> Result<bool, AllocError>
    ensures watch { IfOk result (λ on. ((scene.new, watch.new), on)
        ≡ apply_watched W.telling (K.known knowledge.now) rule.now (scene.old, watch.old)) }
    ensures refused { OnErr result (scene.new.state.event ≡ scene.old.state.event) }
{
    watch.tell(alloc, Moment::Entered(rule), scene)?;
    let reached = evaluate(alloc, rule, knowledge, watch, scene)?;
    watch.tell(alloc, Moment::Left(rule, reached), scene)?;
    Ok(reached)
}

/// Evaluates a rule as `apply` does, while something watches.
///
/// If memory runs out, nothing is left of the scene but its event.
#[inline(always)]
pub fn apply_watched<'a, K: Knowledge, W: Watch<'a>>(
    alloc: Global,
    rule: &'a Rule,
    knowledge: &K,
    watch: &mut W,
    scene: &mut Scene<'a>,
) -> Result<bool, AllocError>
    ensures watch { IfOk result (λ on. ((scene.new, watch.new), on)
        ≡ apply_watched W.telling (K.known knowledge.now) rule.now (scene.old, watch.old)) }
    ensures refused { OnErr result (scene.new ≡ blank scene.old.state.event) }
{
    let went = leave(alloc, rule, knowledge, watch, scene);
    if went.is_err() {
        scene.clear(alloc);
    }
    went
}

/// Evaluates a rule, and returns whether its end was reached: the matches of the event, the search for one device,
/// what acts, the matches of the result, the assignments. If one of them stops the rule, what was changed until
/// then stays. For udev, a rule in which nothing counts for the event is skipped: it leaves its notes and changes
/// nothing else, and its end is not reached.
///
/// If memory runs out, nothing is left of the scene but its event.
#[inline(never)]
pub fn apply<'a, K: Knowledge>(
    alloc: Global,
    rule: &'a Rule,
    knowledge: &K,
    scene: &mut Scene<'a>,
) -> Result<bool, AllocError>
    ensures scene { IfOk result (λ on. (scene.new, on) ≡ apply (K.known knowledge.now) rule.now scene.old) }
    ensures refused { OnErr result (scene.new ≡ blank scene.old.state.event) }
{
    apply_watched(alloc, rule, knowledge, &mut (), scene)
}
