//! Rules that udev skips, since nothing in them counts for the event.
ghost use Rattle.std.specs.Prelude.{◌≡◌, OnOk, OnErr, fold};
ghost use Rattle.std.specs.List.{list_any};
ghost use Rattle.eval_rules.specs.Idle.{act_kind_counts, applies, change_applies, change_counts, is_idle, is_idle_by};
ghost use Rattle.eval_rules.specs.Idle.{is_of_device, note_all, note_step, something_counts, text_counts};
ghost use Rattle.eval_rules.specs.Steps.{if_proceeding};

use device_core::{Device, Event};
use eval_acts::is_removal;
use eval_assignments::{is_interface, set_one};
use eval_state::Scene;
use rule_types::{Act, ActKind, Assignment, Change, Rule, RuleOption, Target};
use std::alloc::{AllocError, Global};
use text_bytes::Profile;

/// Whether a key is one of the device's node or its name.
fn is_of_device(target: &Target) -> bool
    ensures { result ≡ is_of_device target.now }
{
    match target {
        Target::Owner | Target::Group | Target::Mode | Target::Symlink | Target::Name => true,
        _ => false,
    }
}

/// Whether a key applies to a device: those of its node if it has a number, its name if it is an interface, any
/// other to all.
fn applies(target: &Target, device: &Device<'_>) -> bool
    ensures { result ≡ applies target.now device.now }
{
    match target {
        Target::Owner | Target::Group | Target::Mode | Target::Symlink => {
            device.number().is_some()
        }
        Target::Name => is_interface(device),
        _ => true,
    }
}

/// Whether an assignment of a text counts for an event: its key applies to the device, and is not one of the node
/// or the name of a device that is removed.
fn text_counts(target: &Target, event: &Event<'_>) -> bool
    ensures { result ≡ text_counts target.now event.now }
{
    applies(target, event.device()) && !(is_of_device(target) && is_removal(event))
}

/// Whether an assignment counts for an event: an option that is ignored does not.
fn change_counts(change: &Change, event: &Event<'_>) -> bool
    ensures { result ≡ change_counts change.now event.now }
{
    match change {
        Change::Option(RuleOption::Ignored) => false,
        Change::Option(_) => true,
        Change::Text(target, _) => text_counts(target, event),
        Change::Run(_, _) => true,
    }
}

/// Whether an act counts: TEST only asks.
fn act_kind_counts(act_kind: &ActKind) -> bool
    ensures { result ≡ act_kind_counts act_kind.now }
{
    match act_kind {
        ActKind::Test(_, _) => false,
        _ => true,
    }
}

/// Whether one of these acts counts.
fn acts_count(acts: &[Act]) -> bool
    ensures { result ≡ list_any (λ act. act_kind_counts act.kind) acts.now }
{
    acts.iter().any(|act| act_kind_counts(&act.kind))
}

/// Whether one of these assignments counts for an event.
fn sets_count(sets: &[Assignment], event: &Event<'_>) -> bool
    ensures { result ≡ list_any (λ a. change_counts a.change event.now) sets.now }
{
    sets.iter().any(|set| change_counts(&set.change, event))
}

/// Whether something in a rule counts for an event: its GOTO, what acts, or an assignment.
fn something_counts(rule: &Rule, event: &Event<'_>) -> bool
    ensures { result ≡ something_counts rule.now event.now }
{
    rule.goto().is_some() || acts_count(&rule.acts) || sets_count(&rule.sets, event)
}

/// Whether a rule is skipped before its matches are looked at: for udev (systemd 257) one that neither jumps, nor
/// runs a program, nor imports, nor assigns anything that counts for the event. OWNER, GROUP, MODE and SYMLINK count
/// for a device with a number, NAME for a network interface, and none of them on `remove`; `static_node` and an
/// option that udev does not know count for no event. By the manual no rule is skipped.
#[tactic(auto, unfolding(crate::specs::Idle::is_idle_by))]
#[inline(always)]
pub fn is_idle(rule: &Rule, event: &Event<'_>) -> bool
    ensures { result ≡ is_idle rule.now event.now }
{
    match event.profile() {
        Profile::Manual => false,
        Profile::Udev => !something_counts(rule, event),
    }
}

/// Whether an assignment is one whose key applies to a device.
fn change_applies(change: &Change, device: &Device<'_>) -> bool
    ensures { result ≡ change_applies change.now device.now }
{
    match change {
        Change::Text(target, _) => applies(target, device),
        _ => true,
    }
}

/// Leaves the note of an assignment whose key does not apply to the device; any other has no effect.
fn note_step<'a>(
    alloc: Global,
    rule: &'a Rule,
    assignment: &'a Assignment,
    scene: &mut Scene<'a>,
) -> Result<(), AllocError>
    ensures scene { OnOk result (scene.new ≡ note_step rule.now scene.old assignment.now) }
    ensures refused { OnErr result (scene.new.state.event ≡ scene.old.state.event) }
{
    if change_applies(&assignment.change, scene.state.event.device()) {
        return Ok(());
    }
    set_one(alloc, rule, assignment, scene)
}

/// Leaves the notes of those assignments of a rule whose keys do not apply to the device, instead of making any.
fn note_each<'a>(alloc: Global, rule: &'a Rule, scene: &mut Scene<'a>) -> Result<(), AllocError>
    ensures scene { OnOk result (scene.new ≡ fold (note_step rule.now) scene.old rule.now.sets) }
    ensures refused { OnErr result (scene.new.state.event ≡ scene.old.state.event) }
{
    for assignment in &rule.sets {
        note_step(alloc, rule, assignment, scene)?;
    }
    Ok(())
}

/// The end of a rule that is skipped: if its keys let it go on to its assignments, those that do not apply to the
/// device leave their notes, and none is made.
///
/// If memory runs out, the event stays.
pub fn note_all<'a>(
    alloc: Global,
    rule: &'a Rule,
    proceeds: bool,
    scene: &mut Scene<'a>,
) -> Result<(), AllocError>
    ensures scene { OnOk result (scene.new ≡ (if_proceeding (note_all rule.now) (scene.old, proceeds)).0) }
    ensures refused { OnErr result (scene.new.state.event ≡ scene.old.state.event) }
{
    if proceeds {
        note_each(alloc, rule, scene)
    } else {
        Ok(())
    }
}
