//! How rules ended that are skipped, since nothing in them counts for the event.
ghost use Rattle.std.specs.Prelude.{◌≡◌, ◌++◌, IfOk, OnOk};
ghost use Rattle.eval_effects.specs.Named.{change_key};
ghost use Rattle.eval_courses.specs.Skipped.{cause_for, cause_of, is_bare, skipped_by, skipped_change, skipped_text};

use device_core::Event;
use eval_assignments::is_interface;
use eval_effects::{push_joined, push_key};
use rule_types::{Change, Rule, Target};
use std::alloc::{AllocError, Global};
use text_bytes::Bytes;

/// Why a text that does not count for an event does nothing: its key does not apply to the device, or the device is
/// removed.
fn cause_for(target: &Target, event: &Event<'_>) -> &'static [u8]
    ensures { result.now ≡ cause_for target.now event.now }
{
    match target {
        Target::Owner | Target::Group | Target::Mode | Target::Symlink
            if event.device().number().is_none() => { b"without a device number" }
        Target::Name if !is_interface(event.device()) => b"without an interface (IFINDEX)",
        _ => b"when the device is removed",
    }
}

/// Why an assignment that does not count for an event does nothing.
fn cause_of(change: &Change, event: &Event<'_>) -> &'static [u8]
    ensures { result.now ≡ cause_of change.now event.now }
{
    match change {
        Change::Text(target, _) => cause_for(target, event),
        _ => b"at an event",
    }
}

/// Appends the key of an assignment.
fn push_change_key(alloc: Global, text: &mut Vec<u8>, change: &Change) -> Result<(), AllocError>
    ensures { OnOk result (text.new.items ≡ text.old.items ++ change_key change.now) }
{
    push_key(alloc, text, change.key(), change.attribute())
}

/// An assignment that does not count for an event, and why.
fn skipped_change(alloc: Global, change: &Change, event: &Event<'_>) -> Result<Bytes, AllocError>
    ensures { IfOk result (λ text. text ≡ skipped_change event.now change.now) }
{
    let mut text = Vec::new(alloc);
    push_change_key(alloc, &mut text, change)?;
    text.extend_from_slice(b" does nothing ")?;
    text.extend_from_slice(cause_of(change, event))?;
    Ok(Bytes::new(text))
}

/// What of a rule does nothing, by what is said of each assignment.
fn skipped_by(alloc: Global, reported: &[Bytes]) -> Result<Bytes, AllocError>
    ensures { IfOk result (λ text. text ≡ skipped_by reported.now) }
{
    if reported.is_empty() {
        return Bytes::copy_of(alloc, b"skipped: nothing is assigned");
    }
    let mut text = Vec::from_slice(alloc, b"skipped: ")?;
    push_joined(&mut text, reported)?;
    Ok(Bytes::new(text))
}

/// Whether a rule has neither keys nor assignments.
fn is_bare(rule: &Rule) -> bool
    ensures { result ≡ is_bare rule.now }
{
    rule.plain.is_empty()
        && rule.up.is_empty()
        && rule.acts.is_empty()
        && rule.results.is_empty()
        && rule.sets.is_empty()
}

/// How a rule that is skipped ended, if all its keys would let it go on.
#[tactic(auto, unfolding(crate::specs::Skipped::skipped_text))]
pub(crate) fn skipped_text(
    alloc: Global,
    rule: &Rule,
    event: &Event<'_>,
) -> Result<Bytes, AllocError>
    ensures { IfOk result (λ text. text ≡ skipped_text rule.now event.now) }
{
    if is_bare(rule) {
        return Bytes::copy_of(alloc, b"reached its end");
    }
    let mut reported = Vec::new(alloc);
    for assignment in &rule.sets {
        reported.push(skipped_change(alloc, &assignment.change, event)?)?;
    }
    skipped_by(alloc, &reported)
}
