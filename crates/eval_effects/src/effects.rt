//! The assignments of a rule, each reported as it is made.
ghost use Rattle.std.specs.Prelude.{◌≡◌, ◌++◌, IfOk, OnOk, OnErr, fold, option_map, unwrap_or};
ghost use Rattle.eval_state.specs.Scenes.{blank};
ghost use Rattle.eval_assignments.specs.Steps.{set_step};
ghost use Rattle.eval_effects.specs.Named.{change_key};
ghost use Rattle.eval_effects.specs.Effects.{effect, ending, final_text, no_name, said_left, said_of, settled_key};
ghost use Rattle.eval_effects.specs.Narrow.{found_text};

use crate::named::{final_name, push_key, push_rule};
use crate::scope::{Fronts, written_by};
use crate::shown::{push_joined, push_shown};
use crate::since::Since;
use crate::snapshot::Snapshot;
use eval_assignments::{final_key, set_one};
use eval_state::{FinalKey, Finals, Note, NoteKind, Scene};
use rule_types::{Assignment, Change, Rule};
use std::alloc::{AllocError, Global};
use text_bytes::Bytes;

/// A key, if there is one and it no longer changes.
fn settled_key(finals: Finals, key: Option<FinalKey>) -> Option<FinalKey>
    ensures { result ≡ settled_key finals key }
{
    match key {
        Some(key) if finals.contains(key) => Some(key),
        _ => None,
    }
}

/// The text of an assignment to a key that has been final since a rule: an earlier one, or the rule
/// of the assignment.
fn final_text(
    alloc: Global,
    key: FinalKey,
    since: &Since<'_>,
    rule: &Rule,
) -> Result<Bytes, AllocError>
    ensures { IfOk result (λ text. text ≡ final_text key (unwrap_or (since.now key) rule.now)) }
{
    let mut text = Vec::from_slice(alloc, final_name(key))?;
    text.extend_from_slice(b" is final since ")?;
    push_rule(alloc, &mut text, since.rule_of(key).unwrap_or(rule))?;
    Ok(Bytes::new(text))
}

/// The key of an assignment, and what is said about it.
fn key_with(alloc: Global, change: &Change, said: &[u8]) -> Result<Bytes, AllocError>
    ensures { IfOk result (λ text. text ≡ change_key change.now ++ said.now) }
{
    let mut text = Vec::new(alloc);
    push_key(alloc, &mut text, change.key(), change.attribute())?;
    text.extend_from_slice(said)?;
    Ok(Bytes::new(text))
}

/// Why a device has no name to assign, by its subsystem: it is no network device, or one without the number of an
/// interface.
fn no_name(subsystem: Option<&[u8]>) -> &'static [u8]
    ensures { result.now ≡ no_name (option_map (λ t. t.now) subsystem.entry) }
{
    match subsystem {
        Some(subsystem) if subsystem == b"net".as_slice() => b"no interface (IFINDEX)",
        _ => b"no network device",
    }
}

/// Adds the text of a note of an assignment over a scene.
fn push_said(
    alloc: Global,
    reported: &mut Vec<Bytes>,
    change: &Change,
    scene: &Scene<'_>,
    kind: NoteKind,
    word: &[u8],
) -> Result<(), AllocError>
    ensures { OnOk result (reported.new.items ≡ reported.old.items ++ said_of change.now scene.now kind word.now) }
{
    match kind {
        NoteKind::TextTooLong => reported.push(key_with(alloc, change, b" left out, too long")?)?,
        NoteKind::NameIgnored => {
            let mut text = Vec::from_slice(alloc, b"NAME ignored, ")?;
            text.extend_from_slice(no_name(scene.state.event.device().subsystem()))?;
            reported.push(Bytes::new(text))?;
        }
        NoteKind::NoDeviceNumber => {
            reported.push(key_with(alloc, change, b" ignored, no device number")?)?;
        }
        NoteKind::NoValue => reported.push(key_with(alloc, change, b" ignored, no value")?)?,
        NoteKind::LinkIgnored => {
            let mut text = Vec::new(alloc);
            push_shown(alloc, &mut text, word)?;
            text.extend_from_slice(b" ignored, no link")?;
            reported.push(Bytes::new(text))?;
        }
        NoteKind::ModeIgnored => reported.push(key_with(alloc, change, b" ignored, no mode")?)?,
        NoteKind::TagIgnored => reported.push(key_with(alloc, change, b" ignored, no tag")?)?,
        NoteKind::AttributeNotFound => {
            reported.push(key_with(alloc, change, b" ignored, no such attribute")?)?;
        }
        _ => {}
    }
    Ok(())
}

/// Adds the text of the note of an assignment, if it left one.
fn push_left(
    alloc: Global,
    reported: &mut Vec<Bytes>,
    change: &Change,
    scene: &Scene<'_>,
    note: Option<&Note>,
) -> Result<(), AllocError>
    ensures { OnOk result (reported.new.items ≡ reported.old.items ++ said_left change.now scene.now (option_map (λ n. n.now) note.entry)) }
{
    match note {
        Some(note) => push_said(
            alloc,
            reported,
            change,
            scene,
            note.kind,
            note.word.as_slice(),
        ),
        None => Ok(()),
    }
}

/// An assignment that was made or left a note, by what it writes, the fronts that stay, what was there before it, and the
/// scene after it.
fn made_text(
    alloc: Global,
    change: &Change,
    written: &Option<Bytes>,
    fronts: Fronts,
    was: &Snapshot<'_>,
    scene: &Scene<'_>,
) -> Result<Bytes, AllocError>
    ensures { IfOk result (λ text. text ≡ found_text written.now change.now fronts was.now scene.now) }
{
    let now = Snapshot::of(alloc, change, written, fronts, scene)?;
    let mut reported = was.changes(alloc, &now)?;
    push_left(alloc, &mut reported, change, scene, was.note_since(scene))?;
    if reported.is_empty() {
        return key_with(alloc, change, b" changes nothing");
    }
    let mut text = Vec::new(alloc);
    push_joined(&mut text, &reported)?;
    Ok(Bytes::new(text))
}

/// Makes an assignment, and returns a text of what it did.
#[tactic(auto, unfolding(crate::specs::Effects::effect))]
fn set_and_report<'a>(
    alloc: Global,
    rule: &'a Rule,
    since: &Since<'a>,
    assignment: &'a Assignment,
    scene: &mut Scene<'a>,
) -> Result<Bytes, AllocError>
    ensures scene { OnOk result (scene.new ≡ set_step rule.now scene.old assignment.now) }
    ensures text { IfOk result (λ text. text ≡ effect since.now rule.now scene.old assignment.now) }
    ensures event { scene.new.state.event ≡ scene.old.state.event }
{
    let profile = scene.state.event.event().profile();
    let settled = settled_key(scene.finals, final_key(profile, &assignment.change));
    let change = &assignment.change;
    let fronts = Fronts::of(assignment.operator, scene);
    // These lengths are for the proof: they say that no attribute and no parameter is there twice.
    let _attrs = scene.attrs.len();
    let _sysctls = scene.sysctls.len();
    let written = written_by(alloc, change, &scene.state)?;
    let was = Snapshot::of(alloc, change, &written, fronts, scene)?;
    set_one(alloc, rule, assignment, scene)?;
    match settled {
        Some(key) => final_text(alloc, key, since, rule),
        None => made_text(alloc, change, &written, fronts, &was, scene),
    }
}

/// The end of a rule; on failure its scene may be left half done.
#[tactic(auto, unfolding(crate::specs::Effects::ending))]
fn end_open<'a>(
    alloc: Global,
    rule: &'a Rule,
    since: &Since<'a>,
    scene: &mut Scene<'a>,
) -> Result<Bytes, AllocError>
    ensures scene { OnOk result (scene.new ≡ fold (set_step rule.now) scene.old rule.now.sets) }
    ensures text { IfOk result (λ text. text ≡ ending since.now rule.now scene.old) }
    ensures event { scene.new.state.event ≡ scene.old.state.event }
{
    let mut reported = Vec::new(alloc);
    for assignment in &rule.sets {
        reported.push(set_and_report(alloc, rule, since, assignment, scene)?)?;
    }
    let mut text = Vec::from_slice(alloc, b"reached its end")?;
    if !reported.is_empty() {
        text.extend_from_slice(b": ")?;
        push_joined(&mut text, &reported)?;
    }
    Ok(Bytes::new(text))
}

/// Makes the assignments of a rule whose end is reached, as `set_all` does, and returns a text of what each of them
/// did: udev(7), "assign keys".
///
/// The text is `reached its end`, and after a colon for each assignment, in the order of evaluation: that its key
/// is final, and since which rule; or what it changed in links, tags, properties and all other items, and in what
/// is to be run, and that its text was too long or was ignored. `since` gives the rules since which keys are final;
/// a key that no rule there made final has been final since this rule.
///
/// If memory runs out, nothing is left of the scene but its event.
pub fn end_and_report<'a>(
    alloc: Global,
    rule: &'a Rule,
    since: &Since<'a>,
    scene: &mut Scene<'a>,
) -> Result<Bytes, AllocError>
    ensures scene { OnOk result (scene.new ≡ fold (set_step rule.now) scene.old rule.now.sets) }
    ensures text { IfOk result (λ text. text ≡ ending since.now rule.now scene.old) }
    ensures refused { OnErr result (scene.new ≡ blank scene.old.state.event) }
{
    let reported = end_open(alloc, rule, since, scene);
    if reported.is_err() {
        scene.clear(alloc);
    }
    reported
}
