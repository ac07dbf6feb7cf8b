//! The matches of one device, what they met device by device, and the outcome of the search.
ghost use Rattle.std.specs.Prelude.{◌≡◌, ◌++◌, IfOk, OnOk, length, map};
ghost use Rattle.std.specs.List.{list_any};
ghost use Rattle.device_core.specs.Values.{chain};
ghost use Rattle.eval_rendering.specs.Subjects.{found_place, holds_at, up_subject};
ghost use Rattle.eval_courses.specs.Upward.{device_report, found_report, hits, meets_all, met_at, partial_report};
ghost use Rattle.eval_courses.specs.Upward.{partly, places, search_reports, up_report};

use crate::keys::Written;
use crate::subjects::{is_absent, kernel_at, push_looked, up_subject};
use eval_effects::{push_joined, push_shown};
use eval_rendering::{found_place, holds_at};
use eval_state::State;
use itoa::Buffer;
use rule_types::UpMatch;
use std::alloc::{AllocError, Global};
use text_bytes::Bytes;

/// Appends what a match met at the device at a place to a text.
fn push_met_at(
    alloc: Global,
    text: &mut Vec<u8>,
    part: &UpMatch,
    state: &State<'_>,
    place: usize,
) -> Result<(), AllocError>
    ensures { OnOk result (text.new.items ≡ text.old.items ++ met_at (holds_at state.now place part.now) (up_subject part.now.key state.now place)) }
{
    if holds_at(part, state, place) {
        return text.extend_from_slice(b" holds");
    }
    let subject = up_subject(&part.key, state, place);
    if is_absent(&subject) {
        return text.extend_from_slice(b" has none");
    }
    text.extend_from_slice(b" fails, ")?;
    push_looked(alloc, text, &subject)
}

/// The device at a place, and what a match met at it.
#[tactic(auto, unfolding(crate::specs::Upward::device_report))]
fn device_report(
    alloc: Global,
    part: &UpMatch,
    state: &State<'_>,
    place: usize,
) -> Result<Bytes, AllocError>
    ensures { IfOk result (λ text. text ≡ device_report part.now state.now place) }
{
    let mut text = Vec::new(alloc);
    push_shown(alloc, &mut text, kernel_at(state, place))?;
    push_met_at(alloc, &mut text, part, state, place)?;
    Ok(Bytes::new(text))
}

/// How many devices the chain has.
fn device_count(state: &State<'_>) -> usize
    ensures { result ≡ length (chain state.now.event) }
{
    state.event.event().device_count()
}

/// Each device of the chain, and what a match met at it.
fn device_reports(
    alloc: Global,
    part: &UpMatch,
    state: &State<'_>,
) -> Result<Vec<Bytes>, AllocError>
    ensures { IfOk result (λ texts. texts.items ≡ map (device_report part.now state.now) (places state.now)) }
{
    let mut texts = Vec::new(alloc);
    for place in 0..device_count(state) {
        texts.push(device_report(alloc, part, state, place)?)?;
    }
    Ok(texts)
}

/// A match of one device, and what it met.
#[tactic(auto, unfolding(crate::specs::Upward::up_report))]
fn up_report(alloc: Global, part: &UpMatch, state: &State<'_>) -> Result<Bytes, AllocError>
    ensures { IfOk result (λ text. text ≡ up_report part.now state.now) }
{
    let mut text = Vec::new(alloc);
    part.push_written(alloc, &mut text)?;
    text.extend_from_slice(b": ")?;
    push_joined(&mut text, &device_reports(alloc, part, state)?)?;
    Ok(Bytes::new(text))
}

/// How many of the matches hold at a place.
fn hits(parts: &[UpMatch], state: &State<'_>, place: usize) -> usize
    ensures { result ≡ hits parts.now state.now place }
{
    let mut count = 0;
    for part in parts {
        if holds_at(part, state, place) {
            count += 1;
        }
    }
    count
}

/// The device at a place, and how many of the matches it meets.
#[tactic(auto, unfolding(crate::specs::Upward::partial_report))]
fn partial_report(
    alloc: Global,
    parts: &[UpMatch],
    state: &State<'_>,
    place: usize,
) -> Result<Bytes, AllocError>
    ensures { IfOk result (λ text. text ≡ partial_report parts.now state.now place) }
{
    let mut text = Vec::new(alloc);
    push_shown(alloc, &mut text, kernel_at(state, place))?;
    text.extend_from_slice(b" meets ")?;
    text.extend_from_slice(Buffer::new().format(hits(parts, state, place)).as_bytes())?;
    text.extend_from_slice(b" of ")?;
    text.extend_from_slice(Buffer::new().format(parts.len()).as_bytes())?;
    Ok(Bytes::new(text))
}

/// Whether at least one of the matches holds at a place.
fn some_hold(parts: &[UpMatch], state: &State<'_>, place: usize) -> bool
    ensures { result ≡ list_any (holds_at state.now place) parts.now }
{
    for part in parts {
        if holds_at(part, state, place) {
            return true;
        }
    }
    false
}

/// The devices that meet some of the matches, from the farthest on.
fn partial_reports(
    alloc: Global,
    parts: &[UpMatch],
    state: &State<'_>,
) -> Result<Vec<Bytes>, AllocError>
    ensures { IfOk result (λ texts. texts.items ≡ map (partial_report parts.now state.now) (partly parts.now state.now)) }
{
    let mut texts = Vec::new(alloc);
    for place in (0..device_count(state)).rev() {
        if some_hold(parts, state, place) {
            texts.push(partial_report(alloc, parts, state, place)?)?;
        }
    }
    Ok(texts)
}

/// What the device that is found does: if the rule is skipped, it is not selected.
fn meets_all(idle: bool) -> &'static [u8]
    ensures { result.now ≡ meets_all idle }
{
    if idle {
        b" would meet all"
    } else {
        b" meets all"
    }
}

/// The outcome of the search, by whether the rule is skipped.
fn found_report(
    alloc: Global,
    idle: bool,
    parts: &[UpMatch],
    state: &State<'_>,
) -> Result<Bytes, AllocError>
    ensures { IfOk result (λ text. text ≡ found_report idle parts.now state.now (found_place parts.now state.now)) }
{
    let mut text = Vec::new(alloc);
    if let Some(place) = found_place(parts, state) {
        push_shown(alloc, &mut text, kernel_at(state, place))?;
        text.extend_from_slice(meets_all(idle))?;
        return Ok(Bytes::new(text));
    }
    text.extend_from_slice(b"no device meets ")?;
    let devices = partial_reports(alloc, parts, state)?;
    if devices.is_empty() {
        text.extend_from_slice(b"any")?;
        return Ok(Bytes::new(text));
    }
    text.extend_from_slice(b"all: ")?;
    push_joined(&mut text, &devices)?;
    Ok(Bytes::new(text))
}

/// Adds the texts of the search for one device, by whether the rule is skipped: each of its matches, and its outcome.
#[tactic(auto, unfolding(crate::specs::Upward::search_reports))]
pub(crate) fn report_search(
    alloc: Global,
    idle: bool,
    parts: &[UpMatch],
    state: &State<'_>,
    texts: &mut Vec<Bytes>,
) -> Result<(), AllocError>
    ensures { OnOk result (texts.new.items ≡ texts.old.items ++ search_reports idle parts.now state.now) }
{
    if parts.is_empty() {
        return Ok(());
    }
    for part in parts {
        texts.push(up_report(alloc, part, state)?)?;
    }
    texts.push(found_report(alloc, idle, parts, state)?)?;
    Ok(())
}
