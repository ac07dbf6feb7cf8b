//! RUNs that are no longer there, and those that are there only now.
//!
//! Most assignments leave what was there, so the RUNs that both lists begin with are passed over without a search.
ghost use Rattle.std.specs.Prelude.{◌≡◌, ◌≤◌, ◌++◌, IfOk, OnOk, flat_map, length};
ghost use Rattle.eval_effects.specs.Inner.{missing_run, same_front};
ghost use Rattle.eval_effects.specs.Changes.{run_changes, run_text};

use crate::shown::push_shown;
use eval_state::Run;
use std::alloc::{AllocError, Global};
use text_bytes::Bytes;

/// How many RUNs are the same, one by one, from the first on.
fn same_front(front: &[Run<'_>], runs: &[Run<'_>]) -> usize
    ensures value { result ≡ same_front front.now runs.now }
    ensures within { result ≤ length runs.now }
{
    front
        .iter()
        .zip(runs)
        .take_while(|pair| pair.0 == pair.1)
        .count()
}

/// The text of a RUN, by its type and its written text, and what became of it.
#[tactic(auto, unfolding(crate::specs::Changes::run_text))]
pub(crate) fn run_report(alloc: Global, run: &Run<'_>, became: &[u8]) -> Result<Bytes, AllocError>
    ensures { IfOk result (λ text. text ≡ run_text run.now ++ became.now) }
{
    let mut text = Vec::from_slice(alloc, b"run ")?;
    text.extend_from_slice(run.kind().name())?;
    text.push(b' ')?;
    push_shown(alloc, &mut text, run.template().written())?;
    text.extend_from_slice(became)?;
    Ok(Bytes::new(text))
}

/// Adds the texts of the RUNs that are not among others, and what became of them.
fn push_missing(
    alloc: Global,
    reported: &mut Vec<Bytes>,
    became: &[u8],
    others: &[Run<'_>],
    runs: &[Run<'_>],
) -> Result<(), AllocError>
    ensures { OnOk result (reported.new.items ≡ reported.old.items ++ flat_map (missing_run became.now others.now) runs.now) }
{
    for run in runs {
        if !others.contains(run) {
            reported.push(run_report(alloc, run, became)?)?;
        }
    }
    Ok(())
}

/// Adds the texts of what changed in RUNs, first those that are no longer there: one by one, unless
/// none is there now.
pub(crate) fn push_run_changes(
    alloc: Global,
    reported: &mut Vec<Bytes>,
    was: &[Run<'_>],
    now: &[Run<'_>],
) -> Result<(), AllocError>
    ensures { OnOk result (reported.new.items ≡ reported.old.items ++ run_changes was.now now.now) }
{
    if now.is_empty() {
        if !was.is_empty() {
            reported.push(Bytes::copy_of(alloc, b"all runs removed")?)?;
        }
        return Ok(());
    }
    let left = was.split_at(same_front(now, was)).1;
    push_missing(alloc, reported, b" removed", now, left)?;
    let come = now.split_at(same_front(was, now)).1;
    push_missing(alloc, reported, b" added", was, come)
}
