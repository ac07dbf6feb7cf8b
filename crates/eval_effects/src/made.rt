//! RUNs that udev made at their rules: those that are no longer there, and those that came.
ghost use Rattle.std.specs.Prelude.{◌≡◌, ◌≤◌, ◌++◌, length, map, OnOk};
ghost use Rattle.eval_effects.specs.Changes.{made_changes, made_run, same_made, stayed};

use crate::runs::run_report;
use eval_state::MadeRun;
use std::alloc::{AllocError, Global};
use text_bytes::Bytes;

/// Whether two RUNs are the same: of the same type, as written and as rendered.
fn same_made(one: &MadeRun<'_>, other: &MadeRun<'_>) -> bool
    ensures { result ≡ same_made one.now other.now }
{
    one.run == other.run && one.text.as_slice() == other.text.as_slice()
}

/// How many RUNs stayed: as many as both lists begin with.
fn stayed(was: &[MadeRun<'_>], now: &[MadeRun<'_>]) -> usize
    ensures value { result ≡ stayed was.now now.now }
    ensures was { result ≤ length was.now }
    ensures now { result ≤ length now.now }
{
    was.iter()
        .zip(now)
        .take_while(|pair| same_made(pair.0, pair.1))
        .count()
}

/// Adds the texts of RUNs and what became of them.
fn push_each(
    alloc: Global,
    reported: &mut Vec<Bytes>,
    became: &[u8],
    runs: &[MadeRun<'_>],
) -> Result<(), AllocError>
    ensures { OnOk result (reported.new.items ≡ reported.old.items ++ map (made_run became.now) runs.now) }
{
    for made in runs {
        reported.push(run_report(alloc, &made.run, became)?)?;
    }
    Ok(())
}

/// Adds the texts of what changed in RUNs that udev made, first those that are no longer there: one
/// by one, unless none is there now.
pub(crate) fn push_made_changes(
    alloc: Global,
    reported: &mut Vec<Bytes>,
    was: &[MadeRun<'_>],
    now: &[MadeRun<'_>],
) -> Result<(), AllocError>
    ensures { OnOk result (reported.new.items ≡ reported.old.items ++ made_changes was.now now.now) }
{
    if now.is_empty() {
        if !was.is_empty() {
            reported.push(Bytes::copy_of(alloc, b"all runs removed")?)?;
        }
        return Ok(());
    }
    let count = stayed(was, now);
    push_each(alloc, reported, b" removed", was.split_at(count).1)?;
    push_each(alloc, reported, b" added", now.split_at(count).1)
}
