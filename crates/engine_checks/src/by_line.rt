//! Diagnostics that are merged with others by the lines with which they are reported.
ghost use Rattle.std.specs.Prelude.{◌≡◌, ◌++◌, IfOk, OnOk, map};
ghost use Rattle.std.specs.Option.{MatchOption};
ghost use Rattle.engine_formats.specs.Diagnostics.{shown};
ghost use Rattle.rule_remarks.specs.ByLine.{before, from_line};
ghost use Rattle.engine_checks.specs.Reported.{merged};
ghost use Rattle.engine_checks.specs.Steps.{LeavesAll, LeavesRest};

use engine_formats::Diagnostic;
use std::alloc::{AllocError, Global};
use std::collections::VecDeque;

/// Diagnostics with others merged in by line: each of the others comes after all diagnostics for its line or for one before it.
pub(crate) fn merged<'r>(
    alloc: Global,
    found: Vec<Diagnostic<'r>>,
    others: Vec<Diagnostic<'r>>,
) -> Result<Vec<Diagnostic<'r>>, AllocError>
    ensures { IfOk result (λ all. map shown all.items ≡ merged (map shown found.entry.items) (map shown others.entry.items)) }
{
    if others.is_empty() {
        Ok(found)
    } else {
        by_line(alloc, found, others)
    }
}

/// The same if there are others.
fn by_line<'r>(
    alloc: Global,
    found: Vec<Diagnostic<'r>>,
    others: Vec<Diagnostic<'r>>,
) -> Result<Vec<Diagnostic<'r>>, AllocError>
    ensures { IfOk result (λ all. map shown all.items ≡ merged (map shown found.entry.items) (map shown others.entry.items)) }
{
    let mut all = Vec::new(alloc);
    let mut rest = VecDeque::from(others);
    for diagnostic in found {
        move_before(&mut all, &mut rest, diagnostic.begins)?;
        all.push(diagnostic)?;
    }
    for other in rest {
        all.push(other)?;
    }
    Ok(all)
}

/// Moves the diagnostics at the front that are reported for lines before one, so that they follow others.
#[tactic(auto, using(crate::proofs::ByLines::one_moved, crate::proofs::ByLines::one_passed, crate::proofs::ByLines::none_passed))]
fn move_before<'r>(
    all: &mut Vec<Diagnostic<'r>>,
    rest: &mut VecDeque<Diagnostic<'r>>,
    line: u32,
) -> Result<(), AllocError>
    ensures moved { OnOk result (all.new.items ≡ all.old.items ++ before (λ d. d.begins) rest.old.items line) }
    ensures left { OnOk result (rest.new.items ≡ from_line (λ d. d.begins) rest.old.items line) }
{
    while let Some(other) = next_before(rest, line) {
        all.push(other)?;
    }
    Ok(())
}

/// Takes the first of diagnostics, if it is reported for a line before one.
#[tactic(auto, using(crate::proofs::ByLines::none_before))]
fn next_before<'r>(rest: &mut VecDeque<Diagnostic<'r>>, line: u32) -> Option<Diagnostic<'r>>
    ensures { MatchOption result (LeavesAll (λ d. d.begins) rest.old.items line rest.new.items)
        (λ f. LeavesRest (λ d. d.begins) rest.old.items line f rest.new.items) }
{
    match rest.front() {
        Some(first) if first.begins < line => rest.pop_front(),
        _ => None,
    }
}
