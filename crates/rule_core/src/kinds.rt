//! The parts of a rule by what they are for.
ghost use Rattle.std.specs.Prelude.{◌≡◌, IfOk, OnOk};
ghost use Rattle.rule_core.specs.Taking.{sorted_rule, with_kind};
ghost use Rattle.rule_types.specs.Tokens.{parts_in};

use crate::messages::Place;
use crate::turns::{sort_acts, sort_assignments};
use rule_types::{Part, Rule, WrittenPart};
use std::alloc::{AllocError, Global};
use text_bytes::{Bytes, Profile};

/// The rule of these names and these parts: those that act and those that assign in the order of evaluation, all
/// others as they are written.
#[tactic(auto, using(crate::proofs::Taking::one_more_part))]
pub(crate) fn rule_of(
    alloc: Global,
    profile: Profile,
    place: Place<'_>,
    label: Option<Bytes>,
    goto: Option<Bytes>,
    parts: Vec<WrittenPart<'_>>,
) -> Result<Rule, AllocError>
    ensures { IfOk result (λ r. r ≡ sorted_rule profile place.entry.file.now place.entry.line label goto (parts_in parts.entry.items)) }
{
    let mut rule = Rule {
        file: Bytes::copy_of(alloc, place.file)?,
        line: place.line,
        label,
        goto,
        plain: Vec::new(alloc),
        up: Vec::new(alloc),
        acts: Vec::new(alloc),
        results: Vec::new(alloc),
        sets: Vec::new(alloc),
    };
    for written in parts {
        add_part(&mut rule, written.part)?;
    }
    sort_acts(&mut rule.acts)?;
    sort_assignments(profile, &mut rule.sets)?;
    Ok(rule)
}

/// Adds one more part. LABEL and GOTO are not among the parts of a rule.
fn add_part(rule: &mut Rule, part: Part) -> Result<(), AllocError>
    ensures { OnOk result (rule.new ≡ with_kind rule.old part) }
{
    match part {
        Part::Plain(wanted) => rule.plain.push(wanted)?,
        Part::Up(wanted) => rule.up.push(wanted)?,
        Part::Act(act) => rule.acts.push(act)?,
        Part::Result(wanted) => rule.results.push(wanted)?,
        Part::Set(assignment) => rule.sets.push(assignment)?,
        Part::Label(_name) | Part::Goto(_name) => {}
    }
    Ok(())
}
