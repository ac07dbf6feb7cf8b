//! What acts, and what it met.
//!
//! What an act looks at is rendered before it is done, and what it sets is known after it: what is reported of it is
//! made in two parts.
ghost use Rattle.std.specs.Prelude.{◌≡◌, ◌∷◌, ◌++◌, [], Bool, IfOk, OnOk, List};
ghost use Rattle.text_tables.specs.Pairs.{Pair};
ghost use Rattle.eval_acts.specs.Acts.{act_step};
ghost use Rattle.eval_courses.specs.Acts.{act_asked, act_kind_report, act_report, asked_report};
ghost use Rattle.eval_courses.specs.Inner.{done_report, report_after};
ghost use Rattle.eval_courses.specs.Keys.{act_key};
ghost use Rattle.eval_courses.specs.Looks.{met};

use crate::answers::{answer_report, answer_to};
use crate::imports::{import_asked, import_report_before};
use crate::keys::Written;
use crate::plain::push_met;
use crate::properties::push_taken;
use builtin_devices::Knowledge;
use eval_acts::{act_step, program_text, test_text};
use eval_effects::push_shown;
use eval_rendering::Rendered;
use eval_state::{Scene, State};
use rule_types::{Act, ActKind, Rule};
use std::alloc::{AllocError, Global};
use text_bytes::Bytes;
use text_tables::CowPairs;

/// What is known of the report on an act before it is done.
#[derive(Drop)]
pub(crate) enum ReportBefore {
    /// All of the report.
    Whole(Bytes),
    /// The start of the report, and the properties before the act: after that start come those that the act removes
    /// and sets.
    Taking(Bytes, CowPairs<'static>),
    /// The properties before the act: unless it leaves a note, what it removes and sets.
    Importing(CowPairs<'static>),
    /// The path of a TEST: if that leaves a note, it is not made.
    Testing(Bytes),
}

/// The text that an act looks at.
fn act_asked(
    alloc: Global,
    act_kind: &ActKind,
    state: &mut State<'_>,
) -> Result<Rendered, AllocError>
    ensures text { IfOk result (λ text. text ≡ act_asked act_kind.now state.old) }
    ensures kept { state.new ≡ state.old }
{
    match act_kind {
        ActKind::Test(_, template) => test_text(alloc, template, state),
        ActKind::Program(template) => program_text(alloc, template, state),
        ActKind::Import(from) => import_asked(alloc, from, state),
    }
}

/// What is known of the report on an act of a text before it is done.
fn asked_report_before(
    alloc: Global,
    act_kind: &ActKind,
    text: &[u8],
    state: &State<'_>,
) -> Result<ReportBefore, AllocError>
    ensures { IfOk result (λ o. (noted : Bool) (env : List Pair)
        → report_after o noted env ≡ asked_report act_kind.now state.now noted env text.now) }
{
    match act_kind {
        ActKind::Test(_, _) => {
            let mut path = Vec::new(alloc);
            push_shown(alloc, &mut path, text)?;
            Ok(ReportBefore::Testing(Bytes::new(path)))
        }
        ActKind::Program(_) => Ok(ReportBefore::Whole(Bytes::new(answer_report(
            alloc,
            text,
            answer_to(state, text),
        )?))),
        ActKind::Import(from) => import_report_before(alloc, from, text, state),
    }
}

/// What is known of the report on an act before it is done.
fn report_before(
    alloc: Global,
    act_kind: &ActKind,
    state: &mut State<'_>,
) -> Result<ReportBefore, AllocError>
    ensures reported { IfOk result (λ o. (noted : Bool) (env : List Pair) → report_after o noted env ≡ act_kind_report act_kind.now state.old noted env) }
    ensures kept { state.new ≡ state.old }
{
    match act_asked(alloc, act_kind, state)? {
        Rendered::Text(text) => asked_report_before(alloc, act_kind, text.as_slice(), state),
        Rendered::TooLong => Ok(ReportBefore::Whole(Bytes::copy_of(alloc, b"too long")?)),
    }
}

/// Appends the report on an act that was done to a text.
fn push_after(
    alloc: Global,
    text: &mut Vec<u8>,
    before: &ReportBefore,
    noted: bool,
    env: &CowPairs<'_>,
) -> Result<(), AllocError>
    ensures { OnOk result (text.new.items ≡ text.old.items ++ report_after before.now noted env.now) }
{
    match before {
        ReportBefore::Whole(reported) => text.extend_from_slice(reported.as_slice()),
        ReportBefore::Taking(reported, properties) => {
            text.extend_from_slice(reported.as_slice())?;
            push_taken(alloc, text, properties, env)
        }
        ReportBefore::Importing(_) if noted => text.extend_from_slice(b"not run"),
        ReportBefore::Importing(properties) => push_taken(alloc, text, properties, env),
        ReportBefore::Testing(path) => {
            if noted {
                text.extend_from_slice(b"not made: ")?;
            }
            text.extend_from_slice(path.as_slice())
        }
    }
}

/// An act that was done, whether its rule goes on, and what it met.
fn act_met(
    alloc: Global,
    act: &Act,
    proceeds: bool,
    before: &ReportBefore,
    noted: bool,
    env: &CowPairs<'_>,
) -> Result<Bytes, AllocError>
    ensures { IfOk result (λ text. text ≡ act_key act.now ++ met proceeds ++ report_after before.now noted env.now) }
{
    let mut text = Vec::new(alloc);
    act.push_written(alloc, &mut text)?;
    push_met(&mut text, proceeds)?;
    push_after(alloc, &mut text, before, noted, env)?;
    Ok(Bytes::new(text))
}

/// Does what an act asks for, and adds what it met to the texts, by what was known before.
#[tactic(auto, using(eval_rules::proofs::Staying::act_stays, crate::proofs::Reporting::done_is))]
fn report_done<K: Knowledge>(
    alloc: Global,
    rule: &Rule,
    act: &Act,
    before: &ReportBefore,
    knowledge: &K,
    scene: &mut Scene<'_>,
    texts: &mut Vec<Bytes>,
) -> Result<bool, AllocError>
    ensures scene { IfOk result (λ on. (scene.new, on) ≡ act_step (K.known knowledge.now) rule.now act.now scene.old) }
    ensures text { OnOk result (texts.new.items ≡ texts.old.items
        ++ done_report act.now before.now scene.old (act_step (K.known knowledge.now) rule.now act.now scene.old) ∷ []) }
    ensures event { scene.new.state.event ≡ scene.old.state.event }
{
    let count = scene.notes.as_slice().len();
    let proceeds = act_step(alloc, rule, act, knowledge, scene)?;
    let noted = scene.notes.as_slice().len() != count;
    texts.push(act_met(alloc, act, proceeds, before, noted, &scene.state.env)?)?;
    Ok(proceeds)
}

/// Does what an act asks for, as `act_step` does, adds whether the rule goes on, what was asked and what was set to the
/// texts, and returns whether the rule goes on.
pub fn report_act<K: Knowledge>(
    alloc: Global,
    rule: &Rule,
    act: &Act,
    knowledge: &K,
    scene: &mut Scene<'_>,
    texts: &mut Vec<Bytes>,
) -> Result<bool, AllocError>
    ensures scene { IfOk result (λ on. (scene.new, on) ≡ act_step (K.known knowledge.now) rule.now act.now scene.old) }
    ensures text { OnOk result (texts.new.items ≡ texts.old.items ++ act_report (K.known knowledge.now) rule.now act.now scene.old ∷ []) }
    ensures event { scene.new.state.event ≡ scene.old.state.event }
{
    let before = report_before(alloc, &act.kind, &mut scene.state)?;
    let proceeds = report_done(alloc, rule, act, &before, knowledge, scene, texts);
    drop(before);
    proceeds
}
