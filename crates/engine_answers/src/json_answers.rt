//! The whole answer.
ghost use Rattle.std.specs.Prelude.{◌≡◌, ◌++◌, ◌∷◌, [], codes, IfOk, OnOk, option_map};
ghost use Rattle.json.specs.Tree.{json_tokens};
ghost use Rattle.text_json.specs.Listed.{member_tokens, value_tokens};
ghost use Rattle.text_json.specs.Told.{told};
ghost use Rattle.text_json.specs.Values.{array_of, object_of, value_line};
ghost use Rattle.eval_unread.specs.Others.{ask_others};
ghost use Rattle.eval_unread.specs.Unread.{whole_outcome};
ghost use Rattle.engine_answers.specs.JsonAnswers.{answer_members, json_answer, json_by, plain_object, sourced_object};
ghost use Rattle.engine_answers.specs.JsonInner.{runs_of, shape_of};
ghost use Rattle.engine_answers.specs.Members.{item_members, note_values, why_values};

use crate::json_items::write_items;
use crate::values::{write_notes, write_runs, write_sourced_runs, write_why};
use crate::whole_sources::evaluate_whole_sources;
use builtin_devices::Knowledge;
use device_core::{Event, lacks_event};
use eval_rules::{Commands, Outcome};
use eval_sources::{Sourced, SourcedCommand, Sources};
use eval_state::Notes;
use eval_unread::evaluate_whole;
use json::Writer;
use rule_types::{Rule, RuleSet};
use std::alloc::{AllocError, Global};
use text_bytes::Bytes;
use text_json::write_told;

/// Writes what comes before the commands: what happened to which device, and the items.
fn write_start(
    alloc: Global,
    writer: &mut Writer,
    sources: Option<&Sources<'_>>,
    event: &Event<'_>,
    outcome: &Outcome<'_>,
) -> Result<(), AllocError>
    ensures tokens { OnOk result (writer.new.tokens ≡ writer.old.tokens
        ++ member_tokens (((codes "event", told event.now.action) ∷ (codes "path", told event.now.device.path) ∷ [])
        ++ item_members (shape_of (option_map (λ s. s.now) sources.entry)) event.now.profile outcome.now)) }
    ensures before { OnOk result (writer.new.before ≡ writer.old.before) }
{
    write_told(alloc, writer, "event", event.action())?;
    write_told(alloc, writer, "path", event.device().path())?;
    write_items(alloc, writer, sources, event.profile(), outcome)?;
    Ok(())
}

/// The commands of an answer.
#[derive(Clone, Copy)]
enum Runs<'r, 'a> {
    /// Alone.
    Alone(&'r Commands),
    /// Each with the rule that added it.
    Sourced(&'r [SourcedCommand<'a>]),
}

/// Writes the commands one after another.
fn write_each_run(alloc: Global, writer: &mut Writer, runs: Runs<'_, '_>) -> Result<(), AllocError>
    ensures tokens { OnOk result (writer.new.tokens ≡ writer.old.tokens ++ value_tokens (runs_of runs.entry)) }
    ensures before { OnOk result (writer.new.before ≡ writer.old.before) }
{
    match runs {
        Runs::Alone(runs) => write_runs(alloc, writer, runs),
        Runs::Sourced(commands) => write_sourced_runs(alloc, writer, commands),
    }
}

/// Writes the member with the commands.
fn write_run_member(
    alloc: Global,
    writer: &mut Writer,
    runs: Runs<'_, '_>,
) -> Result<(), AllocError>
    ensures tokens { OnOk result (writer.new.tokens ≡ writer.old.tokens ++ member_tokens ((codes "run", array_of (runs_of runs.entry)) ∷ [])) }
    ensures before { OnOk result (writer.new.before ≡ writer.old.before) }
{
    writer.key("run")?;
    writer.begin_array()?;
    write_each_run(alloc, writer, runs)?;
    writer.end_array()?;
    Ok(())
}

/// Writes the member with the notes.
fn write_note_member(
    alloc: Global,
    writer: &mut Writer,
    event: &Event<'_>,
    notes: &Notes,
) -> Result<(), AllocError>
    ensures tokens { OnOk result (writer.new.tokens ≡ writer.old.tokens ++ member_tokens ((codes "notes", array_of (note_values event.now notes.now)) ∷ [])) }
    ensures before { OnOk result (writer.new.before ≡ writer.old.before) }
{
    writer.key("notes")?;
    writer.begin_array()?;
    write_notes(alloc, writer, event, notes)?;
    writer.end_array()?;
    Ok(())
}

/// Writes the member with the lines of `--why`.
fn write_why_member(alloc: Global, writer: &mut Writer, why: &[u8]) -> Result<(), AllocError>
    ensures tokens { OnOk result (writer.new.tokens ≡ writer.old.tokens ++ member_tokens ((codes "why", array_of (why_values why.now)) ∷ [])) }
    ensures before { OnOk result (writer.new.before ≡ writer.old.before) }
{
    writer.key("why")?;
    writer.begin_array()?;
    write_why(alloc, writer, why)?;
    writer.end_array()?;
    Ok(())
}

/// Writes the object of an event with its outcome, with `sources` each value with the rule that it comes from.
fn write_object(
    alloc: Global,
    writer: &mut Writer,
    sources: Option<&Sources<'_>>,
    runs: Runs<'_, '_>,
    why: &[u8],
    event: &Event<'_>,
    outcome: &Outcome<'_>,
) -> Result<(), AllocError>
    ensures tokens { OnOk result (writer.new.tokens ≡ writer.old.tokens ++ json_tokens (object_of (answer_members
        (shape_of (option_map (λ s. s.now) sources.entry)) (runs_of runs.entry) why.now event.now outcome.now))) }
    ensures before { OnOk result (writer.new.before ≡ writer.old.before) }
{
    writer.begin_object()?;
    write_start(alloc, writer, sources, event, outcome)?;
    write_run_member(alloc, writer, runs)?;
    write_note_member(alloc, writer, event, &outcome.notes)?;
    write_why_member(alloc, writer, why)?;
    writer.end_object()?;
    Ok(())
}

/// The line with that object.
#[tactic(auto, unfolding(text_json::specs::Values::value_line))]
fn object_line(
    alloc: Global,
    sources: Option<&Sources<'_>>,
    runs: Runs<'_, '_>,
    why: &[u8],
    event: &Event<'_>,
    outcome: &Outcome<'_>,
) -> Result<Vec<u8>, AllocError>
    ensures { IfOk result (λ text. text.items ≡ value_line (object_of (answer_members
        (shape_of (option_map (λ s. s.now) sources.entry)) (runs_of runs.entry) why.now event.now outcome.now))) }
{
    let mut writer = Writer::new(Vec::new(alloc));
    write_object(alloc, &mut writer, sources, runs, why, event, outcome)?;
    let mut text = writer.into_inner();
    text.push(b'\n')?;
    Ok(text)
}

/// The line of an event by the rules as they are read, each value with where it comes from.
fn sourced_answer<'a, K: Knowledge>(
    alloc: Global,
    asks: bool,
    why: &[u8],
    rules: &'a [Rule],
    event: &'a Event<'_>,
    knowledge: &K,
) -> Result<Vec<u8>, AllocError>
    requires { asks ≡ ask_others rules.now }
    ensures { IfOk result (λ text. text.items ≡ value_line (sourced_object why.now rules.now (K.known knowledge.now) event.now)) }
{
    let found = evaluate_whole_sources(alloc, asks, rules, event, knowledge)?;
    let sources = Some(&found.sources);
    let runs = Runs::Sourced(&found.commands);
    let said = object_line(alloc, sources, runs, why, event, &found.outcome);
    drop(found);
    said
}

/// The line of an event by the rules as they are read.
fn plain_answer<K: Knowledge>(
    alloc: Global,
    asks: bool,
    why: &[u8],
    rules: &RuleSet,
    event: &Event<'_>,
    knowledge: &K,
) -> Result<Vec<u8>, AllocError>
    requires { asks ≡ ask_others rules.now }
    ensures { IfOk result (λ text. text.items ≡ value_line (plain_object why.now event.now (whole_outcome rules.now (K.known knowledge.now) event.now))) }
{
    let outcome = evaluate_whole(alloc, asks, rules, event, knowledge)?;
    let runs = Runs::Alone(&outcome.runs);
    let said = object_line(alloc, None, runs, why, event, &outcome);
    drop(outcome);
    said
}

/// The answer to an event at which all rules are tried.
fn json_by<K: Knowledge>(
    alloc: Global,
    sources: bool,
    asks: bool,
    why: &[u8],
    rules: &RuleSet,
    event: &Event<'_>,
    knowledge: &K,
) -> Result<Bytes, AllocError>
    requires { asks ≡ ask_others rules.now }
    ensures { IfOk result (λ text. text ≡ json_by sources why.now rules.now (K.known knowledge.now) event.now) }
{
    if sources {
        let text = sourced_answer(alloc, asks, why, rules.rules(), event, knowledge)?;
        Ok(Bytes::new(text))
    } else {
        let text = plain_answer(alloc, asks, why, rules, event, knowledge)?;
        Ok(Bytes::new(text))
    }
}

/// The answer to an event by the rules as they are read, as an object of JSON on one line. Its members are `event`, `path`,
/// `name`, `owner`, `group`, `mode`, `priority`, `watch`, `persist`, `labels`, `links`, `tags`, `env`, `attr`, `sysctl`,
/// `run`, `notes` and `why`, in this order; up to `persist` only those that were assigned, and the others always. `why` are
/// the lines of `--why`. With `sources` each value of an item and each command is the member `value` of an object that has
/// the `file` and the `line` of its rule, if it comes from one. `asks` says whether the rules ask for attributes of other
/// devices, as `eval_unread::ask_others` has it.
pub fn json_answer<K: Knowledge>(
    alloc: Global,
    sources: bool,
    asks: bool,
    why: &[u8],
    rules: &RuleSet,
    event: &Event<'_>,
    knowledge: &K,
) -> Result<Bytes, AllocError>
    requires { asks ≡ ask_others rules.now }
    ensures { IfOk result (λ text. text ≡ json_answer sources why.now rules.now (K.known knowledge.now) event.now) }
{
    if lacks_event(event) {
        let none = RuleSet::new(Vec::new(alloc));
        json_by(alloc, sources, false, why, &none, event, knowledge)
    } else {
        json_by(alloc, sources, asks, why, rules, event, knowledge)
    }
}
