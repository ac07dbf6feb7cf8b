//! The whole answer.
ghost use Rattle.std.specs.Prelude.{◌≡◌, ◌++◌, flat_map, None, IfOk, OnOk};
ghost use Rattle.engine_answers.specs.Answers.{answer, answer_lines, command_lines, lines_after, lines_by, lines_with, source_part, sourced_lines};
ghost use Rattle.engine_answers.specs.Lines.{block_note_line, block_note_lines, note_lines, run_line};
ghost use Rattle.eval_sources.specs.Sources.{source_in};
ghost use Rattle.eval_unread.specs.Others.{ask_others};

use crate::front::push_source;
use crate::items::push_items;
use crate::lines::{push_block_note, push_note, push_run};
use crate::whole_sources::evaluate_whole_sources;
use builtin_devices::Knowledge;
use device_core::{BlockNote, Event, block_notes, lacks_event};
use engine_sessions::push_event;
use eval_rules::{Commands, Outcome};
use eval_sources::{Sourced, SourcedCommand};
use eval_state::Notes;
use rule_types::Rule;
use std::alloc::{AllocError, Global};
use text_bytes::Bytes;

/// How many bytes most answers have at most: the room that each begins with.
const USUAL_LEN: usize = 1024;

/// The lines of the answer to an event: one for each part of its outcome that has something to say.
///
/// The lines are `event ACTION PATH`, `name`, `owner`, `group`, `mode`, `priority`, `watch` or
/// `nowatch`, `persist`, `label MODULE=..`, `link`, `tag`, `env KEY=..`, `attr NAME=..`, `sysctl
/// NAME=..`, `run TYPE ..`, `note -: TEXT: WORD` about the block, and `note FILE:LINE: TEXT: WORD`, in this
/// order, as udev(7) names these things. Properties whose names begin with a dot are left out.
#[tactic(auto, unfolding(crate::specs::Answers::lines_with))]
pub fn answer_lines(
    alloc: Global,
    event: &Event<'_>,
    outcome: &Outcome<'_>,
) -> Result<Vec<u8>, AllocError>
    ensures { IfOk result (λ lines. lines.items ≡ answer_lines event.now outcome.now) }
{
    let mut lines = Vec::with_capacity(alloc, USUAL_LEN)?;
    push_event(alloc, &mut lines, event.action(), event.device().path())?;
    push_items(alloc, &mut lines, None, event.profile(), outcome)?;
    push_runs(alloc, &mut lines, &outcome.runs)?;
    push_block_notes(alloc, &mut lines, event)?;
    push_notes(alloc, &mut lines, &outcome.notes)?;
    Ok(lines)
}

/// The answer to an event: the lines of `answer_lines`, and an empty line after them.
pub fn answer(alloc: Global, event: &Event<'_>, outcome: &Outcome<'_>) -> Result<Bytes, AllocError>
    ensures { IfOk result (λ text. text ≡ answer event.now outcome.now) }
{
    let mut lines = answer_lines(alloc, event, outcome)?;
    lines.push(b'\n')?;
    Ok(Bytes::new(lines))
}

/// The lines of the answer to an event by the rules as they are read, each after the place of the rule that it comes
/// from: `FILE:LINE: `, or `-: ` if what it is about is in the block or is set when the event starts. The first line
/// and those of notes stay as they are. `asks` says whether the rules ask for attributes of other devices, as
/// `eval_unread::ask_others` has it.
pub fn sourced_lines<K: Knowledge>(
    alloc: Global,
    asks: bool,
    rules: &[Rule],
    event: &Event<'_>,
    knowledge: &K,
) -> Result<Vec<u8>, AllocError>
    requires { asks ≡ ask_others rules.now }
    ensures { IfOk result (λ lines. lines.items ≡ sourced_lines rules.now (K.known knowledge.now) event.now) }
{
    if lacks_event(event) {
        lines_for(alloc, false, &[], event, knowledge)
    } else {
        lines_for(alloc, asks, rules, event, knowledge)
    }
}

/// The same by rules that are all tried; rules and event are borrowed for the same lifetime.
fn lines_for<'a, K: Knowledge>(
    alloc: Global,
    asks: bool,
    rules: &'a [Rule],
    event: &'a Event<'_>,
    knowledge: &K,
) -> Result<Vec<u8>, AllocError>
    requires { asks ≡ ask_others rules.now }
    ensures { IfOk result (λ lines. lines.items ≡ lines_by source_part rules.now (K.known knowledge.now) event.now) }
{
    let found = evaluate_whole_sources(alloc, asks, rules, event, knowledge)?;
    let said = lines_of(alloc, event, &found);
    drop(found);
    said
}

/// The lines of the outcome of an event, each after where it comes from.
#[tactic(auto, unfolding(crate::specs::Answers::lines_with))]
fn lines_of(alloc: Global, event: &Event<'_>, found: &Sourced<'_>) -> Result<Vec<u8>, AllocError>
    ensures { IfOk result (λ lines. lines.items ≡ lines_with (λ item. source_part (source_in found.now.sources None item))
        (lines_after source_part (command_lines found.now.commands.items)) event.now found.now.outcome) }
{
    let mut lines = Vec::new(alloc);
    let outcome = &found.outcome;
    push_event(alloc, &mut lines, event.action(), event.device().path())?;
    push_items(
        alloc,
        &mut lines,
        Some(&found.sources),
        event.profile(),
        outcome,
    )?;
    push_sourced_runs(alloc, &mut lines, &found.commands)?;
    push_block_notes(alloc, &mut lines, event)?;
    push_notes(alloc, &mut lines, &outcome.notes)?;
    Ok(lines)
}

/// Adds the lines of commands.
fn push_runs(alloc: Global, lines: &mut Vec<u8>, runs: &Commands) -> Result<(), AllocError>
    ensures { OnOk result (lines.new.items ≡ lines.old.items ++ flat_map run_line runs.now) }
{
    for command in runs.as_slice() {
        push_run(alloc, lines, command)?;
    }
    Ok(())
}

/// Adds the lines of commands, each after the rule that added it.
fn push_sourced_runs(
    alloc: Global,
    lines: &mut Vec<u8>,
    commands: &[SourcedCommand<'_>],
) -> Result<(), AllocError>
    ensures { OnOk result (lines.new.items ≡ lines.old.items ++ lines_after source_part (command_lines commands.now)) }
{
    for found in commands {
        push_source(alloc, lines, Some(found.rule()))?;
        push_run(alloc, lines, found.command())?;
    }
    Ok(())
}

/// Adds the lines of these notes about a block.
fn push_each_block_note(
    alloc: Global,
    lines: &mut Vec<u8>,
    notes: &[BlockNote],
) -> Result<(), AllocError>
    ensures { OnOk result (lines.new.items ≡ lines.old.items ++ flat_map block_note_line notes.now) }
{
    for note in notes {
        push_block_note(alloc, lines, note)?;
    }
    Ok(())
}

/// Adds the lines of the notes about the block of an event.
fn push_block_notes(alloc: Global, lines: &mut Vec<u8>, event: &Event<'_>) -> Result<(), AllocError>
    ensures { OnOk result (lines.new.items ≡ lines.old.items ++ block_note_lines event.now) }
{
    let notes = block_notes(alloc, event)?;
    push_each_block_note(alloc, lines, &notes)
}

/// Adds the lines of notes.
fn push_notes(alloc: Global, lines: &mut Vec<u8>, notes: &Notes) -> Result<(), AllocError>
    ensures { OnOk result (lines.new.items ≡ lines.old.items ++ note_lines notes.now) }
{
    for note in notes.as_slice() {
        push_note(alloc, lines, note)?;
    }
    Ok(())
}
