//! Values that are objects of their own: labels, commands and notes.
ghost use Rattle.std.specs.Prelude.{◌≡◌, ◌++◌, Some, OnOk, drop, map};
ghost use Rattle.json.specs.Tree.{json_tokens};
ghost use Rattle.text_bytes.specs.Lines.{lines};
ghost use Rattle.text_json.specs.Listed.{value_tokens};
ghost use Rattle.device_core.specs.Notes.{block_notes};
ghost use Rattle.engine_answers.specs.Members.{block_note_value, label_value, note_value, note_values, run_value, sourced, sourced_runs, why_values};

use crate::shape::write_source;
use device_core::{BlockNote, Event, block_notes};
use eval_rules::{Command, Commands};
use eval_sources::SourcedCommand;
use eval_state::{Label, Note, Notes};
use json::Writer;
use std::alloc::{AllocError, Global};
use text_bytes::first_line;
use text_json::{write_number, write_told, write_told_value};

/// Writes the label of a module.
#[tactic(auto, unfolding(crate::specs::Members::label_value))]
pub(crate) fn write_label_value(
    alloc: Global,
    writer: &mut Writer,
    label: &Label,
) -> Result<(), AllocError>
    ensures tokens { OnOk result (writer.new.tokens ≡ writer.old.tokens ++ json_tokens (label_value label.now)) }
    ensures before { OnOk result (writer.new.before ≡ writer.old.before) }
{
    writer.begin_object()?;
    write_told(alloc, writer, "module", label.name())?;
    write_told(alloc, writer, "label", label.text())?;
    writer.end_object()?;
    Ok(())
}

/// Writes a command.
#[tactic(auto, unfolding(crate::specs::Members::run_value))]
fn write_run(alloc: Global, writer: &mut Writer, command: &Command) -> Result<(), AllocError>
    ensures tokens { OnOk result (writer.new.tokens ≡ writer.old.tokens ++ json_tokens (run_value command.now)) }
    ensures before { OnOk result (writer.new.before ≡ writer.old.before) }
{
    writer.begin_object()?;
    write_told(alloc, writer, "type", command.kind.name())?;
    write_told(alloc, writer, "command", command.text.as_slice())?;
    writer.end_object()?;
    Ok(())
}

/// Writes commands.
pub(crate) fn write_runs(
    alloc: Global,
    writer: &mut Writer,
    runs: &Commands,
) -> Result<(), AllocError>
    ensures tokens { OnOk result (writer.new.tokens ≡ writer.old.tokens ++ value_tokens (map run_value runs.now)) }
    ensures before { OnOk result (writer.new.before ≡ writer.old.before) }
{
    for command in runs.as_slice() {
        write_run(alloc, writer, command)?;
    }
    Ok(())
}

/// Writes a command with the rule that added it.
#[tactic(auto, unfolding(crate::specs::Members::sourced))]
fn write_sourced_run(
    alloc: Global,
    writer: &mut Writer,
    found: &SourcedCommand<'_>,
) -> Result<(), AllocError>
    ensures tokens { OnOk result (writer.new.tokens ≡ writer.old.tokens ++ json_tokens (sourced (Some found.now.1) (run_value found.now.0))) }
    ensures before { OnOk result (writer.new.before ≡ writer.old.before) }
{
    writer.begin_object()?;
    writer.key("value")?;
    write_run(alloc, writer, found.command())?;
    write_source(alloc, writer, Some(found.rule()))
}

/// Writes commands, each with the rule that added it.
pub(crate) fn write_sourced_runs(
    alloc: Global,
    writer: &mut Writer,
    commands: &[SourcedCommand<'_>],
) -> Result<(), AllocError>
    ensures tokens { OnOk result (writer.new.tokens ≡ writer.old.tokens ++ value_tokens (sourced_runs commands.now)) }
    ensures before { OnOk result (writer.new.before ≡ writer.old.before) }
{
    for found in commands {
        write_sourced_run(alloc, writer, found)?;
    }
    Ok(())
}

/// Writes a note.
#[tactic(auto, unfolding(crate::specs::Members::note_value))]
fn write_note(alloc: Global, writer: &mut Writer, note: &Note) -> Result<(), AllocError>
    ensures tokens { OnOk result (writer.new.tokens ≡ writer.old.tokens ++ json_tokens (note_value note.now)) }
    ensures before { OnOk result (writer.new.before ≡ writer.old.before) }
{
    writer.begin_object()?;
    write_told(alloc, writer, "file", note.file.as_slice())?;
    write_number(writer, "line", note.line)?;
    write_told(alloc, writer, "text", note.kind.text())?;
    write_told(alloc, writer, "word", note.word.as_slice())?;
    writer.end_object()?;
    Ok(())
}

/// Writes a note about the block.
#[tactic(auto, unfolding(crate::specs::Members::block_note_value))]
fn write_block_note(alloc: Global, writer: &mut Writer, note: &BlockNote) -> Result<(), AllocError>
    ensures tokens { OnOk result (writer.new.tokens ≡ writer.old.tokens ++ json_tokens (block_note_value note.now)) }
    ensures before { OnOk result (writer.new.before ≡ writer.old.before) }
{
    writer.begin_object()?;
    write_told(alloc, writer, "text", note.kind.text())?;
    write_told(alloc, writer, "word", note.word.as_slice())?;
    writer.end_object()?;
    Ok(())
}

/// Writes these notes about a block.
fn write_each_block_note(
    alloc: Global,
    writer: &mut Writer,
    notes: &[BlockNote],
) -> Result<(), AllocError>
    ensures tokens { OnOk result (writer.new.tokens ≡ writer.old.tokens ++ value_tokens (map block_note_value notes.now)) }
    ensures before { OnOk result (writer.new.before ≡ writer.old.before) }
{
    for note in notes {
        write_block_note(alloc, writer, note)?;
    }
    Ok(())
}

/// Writes the notes about the block of an event.
fn write_block_notes(
    alloc: Global,
    writer: &mut Writer,
    event: &Event<'_>,
) -> Result<(), AllocError>
    ensures tokens { OnOk result (writer.new.tokens ≡ writer.old.tokens ++ value_tokens (map block_note_value (block_notes event.now))) }
    ensures before { OnOk result (writer.new.before ≡ writer.old.before) }
{
    let notes = block_notes(alloc, event)?;
    write_each_block_note(alloc, writer, &notes)
}

/// Writes the notes about the block of an event, and then those about rules.
pub(crate) fn write_notes(
    alloc: Global,
    writer: &mut Writer,
    event: &Event<'_>,
    notes: &Notes,
) -> Result<(), AllocError>
    ensures tokens { OnOk result (writer.new.tokens ≡ writer.old.tokens ++ value_tokens (note_values event.now notes.now)) }
    ensures before { OnOk result (writer.new.before ≡ writer.old.before) }
{
    write_block_notes(alloc, writer, event)?;
    write_rule_notes(alloc, writer, notes)?;
    Ok(())
}

/// Writes notes about rules.
fn write_rule_notes(alloc: Global, writer: &mut Writer, notes: &Notes) -> Result<(), AllocError>
    ensures tokens { OnOk result (writer.new.tokens ≡ writer.old.tokens ++ value_tokens (map note_value notes.now)) }
    ensures before { OnOk result (writer.new.before ≡ writer.old.before) }
{
    for note in notes.as_slice() {
        write_note(alloc, writer, note)?;
    }
    Ok(())
}

/// What follows the first word of a line of `--why`.
fn after_word(line: &[u8]) -> &[u8]
    ensures { result.now ≡ drop 4 line.now }
{
    if line.len() < 4 {
        return b"";
    }
    &line[4..]
}

/// Writes the lines of `--why`, each without its first word.
pub(crate) fn write_why(alloc: Global, writer: &mut Writer, why: &[u8]) -> Result<(), AllocError>
    ensures tokens { OnOk result (writer.new.tokens ≡ writer.old.tokens ++ value_tokens (why_values why.now)) }
    ensures before { OnOk result (writer.new.before ≡ writer.old.before) }
{
    let mut rest = why;
    while !rest.is_empty() {
        let (line, below) = first_line(rest);
        write_told_value(alloc, writer, after_word(line))?;
        rest = below;
    }
    Ok(())
}
