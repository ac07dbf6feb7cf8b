//! What appears and disappears between two answers to the same event, as an object of JSON.
ghost use Rattle.std.specs.Prelude.{◌≡◌, ◌++◌, ◌∷◌, [], map, IfOk, OnOk};
ghost use Rattle.json.specs.Tree.{json_tokens};
ghost use Rattle.text_json.specs.Listed.{member_tokens, value_tokens};
ghost use Rattle.text_json.specs.Told.{told};
ghost use Rattle.text_json.specs.Values.{array_of, value_line};
ghost use Rattle.engine_answers.specs.Objects.{differences_in_json, differences_object, object_for};

use crate::compared_answers::shown_lines;
use device_core::Event;
use json::Writer;
use std::alloc::{AllocError, Global};
use text_bytes::Bytes;
use text_json::{write_told, write_told_value};
use text_tables::surplus;

/// What appears and disappears between an old and a new answer to an event, as an object of JSON on one line: `event`,
/// `path`, `gone` with the old lines that the new answer has less often, and `come` with the new ones that the old answer
/// has less often, each as it is shown. If there are neither, no byte.
pub(crate) fn differences_in_json(
    alloc: Global,
    event: &Event<'_>,
    old: (&[u8], &[u8]),
    new: (&[u8], &[u8]),
) -> Result<Bytes, AllocError>
    ensures { IfOk result (λ text. text ≡ differences_in_json event.now (old.entry.0.now, old.entry.1.now) (new.entry.0.now, new.entry.1.now)) }
{
    let old_lines = shown_lines(alloc, old)?;
    let new_lines = shown_lines(alloc, new)?;
    let gone = surplus(alloc, &old_lines, &new_lines)?;
    let come = surplus(alloc, &new_lines, &old_lines)?;
    object_for(alloc, event, &gone, &come)
}

/// What is reported for an event, by the lines that disappear and those that appear.
fn object_for(
    alloc: Global,
    event: &Event<'_>,
    gone: &[(&[u8], &[u8])],
    come: &[(&[u8], &[u8])],
) -> Result<Bytes, AllocError>
    ensures { IfOk result (λ text. text ≡ object_for event.now (map (λ l. l.1.now) gone.now) (map (λ l. l.1.now) come.now)) }
{
    if gone.is_empty() && come.is_empty() {
        return Ok(Bytes::new(Vec::new(alloc)));
    }
    Ok(Bytes::new(object_line(alloc, event, gone, come)?))
}

/// The object of an event on a line.
#[tactic(auto, unfolding(text_json::specs::Values::value_line))]
fn object_line(
    alloc: Global,
    event: &Event<'_>,
    gone: &[(&[u8], &[u8])],
    come: &[(&[u8], &[u8])],
) -> Result<Vec<u8>, AllocError>
    ensures { IfOk result (λ text. text.items
        ≡ value_line (differences_object event.now (map (λ l. l.1.now) gone.now) (map (λ l. l.1.now) come.now))) }
{
    let mut writer = Writer::new(Vec::new(alloc));
    write_object(alloc, &mut writer, event, gone, come)?;
    let mut text = writer.into_inner();
    text.push(b'\n')?;
    Ok(text)
}

/// Writes the object of an event.
fn write_object(
    alloc: Global,
    writer: &mut Writer,
    event: &Event<'_>,
    gone: &[(&[u8], &[u8])],
    come: &[(&[u8], &[u8])],
) -> Result<(), AllocError>
    ensures tokens { OnOk result (writer.new.tokens ≡ writer.old.tokens
        ++ json_tokens (differences_object event.now (map (λ l. l.1.now) gone.now) (map (λ l. l.1.now) come.now))) }
    ensures before { OnOk result (writer.new.before ≡ writer.old.before) }
{
    writer.begin_object()?;
    write_told(alloc, writer, "event", event.action())?;
    write_told(alloc, writer, "path", event.device().path())?;
    write_lines(alloc, writer, "gone", gone)?;
    write_lines(alloc, writer, "come", come)?;
    writer.end_object()?;
    Ok(())
}

/// Writes a member that is an array of what is shown for lines.
fn write_lines(
    alloc: Global,
    writer: &mut Writer,
    key: &str,
    lines: &[(&[u8], &[u8])],
) -> Result<(), AllocError>
    ensures tokens { OnOk result (writer.new.tokens ≡ writer.old.tokens
        ++ member_tokens ((key.now, array_of (map told (map (λ l. l.1.now) lines.now))) ∷ [])) }
    ensures before { OnOk result (writer.new.before ≡ writer.old.before) }
{
    writer.key(key)?;
    writer.begin_array()?;
    write_each_line(alloc, writer, lines)?;
    writer.end_array()?;
    Ok(())
}

/// Writes what is shown for lines, one after another.
fn write_each_line(
    alloc: Global,
    writer: &mut Writer,
    lines: &[(&[u8], &[u8])],
) -> Result<(), AllocError>
    ensures tokens { OnOk result (writer.new.tokens ≡ writer.old.tokens ++ value_tokens (map told (map (λ l. l.1.now) lines.now))) }
    ensures before { OnOk result (writer.new.before ≡ writer.old.before) }
{
    for (_, shown) in lines {
        write_told_value(alloc, writer, shown)?;
    }
    Ok(())
}
