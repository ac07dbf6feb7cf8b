//! What appears and disappears between two answers to the same event, as text, and which side a message is about.
ghost use Rattle.std.specs.Prelude.{◌≡◌, ◌++◌, ◌∷◌, [], List, filter, map, IfOk, OnOk};
ghost use Rattle.text_bytes.specs.Text.{Text};
ghost use Rattle.text_tables.specs.Surplus.{ShownLine, line_of};
ghost use Rattle.text_bytes.specs.Lines.{lines};
ghost use Rattle.engine_answers.specs.Differences.{after_first, beside, compared_lines, differences, is_compared, marked_line};
ghost use Rattle.engine_answers.specs.Differences.{marked_lines, marked_text, reported_for, shown_lines};

use device_core::Event;
use engine_sessions::push_event;
use std::alloc::{AllocError, Global};
use text_bytes::{Bytes, first_line};
use text_tables::surplus;

/// What appears and disappears between an old and a new answer to an event: the event's line, the old lines that
/// the new answer has less often, each after `-`, the new ones that the old answer has less often, each after `+`,
/// and an empty line. If there are neither, no byte.
///
/// Each answer comes with the answer as it is shown, whose lines are written in place of those that are compared. Notes
/// are not compared.
pub(crate) fn differences(
    alloc: Global,
    event: &Event<'_>,
    old: (&[u8], &[u8]),
    new: (&[u8], &[u8]),
) -> Result<Bytes, AllocError>
    ensures { IfOk result (λ text. text ≡ differences event.now (old.entry.0.now, old.entry.1.now) (new.entry.0.now, new.entry.1.now)) }
{
    let old_lines = shown_lines(alloc, old)?;
    let new_lines = shown_lines(alloc, new)?;
    let gone = surplus(alloc, &old_lines, &new_lines)?;
    let come = surplus(alloc, &new_lines, &old_lines)?;
    reported_for(alloc, event, &gone, &come)
}

/// The lines of an answer that are compared, neither its first, nor notes, nor the empty one at its end, each with what is
/// shown for it.
pub(crate) fn shown_lines<'a>(
    alloc: Global,
    answer: (&'a [u8], &'a [u8]),
) -> Result<Vec<(&'a [u8], &'a [u8])>, AllocError>
    ensures lines { IfOk result (λ lines. map {B = ShownLine} (λ l. (l.0.now, l.1.now)) lines.items ≡ shown_lines (answer.entry.0.now, answer.entry.1.now)) }
    ensures compared { IfOk result (λ lines. map (λ l. l.0.now) lines.items ≡ compared_lines answer.entry.0.now) }
{
    let (compared, shown) = answer;
    let mut lines = Vec::new(alloc);
    let mut rest = after_first_line(compared);
    let mut others = after_first_line(shown);
    while !rest.is_empty() {
        let (line, below) = first_line(rest);
        let (other, others_below) = other_line(line, others);
        push_compared(&mut lines, line, other)?;
        rest = below;
        others = others_below;
    }
    Ok(lines)
}

/// The first of some other lines, and those below it; or this line, if there is no other.
fn other_line<'a>(line: &'a [u8], others: &'a [u8]) -> (&'a [u8], &'a [u8])
    ensures { (following : List Text) → beside (line.now ∷ following) (lines others.now) ≡ (line.now, result.0.now) ∷ beside following (lines result.1.now) }
{
    if others.is_empty() {
        return (line, others);
    }
    first_line(others)
}

/// What follows the first line of a text.
fn after_first_line(text: &[u8]) -> &[u8]
    ensures { lines result.now ≡ after_first (lines text.now) }
{
    if text.is_empty() {
        return text;
    }
    let (_, below) = first_line(text);
    below
}

/// Adds a line with what is shown for it, if it is compared.
fn push_compared<'a>(
    lines: &mut Vec<(&'a [u8], &'a [u8])>,
    line: &'a [u8],
    shown: &'a [u8],
) -> Result<(), AllocError>
    ensures { OnOk result (map {B = ShownLine} (λ l. (l.0.now, l.1.now)) lines.new.items
        ≡ map {B = ShownLine} (λ l. (l.0.now, l.1.now)) lines.old.items ++ filter (λ l. is_compared (line_of l)) ((line.now, shown.now) ∷ [])) }
{
    if is_compared(line) {
        lines.push((line, shown))?;
    }
    Ok(())
}

/// Whether a line of an answer is compared.
fn is_compared(line: &[u8]) -> bool
    ensures { result ≡ is_compared line.now }
{
    !(line.is_empty() || line.starts_with(b"note "))
}

/// What is reported for an event, by the lines that disappear and those that appear.
fn reported_for(
    alloc: Global,
    event: &Event<'_>,
    gone: &[(&[u8], &[u8])],
    come: &[(&[u8], &[u8])],
) -> Result<Bytes, AllocError>
    ensures { IfOk result (λ text. text ≡ reported_for event.now (map (λ l. l.1.now) gone.now) (map (λ l. l.1.now) come.now)) }
{
    let mut text = Vec::new(alloc);
    if gone.is_empty() && come.is_empty() {
        return Ok(Bytes::new(text));
    }
    push_event(alloc, &mut text, event.action(), event.device().path())?;
    push_marked_lines(&mut text, b"-", gone)?;
    push_marked_lines(&mut text, b"+", come)?;
    text.push(b'\n')?;
    Ok(Bytes::new(text))
}

/// Appends what is shown for lines, each after a mark.
fn push_marked_lines(
    text: &mut Vec<u8>,
    mark: &[u8],
    lines: &[(&[u8], &[u8])],
) -> Result<(), AllocError>
    ensures { OnOk result (text.new.items ≡ text.old.items ++ marked_lines mark.now (map (λ l. l.1.now) lines.now)) }
{
    for (_, shown) in lines {
        push_marked_line(text, mark, shown)?;
    }
    Ok(())
}

/// Appends a line, after a mark.
fn push_marked_line(text: &mut Vec<u8>, mark: &[u8], line: &[u8]) -> Result<(), AllocError>
    ensures { OnOk result (text.new.items ≡ text.old.items ++ marked_line mark.now line.now) }
{
    text.extend_from_slice(mark)?;
    text.extend_from_slice(line)?;
    text.push(b'\n')?;
    Ok(())
}

/// A text with each of its lines after a mark: the messages about one of two sets of rules.
pub fn marked(alloc: Global, mark: &[u8], text: &[u8]) -> Result<Vec<u8>, AllocError>
    ensures { IfOk result (λ marked. marked.items ≡ marked_text mark.now text.now) }
{
    let mut marked = Vec::new(alloc);
    let mut rest = text;
    while !rest.is_empty() {
        let (line, below) = first_line(rest);
        push_marked_line(&mut marked, mark, line)?;
        rest = below;
    }
    Ok(marked)
}
