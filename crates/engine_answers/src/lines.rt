//! One line of each kind, as text.
ghost use Rattle.std.specs.Prelude.{◌≡◌, ◌++◌, codes, not, IfOk, OnOk};
ghost use Rattle.engine_answers.specs.Inner.{pair_words, shown_as_is};
ghost use Rattle.engine_answers.specs.Lines.{bare_line, block_note_line, is_hidden, line, note_line, pair_line, run_line, text_line};

use device_core::BlockNote;
use engine_sessions::{is_plain, push_escaped, push_place, push_word};
use eval_rules::Command;
use eval_state::Note;
use std::alloc::{AllocError, Global};

/// Adds a line with a text.
#[tactic(auto, unfolding(crate::specs::Lines::text_line))]
pub(crate) fn push_text(
    alloc: Global,
    lines: &mut Vec<u8>,
    word: &[u8],
    text: &[u8],
) -> Result<(), AllocError>
    ensures { OnOk result (lines.new.items ≡ lines.old.items ++ text_line word.now text.now) }
{
    lines.extend_from_slice(word)?;
    lines.push(b' ')?;
    push_escaped(alloc, lines, text)?;
    lines.push(b'\n')?;
    Ok(())
}

/// Adds a word, a name and its value, as they are.
#[inline(always)]
fn push_words(lines: &mut Vec<u8>, word: &[u8], name: &[u8], value: &[u8]) -> Result<(), AllocError>
    ensures { OnOk result (lines.new.items ≡ lines.old.items ++ pair_words word.now name.now value.now) }
{
    lines.extend_from_slice(word)?;
    lines.push(b' ')?;
    lines.extend_from_slice(name)?;
    lines.push(b'=')?;
    lines.extend_from_slice(value)
}

/// Adds a line with a name and its value, which are escaped one after another.
#[tactic(auto, unfolding(crate::specs::Lines::pair_line))]
fn push_escaped_pair(
    alloc: Global,
    lines: &mut Vec<u8>,
    word: &[u8],
    name: &[u8],
    value: &[u8],
) -> Result<(), AllocError>
    ensures { OnOk result (lines.new.items ≡ lines.old.items ++ pair_line word.now (name.now, value.now)) }
{
    lines.extend_from_slice(word)?;
    lines.push(b' ')?;
    push_escaped(alloc, lines, name)?;
    lines.push(b'=')?;
    push_escaped(alloc, lines, value)?;
    lines.push(b'\n')?;
    Ok(())
}

/// Adds a line with a name and its value. Mostly nothing has to be escaped, and then the line is as it was put together.
#[inline(always)]
pub(crate) fn push_pair(
    alloc: Global,
    lines: &mut Vec<u8>,
    word: &[u8],
    name: &[u8],
    value: &[u8],
) -> Result<(), AllocError>
    ensures { OnOk result (lines.new.items ≡ lines.old.items ++ pair_line word.now (name.now, value.now)) }
{
    let before = lines.len();
    push_words(lines, word, name, value)?;
    if is_plain(&lines[before..]) {
        lines.push(b'\n')?;
        return Ok(());
    }
    lines.truncate(before);
    push_escaped_pair(alloc, lines, word, name, value)
}

/// Adds the line of a property as it is, whatever has to be escaped, unless its name begins with a dot; says whether it
/// was added.
pub(crate) fn push_as_is(lines: &mut Vec<u8>, name: &[u8], value: &[u8]) -> Result<bool, AllocError>
    ensures lines { OnOk result (lines.new.items ≡ lines.old.items ++ shown_as_is (name.now, value.now)) }
    ensures shown { IfOk result (λ shown. shown ≡ not (is_hidden name.now)) }
{
    if is_hidden(name) {
        return Ok(false);
    }
    lines.extend_from_slice(b"env ")?;
    lines.extend_from_slice(name)?;
    lines.push(b'=')?;
    lines.extend_from_slice(value)?;
    lines.push(b'\n')?;
    Ok(true)
}

/// Whether a name begins with a dot: such a property is for rules alone.
pub fn is_hidden(name: &[u8]) -> bool
    ensures { result ≡ is_hidden name.now }
{
    name.first() == Some(&b'.')
}

/// Adds a line with what it says, in which nothing has to be escaped.
pub(crate) fn push_line(lines: &mut Vec<u8>, word: &[u8], said: &[u8]) -> Result<(), AllocError>
    ensures { OnOk result (lines.new.items ≡ lines.old.items ++ line word.now said.now) }
{
    lines.extend_from_slice(word)?;
    lines.push(b' ')?;
    lines.extend_from_slice(said)?;
    lines.push(b'\n')?;
    Ok(())
}

/// Adds a line that is its word alone.
pub(crate) fn push_bare(lines: &mut Vec<u8>, word: &[u8]) -> Result<(), AllocError>
    ensures { OnOk result (lines.new.items ≡ lines.old.items ++ bare_line word.now) }
{
    lines.extend_from_slice(word)?;
    lines.push(b'\n')?;
    Ok(())
}

/// Adds the line of a command.
#[tactic(auto, unfolding(crate::specs::Lines::run_line))]
pub(crate) fn push_run(
    alloc: Global,
    lines: &mut Vec<u8>,
    command: &Command,
) -> Result<(), AllocError>
    ensures { OnOk result (lines.new.items ≡ lines.old.items ++ run_line command.now) }
{
    lines.extend_from_slice(b"run ")?;
    lines.extend_from_slice(command.kind.name())?;
    lines.push(b' ')?;
    push_escaped(alloc, lines, command.text.as_slice())?;
    lines.push(b'\n')?;
    Ok(())
}

/// Adds the line of a note.
#[tactic(auto, unfolding(crate::specs::Lines::note_line))]
pub(crate) fn push_note(alloc: Global, lines: &mut Vec<u8>, note: &Note) -> Result<(), AllocError>
    ensures { OnOk result (lines.new.items ≡ lines.old.items ++ note_line note.now) }
{
    lines.extend_from_slice(b"note ")?;
    push_place(alloc, lines, note.file.as_slice(), note.line)?;
    lines.extend_from_slice(note.kind.text())?;
    push_word(alloc, lines, note.word.as_slice())?;
    lines.push(b'\n')?;
    Ok(())
}

/// Adds the line of a note about the block.
#[tactic(auto, unfolding(crate::specs::Lines::block_note_line))]
pub(crate) fn push_block_note(
    alloc: Global,
    lines: &mut Vec<u8>,
    note: &BlockNote,
) -> Result<(), AllocError>
    ensures { OnOk result (lines.new.items ≡ lines.old.items ++ block_note_line note.now) }
{
    lines.extend_from_slice(b"note -: ")?;
    lines.extend_from_slice(note.kind.text())?;
    push_word(alloc, lines, note.word.as_slice())?;
    lines.push(b'\n')?;
    Ok(())
}
