//! The words of a file of options.
ghost use Rattle.std.specs.Prelude.{◌≡◌, IfErr, IfOk, IsSomeAnd, None, map, option_map};
ghost use Rattle.std.specs.List.{filter_map};
ghost use Rattle.text_bytes.specs.Lines.{NumberedLine, numbered_lines};
ghost use Rattle.engine_sessions.specs.Files.{bad_line, bare, is_bad, is_left_out, said_of, word_in, words_of};
ghost use Rattle.engine_sessions.specs.Faults.{AnswersFile};
ghost use Rattle.engine_sessions.specs.declared.files.OptionsFault.TheVariants.{Memory};

use crate::places::{push_place, push_word};
use crate::words::is_word;
use std::alloc::{AllocError, Global};
use text_bytes::{Bytes, Line, Lines, begins_with, capped, trimmed, unindented, word_of};

/// Why a file gives no options.
#[derive(Drop)]
pub enum OptionsFault {
    /// A line is bad. What is said about the first one is whole lines.
    BadLine(Bytes),
    /// Memory ran out.
    Memory,
}

impl From<AllocError> for OptionsFault {
    ghost from_gives = { λ _ fault. fault ≡ Memory };

    fn from(_error: AllocError) -> OptionsFault {
        OptionsFault::Memory
    }
}

/// A line without the blanks at its start and the whitespace at its end.
fn bare(line: &[u8]) -> &[u8]
    ensures { result.now ≡ bare line.now }
{
    trimmed(unindented(line))
}

/// Whether a line has nothing in it, or is a comment.
fn is_left_out(line: &[u8]) -> bool
    ensures { result ≡ is_left_out line.now }
{
    let text = bare(line);
    text.is_empty() || begins_with(b'#', text)
}

/// Whether a line has something in it that is no word.
fn is_bad(line: &[u8]) -> bool
    ensures { result ≡ is_bad line.now }
{
    !(is_left_out(line) || is_word(bare(line)))
}

/// The word of a line, if it has one.
#[tactic(auto, using(crate::proofs::Utf8::no_word))]
fn word_in(line: &[u8]) -> Option<&str>
    ensures { option_map (λ w. w.now) result ≡ word_in line.now }
{
    let text = bare(line);
    match str::from_utf8(text) {
        Ok(word) => { if is_word(text) { Some(word) } else { None } }
        Err(_) => None,
    }
}

/// The first line of a file that is bad, if one is.
#[tactic(auto, unfolding(crate::specs::Files::bad_line))]
fn bad_line(bytes: &[u8]) -> Option<Line<'_>>
    ensures { result ≡ bad_line bytes.now }
{
    for line in Lines::new(bytes) {
        if is_bad(line.text()) {
            return Some(line);
        }
    }
    None
}

/// The words of a file, one of each line that has one, in their order.
#[tactic(auto, unfolding(crate::specs::Files::words_of))]
fn words_of<'a>(alloc: Global, bytes: &'a [u8]) -> Result<Vec<&'a str>, AllocError>
    ensures { IfOk result (λ words. map (λ w. w.now) words.items ≡ words_of bytes.now) }
{
    let mut words = Vec::new(alloc);
    for line in Lines::new(bytes) {
        if let Some(word) = word_in(line.text()) {
            words.push(word)?;
        }
    }
    Ok(words)
}

/// What is said about a bad line of the file at a path.
fn said_of(alloc: Global, path: &str, line: &Line<'_>) -> Result<Vec<u8>, AllocError>
    ensures { IfOk result (λ text. text.items ≡ said_of path.now line.now) }
{
    let mut text = Vec::from_slice(alloc, b"error: ")?;
    push_place(alloc, &mut text, path.as_bytes(), capped(line.number()))?;
    text.extend_from_slice(b"not one option, as --lint or --format=gcc")?;
    push_word(alloc, &mut text, word_of(bare(line.text())))?;
    text.extend_from_slice(b"\n\nFor more information, try '--help'.\n")?;
    Ok(text)
}

/// The words of the file of options at a path, which has these bytes: one of each line, without the blanks around it.
/// Empty lines, and those that begin with `#`, have none.
///
/// A word is a flag, as `--lint`, or an option with its value, as `--format=gcc`. `OptionsFault::BadLine` comes if a
/// line is anything else, is not UTF-8 or has a control character in it, with what is said about the first such line.
pub fn read_options<'a>(
    alloc: Global,
    path: &str,
    bytes: &'a [u8],
) -> Result<Vec<&'a str>, OptionsFault>
    ensures words { IfOk result (λ words. (bad_line bytes.now ≡ None) × (map (λ w. w.now) words.items ≡ words_of bytes.now)) }
    ensures fault { IfErr result (AnswersFile path.now bytes.now) }
{
    match bad_line(bytes) {
        Some(line) => {
            let said = said_of(alloc, path, &line)?;
            Err(OptionsFault::BadLine(Bytes::new(said)))
        }
        None => Ok(words_of(alloc, bytes)?),
    }
}
