//! What is said of words and files that can't be used.
//!
//! What is said about words has these in it, and a script may take them from anywhere, so a terminal is not to obey them.
ghost use Rattle.std.specs.Prelude.{◌≡◌, IfOk, map, true};
ghost use Rattle.text_bytes.specs.Escapes.{is_control};
ghost use Rattle.text_bytes.specs.Names.{newline};
ghost use Rattle.devdry_gathering.specs.Said.{IsSaidOf, IsToldOf, cannot_read, said_byte, said_of_words};

use crate::notes::hint_at;
use devdry_files::Disk;
use devdry_folders::{advice_at, push_escaped};
use engine_formats::{masked, shown_byte};
use engine_sessions::Line;
use std::alloc::{AllocError, Global};

/// A byte of what is said about words: a newline, or as a byte of a line is shown.
fn said_byte(byte: u8) -> u8
    ensures value { result ≡ said_byte byte }
    ensures clean { is_control result ≡ true → result ≡ newline }
{
    if byte == b'\n' {
        byte
    } else {
        shown_byte(byte)
    }
}

/// Shows the bytes of a text as those of a line, but for its newlines.
fn show_controls(text: &mut [u8])
    ensures { text.new ≡ map said_byte text.old }
{
    for byte in text.iter_mut() {
        *byte = said_byte(*byte);
    }
}

/// What is said about words, without what a terminal would obey in them.
pub(crate) fn said_of_words(text: Vec<u8>) -> Vec<u8>
    ensures { result.items ≡ said_of_words text.items }
{
    let mut said = masked(text);
    show_controls(&mut said);
    said
}

/// The line on a file or a folder that could not be read, with its path escaped: a name in an image may hold any byte but
/// a slash and a NUL, even a newline with a line of its own after it.
pub(crate) fn cannot_read(alloc: Global, path: &[u8]) -> Result<Vec<u8>, AllocError>
    ensures { IfOk result (λ said. said.items ≡ cannot_read path.now) }
{
    let mut said = Vec::new(alloc);
    push_escaped(alloc, &mut said, b"devdry: cannot read ", path)?;
    said.push(b'\n')?;
    Ok(said)
}

/// What people are told of a path that a line asks for and that can't be read.
fn told_of<D: Disk>(
    alloc: Global,
    disk: &D,
    line: &Line<'_>,
    path: &str,
) -> Result<Vec<u8>, AllocError>
    ensures { IfOk result (λ said. IsToldOf (D.may_answer disk.now) line.now path.now said.items) }
{
    let mut said = hint_at(alloc, disk, line, path)?;
    let mut own = cannot_read(alloc, path.as_bytes())?;
    let mut advice = advice_at(alloc, disk, line, path)?;
    own.append(&mut advice)?;
    said.append(&mut own)?;
    Ok(masked(said))
}

/// What is said of a path that a line asks for and that can't be read. For people everything is looked at once more, to find
/// out why.
pub(crate) fn said_of<D: Disk>(
    alloc: Global,
    disk: &D,
    line: &Line<'_>,
    path: &str,
) -> Result<Vec<u8>, AllocError>
    ensures { IfOk result (λ said. IsSaidOf (D.may_answer disk.now) line.now path.now said.items) }
{
    if line.format.is_for_people() {
        told_of(alloc, disk, line, path)
    } else {
        cannot_read(alloc, path.as_bytes())
    }
}
