//! Rules files that a text of `--why` may ask for, and that are not read.
ghost use Rattle.std.specs.List.{list_any};
ghost use Rattle.std.specs.Prelude.{◌≡◌, ◌++◌, OnOk, option_map};
ghost use Rattle.devdry_links.specs.Lying.{answers, asks_lying, is_asked, is_at, is_events, is_line_or_nothing, is_missed, is_read};
ghost use Rattle.devdry_links.specs.Lying.{lying_note, lying_notes, may_ask, name_in};

use crate::notes::{is_hidden, push_note};
use engine_sessions::{Line, Verb, folder_path, same_kind};
use std::alloc::{AllocError, Global};
use text_bytes::{Bytes, FileKind, SourceFile, begins_with, following, last_component};

/// What is told of a file that is not read.
const NOT_READ: &[u8] = b": not read, though --why asks for a file of its name";

/// Whether a subcommand answers events.
pub fn is_events(verb: Verb) -> bool
    ensures { result ≡ is_events verb }
{
    matches!(verb, Verb::Events)
}

/// Whether a line asks which rules files lie in the folders: it asks what rules met.
pub fn asks_lying(line: &Line<'_>) -> bool
    ensures { result ≡ asks_lying line.now }
{
    is_events(line.verb) && !line.why.is_empty()
}

/// Whether a text of `--why` may ask for a file of this name, in whatever folder.
fn may_ask(text: &[u8], name: &[u8]) -> bool
    ensures { result ≡ may_ask text.now name.now }
{
    match following(name, last_component(text)) {
        None => false,
        Some(rest) => rest.is_empty() || begins_with(b':', rest),
    }
}

/// Whether one of some texts may, as it stands among them.
fn may_one_ask(texts: &[&str], name: &[u8]) -> bool
    ensures { result ≡ list_any (λ text. may_ask text.now name.now) texts.now }
{
    texts.iter().any(|text| may_ask(text.as_bytes(), name))
}

/// Whether one of the texts of a line's `--why` may.
fn is_asked(line: &Line<'_>, name: &[u8]) -> bool
    ensures { result ≡ is_asked line.now name.now }
{
    may_one_ask(&line.why, name)
}

/// Whether a file among others is one of rules with this name, has any byte, and is hidden by none of them.
fn answers(files: &[SourceFile], name: &[u8], file: &SourceFile) -> bool
    ensures { result ≡ answers files.now name.now file.now }
{
    let is_named_so = last_component(file.name.as_slice()) == name;
    (same_kind(file.kind, FileKind::Rules) & is_named_so & !file.bytes.as_slice().is_empty())
        && !is_hidden(files, file)
}

/// Whether one of some files answers to a name.
fn is_answered(files: &[SourceFile], name: &[u8]) -> bool
    ensures { result ≡ list_any (answers files.now name.now) files.now }
{
    files.iter().any(|file| answers(files, name, file))
}

/// Whether a path is that of a file among others which is read from a folder, and hidden by none of them.
fn is_at(root: &[u8], files: &[SourceFile], path: &[u8], file: &SourceFile) -> bool
    ensures { result ≡ is_at root.now files.now path.now file.now }
{
    let is_named_so = match name_in(root, file, path) {
        None => false,
        Some(name) => name == file.name.as_slice(),
    };
    same_kind(file.kind, FileKind::Rules) && is_named_so && !is_hidden(files, file)
}

/// What follows the folder of a file, and a slash, in a path.
fn name_in<'a>(root: &[u8], file: &SourceFile, path: &'a [u8]) -> Option<&'a [u8]>
    ensures { option_map (λ name. name.now) result ≡ name_in root.now file.now path.now }
{
    let folder = folder_path(file.kind, file.rank);
    following(b"/", following(folder.as_bytes(), following(root, path)?)?)
}

/// Whether a path is that of one of some files which is read from a folder.
fn is_one_at(root: &[u8], files: &[SourceFile], path: &[u8]) -> bool
    ensures { result ≡ list_any (is_at root.now files.now path.now) files.now }
{
    files.iter().any(|file| is_at(root, files, path, file))
}

/// Whether the file at a path is read: the line names no files, and it is one of those that are read from the folders.
fn is_read(line: &Line<'_>, files: &[SourceFile], path: &[u8]) -> bool
    ensures { result ≡ is_read line.now files.now path.now }
{
    !line.names_files_of(FileKind::Rules) && is_one_at(line.root.as_bytes(), files, path)
}

/// Whether a file at a path is told: a text asks for its name, no file with this name and a byte answers it, and it is not
/// read.
fn is_missed(line: &Line<'_>, files: &[SourceFile], path: &[u8]) -> bool
    ensures { result ≡ is_missed line.now files.now path.now }
{
    let name = last_component(path);
    (is_asked(line, name) && !is_answered(files, name)) && !is_read(line, files, path)
}

/// Adds the note on a file at a path, if it is told.
fn push_lying_note(
    alloc: Global,
    notes: &mut Vec<u8>,
    line: &Line<'_>,
    files: &[SourceFile],
    path: &[u8],
) -> Result<(), AllocError>
    ensures { OnOk result (notes.new.items ≡ notes.old.items ++ lying_note line.now files.now path.now) }
{
    if is_missed(line, files, path) {
        push_note(alloc, notes, path, NOT_READ)?;
    }
    Ok(())
}

/// Adds the notes on the files at these paths, if the line asks for them.
pub(crate) fn push_lying(
    alloc: Global,
    notes: &mut Vec<u8>,
    line: &Line<'_>,
    files: &[SourceFile],
    paths: &[Bytes],
) -> Result<(), AllocError>
    ensures { OnOk result (notes.new.items ≡ notes.old.items ++ lying_notes line.now files.now paths.now) }
{
    if !asks_lying(line) {
        return Ok(());
    }
    for path in paths {
        push_lying_note(alloc, notes, line, files, path.as_slice())?;
    }
    Ok(())
}
