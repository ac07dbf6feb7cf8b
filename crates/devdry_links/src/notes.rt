//! What is told about files before their messages.
ghost use Rattle.std.specs.List.{list_any};
ghost use Rattle.std.specs.Prelude.{◌≡◌, ◌++◌, IfOk, OnOk, flat_map, map};
ghost use Rattle.devdry_links.specs.Notes.{folder_note, hides, kind_note, kind_notes, note_on, other_kind};
ghost use Rattle.devdry_links.specs.Notes.{return_note, root_notes, told_of_kind, told_of_root};
ghost use Rattle.devdry_links.specs.Notes.{unseen_among, unseen_in, unseen_notes};
ghost use Rattle.devdry_links.specs.Told.{notes_of};

use crate::asked::{asks_kinds, asks_root, asks_unseen};
use crate::lines::push_first;
use crate::lying::push_lying;
use crate::ranks::RankedFiles;
use crate::unseen::Unseen;
use engine_sessions::{Line, push_escaped};
use std::alloc::{AllocError, Global};
use text_bytes::{Bytes, FileKind, Profile, SourceFile};

/// What is told of a root.
const ROOT: &[u8] =
    b": its rules are not read beside a FILE that is named: --with FILE reads FILE among them";

/// Adds a note on a path.
pub(crate) fn push_note(
    alloc: Global,
    notes: &mut Vec<u8>,
    path: &[u8],
    text: &[u8],
) -> Result<(), AllocError>
    ensures { OnOk result (notes.new.items ≡ notes.old.items ++ note_on path.now text.now) }
{
    notes.extend_from_slice(b"devdry: ")?;
    push_escaped(alloc, notes, path)?;
    notes.extend_from_slice(text)?;
    notes.push(b'\n')?;
    Ok(())
}

/// Adds the note on the first line of a file that ends in a carriage return, by the manual, to which that is none of
/// its end.
fn push_return(
    alloc: Global,
    notes: &mut Vec<u8>,
    profile: Profile,
    file: &SourceFile,
) -> Result<(), AllocError>
    ensures { OnOk result (notes.new.items ≡ notes.old.items ++ return_note profile file.now) }
{
    match profile {
        Profile::Manual => push_first(alloc, notes, file, Unseen::Return),
        Profile::Udev => Ok(()),
    }
}

/// Adds what is told of a file.
#[tactic(auto, unfolding(crate::specs::Notes::unseen_in))]
fn push_unseen(
    alloc: Global,
    notes: &mut Vec<u8>,
    profile: Profile,
    file: &SourceFile,
) -> Result<(), AllocError>
    ensures { OnOk result (notes.new.items ≡ notes.old.items ++ unseen_in profile file.now) }
{
    push_first(alloc, notes, file, Unseen::Mark)?;
    push_return(alloc, notes, profile, file)?;
    push_first(alloc, notes, file, Unseen::NoBreak)
}

/// Whether another file hides one.
fn hides(file: &SourceFile, other: &SourceFile) -> bool
    ensures { result ≡ hides file.now other.now }
{
    other.name.as_slice() == file.name.as_slice() && other.rank < file.rank
}

/// Whether one of these files hides one.
pub(crate) fn is_hidden(files: &[SourceFile], file: &SourceFile) -> bool
    ensures { result ≡ list_any (hides file.now) files.now }
{
    files.iter().any(|other| hides(file, other))
}

/// Adds what is told of a file among others.
fn push_among(
    alloc: Global,
    notes: &mut Vec<u8>,
    profile: Profile,
    files: &RankedFiles<'_>,
    file: &SourceFile,
) -> Result<(), AllocError>
    ensures { OnOk result (notes.new.items ≡ notes.old.items ++ unseen_among profile files.now file.now) }
{
    if files.hide(file) {
        return Ok(());
    }
    push_unseen(alloc, notes, profile, file)
}

/// The other kind of files.
fn other_kind(kind: FileKind) -> FileKind
    ensures { result ≡ other_kind kind }
{
    match kind {
        FileKind::Hwdb => FileKind::Rules,
        FileKind::Rules => FileKind::Hwdb,
    }
}

/// What is told of a file of a kind where one of the other is read.
fn told_of_kind(kind: FileKind) -> &'static [u8]
    ensures { result.now ≡ told_of_kind kind }
{
    match kind {
        FileKind::Hwdb =>
            b": a file of the hardware database by its name, which devdry update checks",
        FileKind::Rules => b": a rules file by its name, which devdry verify checks",
    }
}

/// The note on a folder where a file is wanted, which is a line of its own.
///
/// Fails if memory runs out.
pub fn folder_note(alloc: Global, path: &str) -> Result<Vec<u8>, AllocError>
    ensures { IfOk result (λ note. note.items ≡ folder_note path.now) }
{
    let mut note = Vec::new(alloc);
    push_note(
        alloc,
        &mut note,
        path.as_bytes(),
        b": a folder, of which --all reads the files",
    )?;
    Ok(note)
}

/// Adds the notes on those of the named files whose names end as those of a kind do.
fn push_named(
    alloc: Global,
    notes: &mut Vec<u8>,
    kind: FileKind,
    paths: &[&str],
) -> Result<(), AllocError>
    ensures { OnOk result (notes.new.items ≡ notes.old.items ++ flat_map (kind_note kind) (map (λ f. f.now) paths.now)) }
{
    for path in paths {
        if path.as_bytes().ends_with(kind.suffix().as_bytes()) {
            push_note(alloc, notes, path.as_bytes(), told_of_kind(kind))?;
        }
    }
    Ok(())
}

/// Adds the notes on named files that are of the other kind than the subcommand reads.
fn push_kinds(alloc: Global, notes: &mut Vec<u8>, line: &Line<'_>) -> Result<(), AllocError>
    ensures { OnOk result (notes.new.items ≡ notes.old.items ++ kind_notes line.now) }
{
    if asks_kinds(line) {
        push_named(
            alloc,
            notes,
            other_kind(line.verb.kind_named()),
            &line.files,
        )?;
    }
    Ok(())
}

/// Adds the note on the root, if there is a folder.
fn push_root(
    alloc: Global,
    notes: &mut Vec<u8>,
    line: &Line<'_>,
    there: bool,
) -> Result<(), AllocError>
    ensures { OnOk result (notes.new.items ≡ notes.old.items ++ root_notes line.now there) }
{
    if asks_root(line) && there {
        push_note(alloc, notes, line.root.as_bytes(), ROOT)?;
    }
    Ok(())
}

/// Adds the notes on what no editor shows in files.
fn push_unseen_of(
    alloc: Global,
    notes: &mut Vec<u8>,
    line: &Line<'_>,
    files: &[SourceFile],
) -> Result<(), AllocError>
    ensures { OnOk result (notes.new.items ≡ notes.old.items ++ unseen_notes line.now files.now) }
{
    if !asks_unseen(line) {
        return Ok(());
    }
    let ranked = RankedFiles::of(alloc, files)?;
    for file in files {
        push_among(alloc, notes, line.profile, &ranked, file)?;
    }
    Ok(())
}

/// All that is told about the files that were read for a line, about its root, where a folder is there, and about rules files
/// at these paths in the folders of the root: each note is a line of its own, and there are none if the line does not ask for
/// them.
///
/// Fails if memory runs out.
#[tactic(auto, unfolding(crate::specs::Told::notes_of))]
pub fn notes_of(
    alloc: Global,
    line: &Line<'_>,
    files: &[SourceFile],
    there: bool,
    lying: &[Bytes],
) -> Result<Vec<u8>, AllocError>
    ensures { IfOk result (λ notes. notes.items ≡ notes_of line.now files.now there lying.now) }
{
    let mut notes = Vec::new(alloc);
    push_kinds(alloc, &mut notes, line)?;
    push_root(alloc, &mut notes, line, there)?;
    push_lying(alloc, &mut notes, line, files, lying)?;
    push_unseen_of(alloc, &mut notes, line, files)?;
    Ok(notes)
}
