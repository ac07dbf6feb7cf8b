//! What is reported if no file was read at all.
//!
//! A check of no files must not look like a successful one, so each place that was looked at is named.
ghost use Rattle.std.specs.Prelude.{◌≡◌, ◌++◌, IfOk, OnOk, flat_map};
ghost use Rattle.devdry_folders.specs.Nothing.{folder_line, has_unread, line_elsewhere, line_on, line_on_place, nothing_lines, why_no_file};

use crate::elsewhere::Elsewhere;
use crate::reasons::push_escaped;
use crate::sights::{Sight, Spot, Visit};
use crate::unread::is_one_of;
use itoa::Buffer;
use std::alloc::{AllocError, Global};
use text_bytes::FileKind;

/// Adds a line on a place.
pub(crate) fn push_line(
    alloc: Global,
    lines: &mut Vec<u8>,
    path: &[u8],
    text: &[u8],
) -> Result<(), AllocError>
    ensures { OnOk result (lines.new.items ≡ lines.old.items ++ line_on path.now text.now) }
{
    push_escaped(alloc, lines, b"devdry: ", path)?;
    lines.extend_from_slice(text)?;
    lines.push(b'\n')?;
    Ok(())
}

/// Whether one of the sights can't be read.
fn has_unread(sights: &[Sight]) -> bool
    ensures { result ≡ has_unread sights.now }
{
    sights.iter().any(|sight| sight.met.reason().is_some())
}

/// Why a folder gave no file.
fn why_no_file(alloc: Global, kind: FileKind, sights: &[Sight]) -> Result<Vec<u8>, AllocError>
    ensures { IfOk result (λ text. text.items ≡ why_no_file kind sights.now) }
{
    if sights.is_empty() {
        return Vec::from_slice(alloc, b": empty");
    }
    let mut text = Vec::from_slice(alloc, b": has no ")?;
    text.extend_from_slice(kind.suffix().as_bytes())?;
    text.extend_from_slice(b" files")?;
    Ok(text)
}

/// Adds the line on a folder that was listed, unless what is in it is already reported.
fn push_listed(
    alloc: Global,
    lines: &mut Vec<u8>,
    kind: FileKind,
    path: &[u8],
    sights: &[Sight],
) -> Result<(), AllocError>
    ensures { OnOk result (lines.new.items ≡ lines.old.items
        ++ folder_line kind path.now Spot.Folder sights.now) }
{
    if has_unread(sights) {
        return Ok(());
    }
    push_line(alloc, lines, path, &why_no_file(alloc, kind, sights)?)
}

/// Adds the line on a place that was looked at, if files of one of these kinds were looked for there.
fn push_place(
    alloc: Global,
    lines: &mut Vec<u8>,
    kinds: &[FileKind],
    visit: &Visit,
) -> Result<(), AllocError>
    ensures { OnOk result (lines.new.items ≡ lines.old.items ++ line_on_place kinds.now visit.now) }
{
    if !is_one_of(kinds, visit.kind) {
        return Ok(());
    }
    let path = visit.path.as_slice();
    match visit.scan.spot {
        Spot::Absent => push_line(alloc, lines, path, b": absent"),
        Spot::Folder => push_listed(alloc, lines, visit.kind, path, &visit.scan.sights),
        Spot::File | Spot::Unread(_) => Ok(()),
    }
}

/// Adds the line on files that are elsewhere, if there are any.
fn push_elsewhere(alloc: Global, lines: &mut Vec<u8>, other: &Elsewhere) -> Result<(), AllocError>
    ensures { OnOk result (lines.new.items ≡ lines.old.items ++ line_elsewhere other.now) }
{
    let path = other.path.as_slice();
    if other.count == 0 {
        return Ok(());
    }
    if other.count == 1 {
        return push_line(alloc, lines, path, b" has 1 file");
    }
    let mut text = Vec::from_slice(alloc, b" has ")?;
    text.extend_from_slice(Buffer::new().format(other.count).as_bytes())?;
    text.extend_from_slice(b" files")?;
    push_line(alloc, lines, path, &text)
}

/// Adds the lines on all places where files of these kinds were looked for.
fn push_places(
    alloc: Global,
    lines: &mut Vec<u8>,
    kinds: &[FileKind],
    visits: &[Visit],
) -> Result<(), AllocError>
    ensures { OnOk result (lines.new.items ≡ lines.old.items ++ flat_map (line_on_place kinds.now) visits.now) }
{
    for visit in visits {
        push_place(alloc, lines, kinds, visit)?;
    }
    Ok(())
}

/// The lines that say that no file of these kinds was read: `devdry: no files`, then for each folder of theirs that
/// was looked at `devdry: PATH: absent`, `empty` or `has no .rules files`, and `devdry: PATH has 12 files` (`1 file`) for files that are
/// elsewhere. What can't be read has no line here.
pub(crate) fn nothing_lines(
    alloc: Global,
    kinds: &[FileKind],
    visits: &[Visit],
    others: &[Elsewhere],
) -> Result<Vec<u8>, AllocError>
    ensures { IfOk result (λ lines. lines.items ≡ nothing_lines kinds.now visits.now others.now) }
{
    let mut lines = Vec::from_slice(alloc, b"devdry: no files\n")?;
    push_places(alloc, &mut lines, kinds, visits)?;
    for other in others {
        push_elsewhere(alloc, &mut lines, other)?;
    }
    Ok(lines)
}
