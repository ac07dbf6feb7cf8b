//! What is reported for what can't be read.
ghost use Rattle.std.specs.Prelude.{◌≡◌, ◌++◌, IfOk, OnOk, option_map};
ghost use Rattle.devdry_folders.specs.Unread.{all_unread, has_file, has_files, is_file, is_one_of, lines_on_scan, said_by};
ghost use Rattle.devdry_folders.specs.Unread.{unread_line};

use crate::reasons::{Reason, push_advice, push_escaped, push_reason};
use crate::sights::{Met, Scan, Sight, Survey, Visit};
use engine_sessions::same_kind;
use std::alloc::{AllocError, Global};
use text_bytes::FileKind;

/// Adds the line on what can't be read.
fn push_unread_line(
    alloc: Global,
    lines: &mut Vec<u8>,
    path: &[u8],
    reason: &Reason,
) -> Result<(), AllocError>
    ensures { OnOk result (lines.new.items ≡ lines.old.items ++ unread_line path.now reason.now) }
{
    push_escaped(alloc, lines, b"devdry: cannot read ", path)?;
    lines.extend_from_slice(b": ")?;
    push_reason(alloc, lines, reason)?;
    lines.push(b'\n')?;
    Ok(())
}

/// Adds what is said about a path, for people or not, if there is a reason why it can't be read.
fn push_unread(
    alloc: Global,
    lines: &mut Vec<u8>,
    for_people: bool,
    path: &[u8],
    reason: Option<&Reason>,
) -> Result<(), AllocError>
    ensures { OnOk result (lines.new.items ≡ lines.old.items
        ++ said_by for_people path.now (option_map (λ reason. reason.now) reason.entry)) }
{
    let Some(reason) = reason else {
        return Ok(());
    };
    push_unread_line(alloc, lines, path, reason)?;
    if for_people {
        push_advice(alloc, lines, reason)?;
    }
    Ok(())
}

/// Adds the lines on what was met at the path of a folder, if it, or what is in it, can't be read:
/// `devdry: cannot read PATH: REASON`, with the path escaped, and for people what is wrong and what to do about it.
pub fn push_on_scan(
    alloc: Global,
    lines: &mut Vec<u8>,
    for_people: bool,
    path: &[u8],
    scan: &Scan,
) -> Result<(), AllocError>
    ensures { OnOk result (lines.new.items ≡ lines.old.items ++ lines_on_scan for_people path.now scan.now) }
{
    push_unread(alloc, lines, for_people, path, scan.spot.reason())?;
    for sight in &scan.sights {
        let path = sight.path.as_slice();
        push_unread(alloc, lines, for_people, path, sight.met.reason())?;
    }
    Ok(())
}

/// The lines on all that can't be read, for people or not, in the order of the visits, those on the index last.
pub(crate) fn all_unread(
    alloc: Global,
    for_people: bool,
    survey: &Survey,
) -> Result<Vec<u8>, AllocError>
    ensures { IfOk result (λ lines. lines.items ≡ all_unread for_people survey.now) }
{
    let mut lines = Vec::new(alloc);
    for visit in &survey.visits {
        push_on_scan(
            alloc,
            &mut lines,
            for_people,
            visit.path.as_slice(),
            &visit.scan,
        )?;
    }
    if let Some(sight) = &survey.index {
        let index = sight.path.as_slice();
        push_unread(alloc, &mut lines, for_people, index, sight.met.reason())?;
    }
    Ok(lines)
}

/// Whether a file was read.
pub(crate) fn is_file(met: &Met) -> bool
    ensures { result ≡ is_file met.now }
{
    matches!(met, Met::File(_))
}

/// Whether one of the sights is a file that was read.
fn has_file(sights: &[Sight]) -> bool
    ensures { result ≡ has_file sights.now }
{
    sights.iter().any(|sight| is_file(&sight.met))
}

/// Whether a kind is one of these.
pub(crate) fn is_one_of(kinds: &[FileKind], kind: FileKind) -> bool
    ensures { result ≡ is_one_of kinds.now kind }
{
    kinds.iter().any(|one| same_kind(*one, kind))
}

/// Whether any file of these kinds was read.
pub(crate) fn has_files(kinds: &[FileKind], visits: &[Visit]) -> bool
    ensures { result ≡ has_files kinds.now visits.now }
{
    visits.iter().any(|visit| is_one_of(kinds, visit.kind) && has_file(&visit.scan.sights))
}
