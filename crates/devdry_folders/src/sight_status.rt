//! Which files of the folders count.
//!
//! Of files with the same name the one in the folder of least rank counts, and hides the others; one that is empty
//! masks them, as a link to the null device does.
ghost use Rattle.std.specs.Prelude.{◌≡◌, ◌++◌, ◌∷◌, IfOk, [], OnOk, codes, if◌then◌else◌, option_copied};
ghost use Rattle.text_bytes.specs.Text.{Text};
ghost use Rattle.text_bytes.specs.Escapes.{escape_text};
ghost use Rattle.text_bytes.specs.Names.{newline};
ghost use Rattle.text_tables.specs.Pairs.{value_of, with_value};
ghost use Rattle.devdry_folders.specs.SightStatus.{AreByName, AreListed, counting, file_text, sight_status, sights_of, status_lines};
ghost use Rattle.devdry_folders.specs.Unread.{is_file};

use crate::reasons::{push_escaped, push_reason};
use crate::sights::{Met, Sight, Visit};
use crate::unread::is_file;
use std::alloc::{AllocError, Global};
use text_bytes::FileKind;
use text_tables::Table;

/// The sights of each kind, folder by folder.
#[derive(Drop)]
struct ByKind {
    rules: Vec<Sight>,
    database: Vec<Sight>,
}

/// Adds the sights of a visit to those of its kind.
fn push_visit(held: &mut ByKind, mut visit: Visit) -> Result<(), AllocError>
    ensures rules { OnOk result (held.new.rules.items
        ≡ held.old.rules.items ++ sights_of FileKind.Rules (visit ∷ [])) }
    ensures database { OnOk result (held.new.database.items
        ≡ held.old.database.items ++ sights_of FileKind.Hwdb (visit ∷ [])) }
{
    match visit.kind {
        FileKind::Rules => held.rules.append(&mut visit.scan.sights),
        FileKind::Hwdb => held.database.append(&mut visit.scan.sights),
    }
}

/// The sights of visits, by kind.
fn by_kind(alloc: Global, visits: Vec<Visit>) -> Result<ByKind, AllocError>
    ensures rules { IfOk result (λ held. held.rules.items ≡ sights_of FileKind.Rules visits.items) }
    ensures database { IfOk result (λ held.
        held.database.items ≡ sights_of FileKind.Hwdb visits.items) }
{
    let mut held = ByKind {
        rules: Vec::new(alloc),
        database: Vec::new(alloc),
    };
    for visit in visits {
        push_visit(&mut held, visit)?;
    }
    Ok(held)
}

/// The sights by name, and those with the same name in the order of their folders.
fn by_name(mut sights: Vec<Sight>) -> Result<Vec<Sight>, AllocError>
    ensures { IfOk result (λ sorted. AreByName sights.items sorted.items) }
{
    sights.sort_by(|sight, other| sight.name.as_slice().cmp(other.name.as_slice()))?;
    Ok(sights)
}

/// Puts a sight into a table under its name, if it is a file, instead of the one that had it.
fn add_file<'b>(files: &mut Table<'b, &'b Sight>, sight: &'b Sight) -> Result<(), AllocError>
    ensures { OnOk result (files.new ≡ (if is_file sight.now.met
        then with_value files.old sight.now.name sight.entry else files.old)) }
{
    if is_file(&sight.met) {
        files.add(sight.name.as_slice(), sight)?;
    }
    Ok(())
}

/// The files that count among sights, by name: of each name the first file, which is put in last.
fn counting_files<'b>(
    alloc: Global,
    sights: &'b [Sight],
) -> Result<Table<'b, &'b Sight>, AllocError>
    ensures { IfOk result (λ files. (name : Text) →
        option_copied (value_of files name) ≡ counting sights.now name) }
{
    let mut files = Table::new(alloc);
    for sight in sights.iter().rev() {
        add_file(&mut files, sight)?;
    }
    Ok(files)
}

/// Appends what is reported for a file: one that counts is used, or masks those of its name if it is empty.
fn push_file(
    alloc: Global,
    text: &mut Vec<u8>,
    path: &[u8],
    bytes: &[u8],
    first: Option<&Sight>,
) -> Result<(), AllocError>
    ensures { OnOk result (text.new.items ≡ text.old.items
        ++ file_text path.now bytes.now (option_copied first.entry)) }
{
    match first {
        Some(first) if path != first.path.as_slice() => {
            push_escaped(alloc, text, b"hidden by ", first.path.as_slice())
        }
        _ if bytes.is_empty() => text.extend_from_slice(b"masked"),
        _ => text.extend_from_slice(b"used"),
    }
}

/// Appends what is reported for what was met.
fn push_status(
    alloc: Global,
    text: &mut Vec<u8>,
    kind: FileKind,
    sight: &Sight,
    first: Option<&Sight>,
) -> Result<(), AllocError>
    ensures { OnOk result (text.new.items ≡ text.old.items
        ++ sight_status kind sight.now.path (option_copied first.entry) sight.now.met) }
{
    match &sight.met {
        Met::File(bytes) => push_file(alloc, text, sight.path.as_slice(), bytes.as_slice(), first),
        Met::OtherName => {
            let suffix = kind.suffix().as_bytes();
            push_both(text, b"passed over: name does not end in ", suffix)
        }
        Met::Folder => text.extend_from_slice(b"passed over: a folder"),
        Met::Unread(reason) => {
            text.extend_from_slice(b"passed over: ")?;
            push_reason(alloc, text, reason)
        }
    }
}

/// Appends two texts.
fn push_both(text: &mut Vec<u8>, prefix: &[u8], following: &[u8]) -> Result<(), AllocError>
    ensures { OnOk result (text.new.items ≡ text.old.items ++ (prefix.now ++ following.now)) }
{
    text.extend_from_slice(prefix)?;
    text.extend_from_slice(following)
}

/// Adds the line on a sight, by the files that count.
fn push_line(
    alloc: Global,
    lines: &mut Vec<u8>,
    kind: FileKind,
    files: &Table<'_, &Sight>,
    sight: &Sight,
) -> Result<(), AllocError>
    ensures { OnOk result (lines.new.items ≡ lines.old.items
        ++ (escape_text sight.now.path ++ codes ": "
        ++ sight_status kind sight.now.path (option_copied (value_of files.now sight.now.name)) sight.now.met
        ++ newline ∷ [])) }
{
    push_escaped(alloc, lines, b"", sight.path.as_slice())?;
    lines.extend_from_slice(b": ")?;
    let first = files.get(sight.name.as_slice()).copied();
    push_status(alloc, lines, kind, sight, first)?;
    lines.push(b'\n')?;
    Ok(())
}

/// Adds the lines on sights of a kind.
fn push_lines(
    alloc: Global,
    lines: &mut Vec<u8>,
    kind: FileKind,
    sights: &[Sight],
) -> Result<(), AllocError>
    ensures { OnOk result (lines.new.items ≡ lines.old.items ++ status_lines kind sights.now) }
{
    let files = counting_files(alloc, sights)?;
    for sight in sights {
        push_line(alloc, lines, kind, &files, sight)?;
    }
    Ok(())
}

/// The lines on what was met in the folders, those on rules before those on the database, each by name and those
/// with the same name in the order of their folders: `PATH: used`, `PATH: masked`, `PATH: hidden by PATH` or `PATH:
/// passed over: REASON`, with the paths escaped.
pub(crate) fn status_lines(alloc: Global, visits: Vec<Visit>) -> Result<Vec<u8>, AllocError>
    ensures { IfOk result (λ lines. AreListed visits.items lines.items) }
{
    let ByKind { rules, database } = by_kind(alloc, visits)?;
    let rules = by_name(rules)?;
    let database = by_name(database)?;
    let mut lines = Vec::new(alloc);
    push_lines(alloc, &mut lines, FileKind::Rules, &rules)?;
    push_lines(alloc, &mut lines, FileKind::Hwdb, &database)?;
    Ok(lines)
}
