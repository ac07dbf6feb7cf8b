//! Reading paragraphs and files.
//!
//! A paragraph's lines are collected until it ends, and then each of its four parts is read by a
//! function of its own.

ghost use Rattle.std.specs.Prelude.{◌≡◌, List, OnOk, false, if◌then◌else◌, is_ok, length};
ghost use Rattle.text_core.specs.declared.item.Item.{Item};
ghost use Rattle.hwdb_core.specs.Ruling.{IsPassed};
ghost use Rattle.std.specs.List.{list_any};
ghost use Rattle.text_bytes.specs.Text.{Text};
ghost use Rattle.hwdb_core.specs.Paragraphs.{cut};
ghost use Rattle.hwdb_core.specs.Properties.{pair_of};
ghost use Rattle.hwdb_core.specs.Found.{Adds, counts, found_in};
ghost use Rattle.hwdb_core.specs.Parts.{bare_found, cut_found, early_found, file_found, match_found, pair_found, property_found, rest_found};

use crate::fault::HwdbFault;
use crate::gathered::Gathered;
use crate::lines::{cleaned, property_text};
use crate::paragraph::{pair_of, parts_of};
use file_messages::MessageKind;
use std::alloc::Global;
use text_bytes::{Line, Lines, SourceFile, begins_with};
use text_core::{GlobFault, PackedPattern};

/// Reads a file.
pub(crate) fn read_file(
    alloc: Global,
    found: &mut Gathered,
    file: &SourceFile,
) -> Result<(), HwdbFault>
    ensures { Adds found.old found.new (file_found file.now) result }
{
    let name = file.name.as_slice();
    let mut open = Vec::new(alloc);
    for line in Lines::new(file.bytes.as_slice()) {
        if begins_with(b'#', line.text()) {
            continue;
        }
        let line = cleaned(&line);
        if line.text().is_empty() {
            read_paragraph(alloc, found, name, &open)?;
            open.clear();
        } else {
            open.push(line)?;
        }
    }
    read_paragraph(alloc, found, name, &open)
}

/// Reads the lines of a paragraph.
fn read_paragraph(
    alloc: Global,
    found: &mut Gathered,
    file: &[u8],
    lines: &[Line<'_>],
) -> Result<(), HwdbFault>
    ensures { Adds found.old found.new (cut_found file.now (cut lines.now)) result }
{
    let parts = parts_of(lines);
    read_early(alloc, found, file, parts.early)?;
    read_bare(alloc, found, file, parts.matches, parts.properties)?;
    read_matches(alloc, found, file, parts.matches, parts.properties)?;
    read_properties(alloc, found, file, parts.properties)?;
    read_rest(alloc, found, file, parts.rest)
}

/// Reports the properties that no match comes before.
fn read_early(
    alloc: Global,
    found: &mut Gathered,
    file: &[u8],
    early: &[Line<'_>],
) -> Result<(), HwdbFault>
    ensures { Adds found.old found.new (found_in (early_found file.now) early.now) result }
{
    for line in early {
        let kind = MessageKind::PropertyWithoutMatch;
        found.report(alloc, file, line.number(), kind, property_text(line))?;
    }
    Ok(())
}

/// Reports matches that no property line follows.
fn read_bare(
    alloc: Global,
    found: &mut Gathered,
    file: &[u8],
    matches: &[Line<'_>],
    properties: &[Line<'_>],
) -> Result<(), HwdbFault>
    ensures { Adds found.old found.new (bare_found file.now matches.now properties.now) result }
{
    match matches.first() {
        Some(line) if properties.is_empty() => {
            let kind = MessageKind::MatchWithoutProperty;
            found.report(alloc, file, line.number(), kind, line.text())
        }
        _ => Ok(()),
    }
}

/// Reads the matches, each with the properties.
fn read_matches(
    alloc: Global,
    found: &mut Gathered,
    file: &[u8],
    matches: &[Line<'_>],
    properties: &[Line<'_>],
) -> Result<(), HwdbFault>
    ensures { Adds found.old found.new (found_in (match_found file.now properties.now) matches.now) result }
{
    for line in matches {
        read_match(alloc, found, file, line, properties)?;
    }
    Ok(())
}

/// Reads a match: the entries that it gives, or a message if it is not a pattern.
fn read_match(
    alloc: Global,
    found: &mut Gathered,
    file: &[u8],
    line: &Line<'_>,
    properties: &[Line<'_>],
) -> Result<(), HwdbFault>
    ensures { Adds found.old found.new (match_found file.now properties.now line.now) result }
{
    if found.passes_over(line.text()) {
        return pass_over(found, line, properties);
    }
    match PackedPattern::read(alloc, line.text()) {
        Ok(pattern) => {
            found.count_match(used_len(line, properties))?;
            read_pairs(alloc, found, file, pattern, properties)
        }
        Err(GlobFault::Memory) => Err(HwdbFault::Memory),
        Err(_) => {
            let kind = MessageKind::PatternNotSupported;
            found.report(alloc, file, line.number(), kind, line.text())
        }
    }
}

/// Counts a match whose entries do not count, and those entries.
fn pass_over(
    found: &mut Gathered,
    line: &Line<'_>,
    properties: &[Line<'_>],
) -> Result<(), HwdbFault>
    ensures { (file : Text) → IsPassed found.old.wanted line.now.text → Adds found.old found.new (match_found file properties.now line.now) result }
{
    found.count_match(used_len(line, properties))?;
    count_pairs(found, properties)
}

/// Counts the entries that properties give a pattern whose entries do not count.
fn count_pairs(found: &mut Gathered, properties: &[Line<'_>]) -> Result<(), HwdbFault>
    ensures { (file : Text) (pattern : List Item) → counts found.old.wanted pattern ≡ false
        → Adds found.old found.new (found_in (pair_found file pattern) properties.now) result }
{
    for line in properties {
        count_pair(found, line)?;
    }
    Ok(())
}

/// Counts the entry that a property gives a pattern whose entries do not count, if nothing is wrong with the
/// property.
fn count_pair(found: &mut Gathered, line: &Line<'_>) -> Result<(), HwdbFault>
    ensures added { (file : Text) (pattern : List Item) → counts found.old.wanted pattern ≡ false
        → Adds found.old found.new (pair_found file pattern line.now) result }
    ensures wanted { OnOk result (found.new.wanted ≡ found.old.wanted) }
{
    match pair_of(line) {
        Ok(pair) => found.count_entry(pair.key.len() + pair.value.len()),
        Err(_) => Ok(()),
    }
}

/// Adds the entries that properties give a pattern. The last one takes the pattern itself and the others copies, as
/// mostly there is only one.
fn read_pairs(
    alloc: Global,
    found: &mut Gathered,
    file: &[u8],
    pattern: PackedPattern,
    properties: &[Line<'_>],
) -> Result<(), HwdbFault>
    ensures { Adds found.old found.new (found_in (pair_found file.now pattern) properties.now) result }
{
    match properties.split_last() {
        None => Ok(()),
        Some((last, others)) => {
            read_copies(alloc, found, file, &pattern, others)?;
            read_pair(alloc, found, file, pattern, last)
        }
    }
}

/// Adds the entries that properties give copies of a pattern.
fn read_copies(
    alloc: Global,
    found: &mut Gathered,
    file: &[u8],
    pattern: &PackedPattern,
    properties: &[Line<'_>],
) -> Result<(), HwdbFault>
    ensures { Adds found.old found.new (found_in (pair_found file.now pattern.now) properties.now) result }
{
    for line in properties {
        let own = pattern.copy(alloc)?;
        read_pair(alloc, found, file, own, line)?;
    }
    Ok(())
}

/// Adds the entry that a property gives a pattern, if nothing is wrong with it.
fn read_pair(
    alloc: Global,
    found: &mut Gathered,
    file: &[u8],
    pattern: PackedPattern,
    line: &Line<'_>,
) -> Result<(), HwdbFault>
    ensures { Adds found.old found.new (pair_found file.now pattern line.now) result }
{
    match pair_of(line) {
        Ok(pair) => found.add_entry(alloc, file, pattern, line.number(), &pair),
        Err(_) => Ok(()),
    }
}

/// Reports the properties with which something is wrong.
fn read_properties(
    alloc: Global,
    found: &mut Gathered,
    file: &[u8],
    properties: &[Line<'_>],
) -> Result<(), HwdbFault>
    ensures { Adds found.old found.new (found_in (property_found file.now) properties.now) result }
{
    for line in properties {
        read_property(alloc, found, file, line)?;
    }
    Ok(())
}

/// Reports what is wrong with a property, if something is.
fn read_property(
    alloc: Global,
    found: &mut Gathered,
    file: &[u8],
    line: &Line<'_>,
) -> Result<(), HwdbFault>
    ensures { Adds found.old found.new (property_found file.now line.now) result }
{
    match pair_of(line) {
        Ok(_) => Ok(()),
        Err(kind) => found.report(alloc, file, line.number(), kind, property_text(line)),
    }
}

/// Reports the line after the properties that is not indented.
fn read_rest(
    alloc: Global,
    found: &mut Gathered,
    file: &[u8],
    rest: &[Line<'_>],
) -> Result<(), HwdbFault>
    ensures { Adds found.old found.new (rest_found file.now rest.now) result }
{
    match rest.first() {
        None => Ok(()),
        Some(line) => {
            let kind = MessageKind::UnindentedLine;
            found.report(alloc, file, line.number(), kind, line.text())
        }
    }
}

/// How many bytes a match counts for if it is a pattern: all of its own if it gives an entry, else none.
fn used_len(line: &Line<'_>, properties: &[Line<'_>]) -> usize
    ensures { result ≡ (if list_any (λ q. is_ok (pair_of q)) properties.now then length line.now.text else 0) }
{
    if has_pair(properties) {
        line.text().len()
    } else {
        0
    }
}

/// Whether nothing is wrong with some property.
fn has_pair(properties: &[Line<'_>]) -> bool
    ensures { result ≡ list_any (λ q. is_ok (pair_of q)) properties.now }
{
    properties.iter().any(|line| pair_of(line).is_ok())
}
