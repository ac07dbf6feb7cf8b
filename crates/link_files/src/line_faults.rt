//! The faults of a line.
ghost use Rattle.std.specs.Prelude.{◌≡◌, ◌++◌, OnOk, option_map};
ghost use Rattle.link_files.specs.Faults.{key_faults, line_faults, parts_faults, section_after, section_faults};

use crate::fault::LinkFault;
use crate::joined::JoinedLine;
use crate::lines::stripped;
use crate::placed_fault::{PlacedFault, add, add_bad_line, start_of};
use crate::sections::{Section, form_of, section_named};
use crate::settings::section_of;
use crate::values::takes;
use std::alloc::{AllocError, Global};
use text_bytes::{begins_with, is_utf8, split_once};

/// Adds the fault of a line that begins with `[`, by the name of the section in it.
fn add_section_faults(
    alloc: Global,
    found: &mut Vec<PlacedFault>,
    line: &JoinedLine,
    name: Option<&[u8]>,
) -> Result<(), AllocError>
    ensures { OnOk result (found.new.items ≡ found.old.items ++ section_faults line.now (option_map (λ n. n.now) name.entry)) }
{
    let Some(name) = name else {
        return add_bad_line(alloc, found, line);
    };
    if !matches!(section_named(name), Section::Unknown) || name.starts_with(b"X-") {
        return Ok(());
    }
    let start = start_of(line).saturating_add(1);
    add(alloc, found, line, LinkFault::UnknownSection, start, name)
}

/// Adds the fault of a key and its value, by the form that the section has for the key.
fn add_key_faults(
    alloc: Global,
    found: &mut Vec<PlacedFault>,
    section: Section,
    line: &JoinedLine,
    key: &[u8],
    value: &[u8],
) -> Result<(), AllocError>
    ensures { OnOk result (found.new.items ≡ found.old.items ++ key_faults section line.now key.now value.now) }
{
    if key.is_empty() {
        return add_bad_line(alloc, found, line);
    }
    let start = start_of(line);
    let Some(form) = form_of(section, key) else {
        if key.starts_with(b"X-") {
            return Ok(());
        }
        return add(alloc, found, line, LinkFault::UnknownKey, start, key);
    };
    if takes(alloc, form, value)? {
        return Ok(());
    }
    let before = stripped(&line.text).len().saturating_sub(value.len());
    let start = start.saturating_add(before);
    add(alloc, found, line, LinkFault::BadValue, start, value)
}

/// Adds the fault of an assignment in a known section, by the parts around its first `=`.
fn add_parts_faults(
    alloc: Global,
    found: &mut Vec<PlacedFault>,
    section: Section,
    line: &JoinedLine,
    parts: Option<(&[u8], &[u8])>,
) -> Result<(), AllocError>
    ensures { OnOk result (found.new.items ≡ found.old.items ++ parts_faults section line.now (option_map (λ p. (p.0.now, p.1.now)) parts.entry)) }
{
    match parts {
        Some((key, value)) => {
            add_key_faults(alloc, found, section, line, stripped(key), stripped(value))
        }
        None => add_bad_line(alloc, found, line),
    }
}

/// Adds the faults of a line in a section.
#[tactic(auto, unfolding(crate::specs::Faults::line_faults))]
pub(crate) fn add_line_faults(
    alloc: Global,
    found: &mut Vec<PlacedFault>,
    section: Section,
    line: &JoinedLine,
) -> Result<(), AllocError>
    ensures { OnOk result (found.new.items ≡ found.old.items ++ line_faults section line.now) }
{
    let text = stripped(&line.text);
    if text.is_empty() {
        return Ok(());
    }
    if !is_utf8(text) {
        return add_bad_line(alloc, found, line);
    }
    if begins_with(b'[', text) {
        return add_section_faults(alloc, found, line, section_of(text));
    }
    match section {
        Section::Before => add_bad_line(alloc, found, line),
        Section::Unknown => Ok(()),
        _ => add_parts_faults(alloc, found, section, line, split_once(b'=', text)),
    }
}

/// The section after a line; if it begins one whose name can't be read, what follows is skipped.
#[tactic(auto, unfolding(crate::specs::Faults::section_after))]
pub(crate) fn section_after(section: Section, line: &JoinedLine) -> Section
    ensures { result ≡ section_after section line.now }
{
    let text = stripped(&line.text);
    if !begins_with(b'[', text) {
        return section;
    }
    match section_of(text) {
        Some(name) => section_named(name),
        None => Section::Unknown,
    }
}
