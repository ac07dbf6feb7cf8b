//! The lints of a database file, line by line.
ghost use Rattle.std.specs.Prelude.{◌≡◌, ◌++◌, IfOk, OnOk, option_map};
ghost use Rattle.hwdb_core.specs.Lints.{after_clean, after_line, after_pair, clean_lints, database_lints, indented_lints, line_lints, pair_in};
ghost use Rattle.text_bytes.specs.Texts.{unindented};

use crate::before::Before;
use crate::line_lints::{add_match_lints, add_property_lints};
use crate::placed_lint::PlacedLint;
use std::alloc::{AllocError, Global};
use text_bytes::{Line, Lines, begins_with, split_once, trimmed, unindented, up_to};

/// What is reported for a database file besides its faults, by line, and for one line by code.
#[tactic(auto, unfolding(crate::specs::Lints::database_lints))]
pub fn database_lints(alloc: Global, bytes: &[u8]) -> Result<Vec<PlacedLint>, AllocError>
    ensures { IfOk result (λ lints. lints.items ≡ database_lints bytes.now) }
{
    let mut found = Vec::new(alloc);
    let mut before = Before::new(alloc);
    for line in Lines::new(bytes) {
        pass_line(alloc, &mut found, &mut before, &line)?;
    }
    Ok(found)
}

/// Adds the lints of a line, which then comes before the next.
fn pass_line<'a>(
    alloc: Global,
    found: &mut Vec<PlacedLint>,
    before: &mut Before<'a>,
    line: &Line<'a>,
) -> Result<(), AllocError>
    ensures lints { OnOk result (found.new.items ≡ found.old.items ++ line_lints before.old line.now) }
    ensures after { OnOk result (before.new ≡ after_line before.old line.now) }
{
    if begins_with(b'#', line.text()) {
        return Ok(());
    }
    pass_clean(
        alloc,
        found,
        before,
        line,
        trimmed(up_to(b'#', line.text())),
    )
}

/// The same for a line that is no comment, by its clean text.
fn pass_clean<'a>(
    alloc: Global,
    found: &mut Vec<PlacedLint>,
    before: &mut Before<'a>,
    line: &Line<'a>,
    clean: &'a [u8],
) -> Result<(), AllocError>
    ensures lints { OnOk result (found.new.items ≡ found.old.items ++ clean_lints before.old line.now clean.now) }
    ensures after { OnOk result (before.new ≡ after_clean before.old clean.now) }
{
    if clean.is_empty() {
        before.end_record(alloc);
        Ok(())
    } else if begins_with(b' ', clean) {
        pass_property(alloc, found, before, line, clean)
    } else {
        let known = before.add_match(alloc, clean)?;
        add_match_lints(alloc, found, line, clean, known)
    }
}

/// The same for a line that begins with a space.
fn pass_property<'a>(
    alloc: Global,
    found: &mut Vec<PlacedLint>,
    before: &mut Before<'a>,
    line: &Line<'a>,
    clean: &'a [u8],
) -> Result<(), AllocError>
    ensures lints { OnOk result (found.new.items ≡ found.old.items ++ indented_lints before.old line.now clean.now (pair_in (unindented clean.now))) }
    ensures after { OnOk result (before.new ≡ after_pair before.old (pair_in (unindented clean.now))) }
{
    let text = unindented(clean);
    match pair_in(text) {
        Some((key, value)) => {
            let known = before.add_key(key)?;
            let start = clean.len().saturating_sub(text.len());
            add_property_lints(alloc, found, line, start, text, (key, value), known)
        }
        None => Ok(()),
    }
}

/// The key and the value of a property, if the key is not empty.
fn pair_in(text: &[u8]) -> Option<(&[u8], &[u8])>
    ensures { option_map (λ pair. (pair.0.now, pair.1.now)) result ≡ pair_in text.now }
{
    match split_once(b'=', text) {
        Some((key, value)) if !key.is_empty() => Some((key, value)),
        _ => None,
    }
}
