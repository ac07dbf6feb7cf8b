//! The answer to a modalias as lines.
ghost use Rattle.std.specs.Prelude.{◌≡◌, ◌++◌, map, flat_map, IfOk, OnOk};
ghost use Rattle.trie_nodes.specs.Query.{shown, shown_origin};
ghost use Rattle.engine_reports.specs.Answers.{answer_lines, origin_line, origin_of, pair_line, property_line};

use engine_sessions::push_place;
use std::alloc::{AllocError, Global};
use trie_nodes::{Lookup, Sourced};

/// The lines that answer a modalias, sorted by key: `KEY=VALUE`, and with `sources` the file and
/// line of each property before it.
#[tactic(auto, unfolding(crate::specs::Answers::answer_lines))]
pub fn answer_lines<L: Lookup>(
    alloc: Global,
    database: &L,
    modalias: &[u8],
    sources: bool,
) -> Result<Vec<u8>, AllocError>
    ensures { IfOk result (λ text. text.items ≡ answer_lines sources (L.entries database.now) modalias.now) }
{
    if sources {
        let found = database.query_sources(alloc, modalias)?;
        origin_lines(alloc, &found)
    } else {
        let found = database.query(alloc, modalias)?;
        pair_lines(alloc, &found)
    }
}

/// The lines of pairs of a key and its value.
fn pair_lines(alloc: Global, pairs: &[(&[u8], &[u8])]) -> Result<Vec<u8>, AllocError>
    ensures { IfOk result (λ text. text.items ≡ flat_map pair_line (shown pairs.now)) }
{
    let mut text = Vec::new(alloc);
    for (key, value) in pairs {
        push_property(&mut text, key, value)?;
    }
    Ok(text)
}

/// The lines of properties, each after where it comes from.
fn origin_lines(alloc: Global, found: &[Sourced<'_>]) -> Result<Vec<u8>, AllocError>
    ensures { IfOk result (λ text. text.items ≡ flat_map origin_line (map shown_origin found.now)) }
{
    let mut text = Vec::new(alloc);
    for property in found {
        push_sourced(alloc, &mut text, property)?;
    }
    Ok(text)
}

/// Appends a property's line, with where it comes from before it.
#[tactic(auto, unfolding(crate::specs::Answers::origin_line))]
fn push_sourced(alloc: Global, text: &mut Vec<u8>, property: &Sourced<'_>) -> Result<(), AllocError>
    ensures { OnOk result (text.new.items ≡ text.old.items ++ origin_line (shown_origin property.now)) }
{
    push_origin(alloc, text, property.file, property.line)?;
    push_property(text, property.key, property.value)
}

/// Appends `FILE:LINE: `, or `-: ` if no file is known.
fn push_origin(alloc: Global, text: &mut Vec<u8>, file: &[u8], line: u32) -> Result<(), AllocError>
    ensures { OnOk result (text.new.items ≡ text.old.items ++ origin_of file.now line) }
{
    if file.is_empty() {
        text.extend_from_slice(b"-: ")
    } else {
        push_place(alloc, text, file, line)
    }
}

/// Appends `KEY=VALUE` and a newline, neither of the two escaped.
#[tactic(auto, unfolding(crate::specs::Answers::property_line))]
fn push_property(text: &mut Vec<u8>, key: &[u8], value: &[u8]) -> Result<(), AllocError>
    ensures { OnOk result (text.new.items ≡ text.old.items ++ property_line key.now value.now) }
{
    text.extend_from_slice(key)?;
    text.push(b'=')?;
    text.extend_from_slice(value)?;
    text.push(b'\n')?;
    Ok(())
}
