//! Labels and their jumps.
ghost use Rattle.std.specs.Prelude.{◌≡◌, ◌++◌, IfOk, OnOk, map, option_copied};
ghost use Rattle.json.specs.Tree.{json_tokens};
ghost use Rattle.text_json.specs.Listed.{value_tokens};
ghost use Rattle.lsp_answers.specs.Labels.{definition, label_asked, location_value, mark_asked, marks_asked, marks_in, references, row_numbered};
ghost use Rattle.lsp_answers.specs.Documents.{kind_of};
ghost use Rattle.lsp_answers.specs.Queries.{shown};
ghost use Rattle.lsp_messages.specs.Rows.{rows_of};

use crate::documents::kind_of;
use crate::queries::Query;
use crate::spots::{spot_at, write_row_range};
use json::Writer;
use lsp_messages::{Encoding, Rows};
use lsp_words::{Mark, definition_of, mark_at, marks_of, references_of};
use std::alloc::{AllocError, Global};
use text_bytes::FileKind;
use text_json::write_word;

/// All rows of a text, each without its end.
pub(crate) fn rows_of<'t>(alloc: Global, text: &'t [u8]) -> Result<Vec<&'t [u8]>, AllocError>
    ensures { IfOk result (λ rows. map (λ r. r.now) rows.items ≡ rows_of text.now) }
{
    Rows::new(alloc, text)?.all(alloc)
}

/// A row by its number, counted from 0; empty if there is none.
pub(crate) fn row_numbered<'t>(rows: &[&'t [u8]], line: u32) -> &'t [u8]
    ensures { result.now ≡ row_numbered (map (λ r. r.now) rows.now) line }
{
    match rows.get(line as usize) {
        Some(row) => row,
        None => b"",
    }
}

/// Writes where a label is named.
#[tactic(auto, unfolding(crate::specs::Labels::location_value))]
fn write_location(
    writer: &mut Writer,
    encoding: Encoding,
    uri: &str,
    rows: &[&[u8]],
    mark: &Mark<'_>,
) -> Result<(), AllocError>
    ensures tokens { OnOk result (writer.new.tokens
        ≡ writer.old.tokens ++ json_tokens (location_value encoding uri.now (map (λ r. r.now) rows.now) mark.now)) }
    ensures before { OnOk result (writer.new.before ≡ writer.old.before) }
{
    let row = row_numbered(rows, mark.line());
    writer.begin_object()?;
    write_word(writer, "uri", uri)?;
    writer.key("range")?;
    write_row_range(writer, encoding, mark.line(), row, mark.start(), mark.end())?;
    writer.end_object()
}

/// The labels and the jumps of a document: those of rules.
fn marks_in<'t>(alloc: Global, uri: &str, rows: &[&'t [u8]]) -> Result<Vec<Mark<'t>>, AllocError>
    ensures { IfOk result (λ marks. marks.items ≡ marks_in (kind_of uri.now) (map (λ r. r.now) rows.now)) }
{
    match kind_of(uri.as_bytes()) {
        FileKind::Rules => marks_of(alloc, rows),
        FileKind::Hwdb => Ok(Vec::new(alloc)),
    }
}

/// The label or the jump that a query is about.
fn mark_asked<'m, 't>(
    alloc: Global,
    encoding: Encoding,
    query: &Query<'_>,
    marks: &'m [Mark<'t>],
) -> Result<Option<&'m Mark<'t>>, AllocError>
    ensures { IfOk result (λ mark. option_copied mark ≡ mark_asked encoding (shown query.now) marks.now) }
{
    let spot = spot_at(alloc, encoding, query.text, query.start)?;
    Ok(mark_at(marks, spot.line, spot.at))
}

/// The label that a jump goes to, or the label itself that a query is about.
fn label_asked<'m, 't>(
    alloc: Global,
    encoding: Encoding,
    query: &Query<'_>,
    marks: &'m [Mark<'t>],
) -> Result<Option<&'m Mark<'t>>, AllocError>
    ensures { IfOk result (λ mark. option_copied mark ≡ label_asked encoding (shown query.now) marks.now) }
{
    match mark_asked(alloc, encoding, query, marks)? {
        Some(mark) => Ok(definition_of(marks, mark)),
        None => Ok(None),
    }
}

/// Writes the answer to a request for the label of a jump: null if there is none.
#[tactic(auto, unfolding(crate::specs::Labels::definition))]
pub(crate) fn write_definition(
    alloc: Global,
    writer: &mut Writer,
    encoding: Encoding,
    query: &Query<'_>,
) -> Result<(), AllocError>
    ensures tokens { OnOk result (writer.new.tokens ≡ writer.old.tokens ++ json_tokens (definition encoding (shown query.now))) }
    ensures before { OnOk result (writer.new.before ≡ writer.old.before) }
{
    let rows = rows_of(alloc, query.text)?;
    let marks = marks_in(alloc, query.uri, &rows)?;
    match label_asked(alloc, encoding, query, &marks)? {
        Some(mark) => write_location(writer, encoding, query.uri, &rows, mark),
        None => writer.null(),
    }
}

/// The jumps to a label, and the labels of its name if they are asked for.
fn marks_asked<'m, 't>(
    alloc: Global,
    encoding: Encoding,
    query: &Query<'_>,
    marks: &'m [Mark<'t>],
) -> Result<Vec<&'m Mark<'t>>, AllocError>
    ensures { IfOk result (λ found. map (λ m. m.now) found.items ≡ marks_asked encoding (shown query.now) marks.now) }
{
    match mark_asked(alloc, encoding, query, marks)? {
        Some(mark) => references_of(alloc, marks, mark, query.declaration),
        None => Ok(Vec::new(alloc)),
    }
}

/// Writes where labels are named, one after another.
fn write_locations(
    writer: &mut Writer,
    encoding: Encoding,
    uri: &str,
    rows: &[&[u8]],
    marks: &[&Mark<'_>],
) -> Result<(), AllocError>
    ensures tokens { OnOk result (writer.new.tokens ≡ writer.old.tokens
        ++ value_tokens (map (location_value encoding uri.now (map (λ r. r.now) rows.now)) (map (λ m. m.now) marks.now))) }
    ensures before { OnOk result (writer.new.before ≡ writer.old.before) }
{
    for mark in marks {
        write_location(writer, encoding, uri, rows, mark)?;
    }
    Ok(())
}

/// Writes the answer to a request for where a label is named.
#[tactic(auto, unfolding(crate::specs::Labels::references))]
pub(crate) fn write_references(
    alloc: Global,
    writer: &mut Writer,
    encoding: Encoding,
    query: &Query<'_>,
) -> Result<(), AllocError>
    ensures tokens { OnOk result (writer.new.tokens ≡ writer.old.tokens ++ json_tokens (references encoding (shown query.now))) }
    ensures before { OnOk result (writer.new.before ≡ writer.old.before) }
{
    let rows = rows_of(alloc, query.text)?;
    let marks = marks_in(alloc, query.uri, &rows)?;
    let found = marks_asked(alloc, encoding, query, &marks)?;
    writer.begin_array()?;
    write_locations(writer, encoding, query.uri, &rows, &found)?;
    writer.end_array()?;
    Ok(())
}
