//! What is told about the word at a place.
ghost use Rattle.std.specs.Prelude.{◌≡◌, ◌≤◌, ◌++◌, OnOk, length, option_map};
ghost use Rattle.json.specs.Tree.{json_tokens};
ghost use Rattle.lsp_words.specs.Meanings.{shown as shown_meaning};
ghost use Rattle.lsp_answers.specs.Hovers.{found_at, found_in_comment, hover, markdown, section_found, told_value};
ghost use Rattle.lsp_answers.specs.Queries.{shown};

use crate::documents::kind_of;
use crate::queries::Query;
use crate::spots::{Spot, spot_at, write_row_range};
use file_catalogue::explanation;
use json::Writer;
use lsp_messages::Encoding;
use lsp_words::{CodeWord, Meaning, code_at, meaning_at};
use std::alloc::{AllocError, Global};
use text_bytes::FileKind;
use text_json::write_word;

/// Writes a text as Markdown.
#[tactic(auto, unfolding(crate::specs::Hovers::markdown))]
pub(crate) fn write_markdown(writer: &mut Writer, text: &str) -> Result<(), AllocError>
    ensures tokens { OnOk result (writer.new.tokens ≡ writer.old.tokens ++ json_tokens (markdown text.now)) }
    ensures before { OnOk result (writer.new.before ≡ writer.old.before) }
{
    writer.begin_object()?;
    write_word(writer, "kind", "markdown")?;
    write_word(writer, "value", text)?;
    writer.end_object()?;
    Ok(())
}

/// Writes what is told about a word of a row.
#[tactic(auto, unfolding(crate::specs::Hovers::told_value))]
fn write_told_value(
    writer: &mut Writer,
    encoding: Encoding,
    spot: &Spot<'_>,
    found: Meaning,
) -> Result<(), AllocError>
    ensures tokens { OnOk result (writer.new.tokens ≡ writer.old.tokens ++ json_tokens (told_value encoding spot.now (shown_meaning found))) }
    ensures before { OnOk result (writer.new.before ≡ writer.old.before) }
{
    writer.begin_object()?;
    writer.key("contents")?;
    write_markdown(writer, found.text)?;
    writer.key("range")?;
    write_row_range(
        writer,
        encoding,
        spot.line,
        spot.row,
        found.start,
        found.end,
    )?;
    writer.end_object()?;
    Ok(())
}

/// The section on a code that stands in a row, if there is such a code.
fn section_found(row: &[u8], word: CodeWord) -> Option<Meaning>
    requires ordered { word.start ≤ word.end }
    requires within { word.end ≤ length row.now }
    ensures { option_map shown_meaning result ≡ section_found row.now word }
{
    let text = explanation(&row[word.start..word.end])?;
    Some(Meaning {
        start: word.start,
        end: word.end,
        text,
    })
}

/// What is told about a word in a comment: the section on it, if it is a code.
fn found_in_comment(kind: FileKind, spot: &Spot<'_>) -> Option<Meaning>
    ensures { option_map shown_meaning result ≡ found_in_comment kind spot.now }
{
    let word = code_at(kind, spot.row, spot.at)?;
    section_found(spot.row, word)
}

/// What is told about the word at a place of a row.
#[tactic(auto, unfolding(crate::specs::Hovers::found_at))]
fn found_at(kind: FileKind, spot: &Spot<'_>) -> Option<Meaning>
    ensures { option_map shown_meaning result ≡ found_at kind spot.now }
{
    match meaning_at(kind, spot.row, spot.at) {
        Some(found) => Some(found),
        None => found_in_comment(kind, spot),
    }
}

/// Writes the answer to a request for what a word means: null if nothing is told about it.
#[tactic(auto, unfolding(crate::specs::Hovers::hover))]
pub(crate) fn write_hover(
    alloc: Global,
    writer: &mut Writer,
    encoding: Encoding,
    query: &Query<'_>,
) -> Result<(), AllocError>
    ensures tokens { OnOk result (writer.new.tokens ≡ writer.old.tokens ++ json_tokens (hover encoding (shown query.now))) }
    ensures before { OnOk result (writer.new.before ≡ writer.old.before) }
{
    let spot = spot_at(alloc, encoding, query.text, query.start)?;
    match found_at(kind_of(query.uri.as_bytes()), &spot) {
        Some(found) => write_told_value(writer, encoding, &spot, found),
        None => writer.null(),
    }
}
