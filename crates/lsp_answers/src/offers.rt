//! The names that a word may become.
ghost use Rattle.std.specs.Prelude.{◌≡◌, ◌++◌, OnOk, map};
ghost use Rattle.json.specs.Tree.{json_tokens};
ghost use Rattle.text_json.specs.Listed.{value_tokens};
ghost use Rattle.lsp_words.specs.Entries.{row_of};
ghost use Rattle.lsp_words.specs.Completions.{offered};
ghost use Rattle.lsp_answers.specs.Offers.{completion, item_kind, name_edit, offered_name};
ghost use Rattle.lsp_answers.specs.Queries.{shown};

use crate::documents::kind_of;
use crate::hovers::write_markdown;
use crate::queries::Query;
use crate::spots::{Spot, front, spot_at, write_row_range};
use json::Writer;
use lsp_messages::Encoding;
use lsp_words::{Completions, Entry, WordKind, completions_at};
use std::alloc::{AllocError, Global};
use text_json::{write_number, write_word};

/// The number by which the protocol knows a kind of words.
fn item_kind(kind: WordKind) -> u32
    ensures { result ≡ item_kind kind }
{
    match kind {
        WordKind::Key => 14,
        WordKind::Operator => 24,
        WordKind::Attribute | WordKind::Property | WordKind::DatabaseProperty => 10,
        WordKind::Builtin => 3,
        WordKind::Substitution | WordKind::Letter => 6,
        _ => 12,
    }
}

/// Writes the edit that puts a name in the place of what is typed of it.
#[tactic(auto, unfolding(crate::specs::Offers::name_edit))]
fn write_name_edit(
    writer: &mut Writer,
    encoding: Encoding,
    spot: &Spot<'_>,
    start: usize,
    name: &str,
) -> Result<(), AllocError>
    ensures tokens { OnOk result (writer.new.tokens ≡ writer.old.tokens ++ json_tokens (name_edit encoding spot.now start name.now)) }
    ensures before { OnOk result (writer.new.before ≡ writer.old.before) }
{
    writer.begin_object()?;
    writer.key("range")?;
    write_row_range(writer, encoding, spot.line, spot.row, start, spot.at)?;
    write_word(writer, "newText", name)?;
    writer.end_object()
}

/// Writes a name that a word may become, with what it means.
#[tactic(auto, unfolding(crate::specs::Offers::offered_name))]
fn write_offered_name(
    writer: &mut Writer,
    encoding: Encoding,
    spot: &Spot<'_>,
    offer: &Completions,
    entry: &Entry,
) -> Result<(), AllocError>
    ensures tokens { OnOk result (writer.new.tokens
        ≡ writer.old.tokens ++ json_tokens (offered_name encoding spot.now (offered offer.now) (row_of entry.now))) }
    ensures before { OnOk result (writer.new.before ≡ writer.old.before) }
{
    let (name, text) = *entry;
    writer.begin_object()?;
    write_word(writer, "label", name)?;
    write_number(writer, "kind", item_kind(offer.kind))?;
    writer.key("documentation")?;
    write_markdown(writer, text)?;
    writer.key("textEdit")?;
    write_name_edit(writer, encoding, spot, offer.start, name)?;
    writer.end_object()?;
    Ok(())
}

/// Writes some of the names that a word may become, one after another.
fn write_part(
    writer: &mut Writer,
    encoding: Encoding,
    spot: &Spot<'_>,
    offer: &Completions,
    part: &[Entry],
) -> Result<(), AllocError>
    ensures tokens { OnOk result (writer.new.tokens
        ≡ writer.old.tokens ++ value_tokens (map (offered_name encoding spot.now (offered offer.now)) (map row_of part.now))) }
    ensures before { OnOk result (writer.new.before ≡ writer.old.before) }
{
    for entry in part {
        write_offered_name(writer, encoding, spot, offer, entry)?;
    }
    Ok(())
}

/// Writes all names that a word may become, one after another.
fn write_offered_names(
    writer: &mut Writer,
    encoding: Encoding,
    spot: &Spot<'_>,
    offer: &Completions,
) -> Result<(), AllocError>
    ensures tokens { OnOk result (writer.new.tokens
        ≡ writer.old.tokens ++ value_tokens (map (offered_name encoding spot.now (offered offer.now)) (offered offer.now).rows)) }
    ensures before { OnOk result (writer.new.before ≡ writer.old.before) }
{
    let [first, second, third] = offer.entries;
    write_part(writer, encoding, spot, offer, first)?;
    write_part(writer, encoding, spot, offer, second)?;
    write_part(writer, encoding, spot, offer, third)
}

/// Writes the answer to a request for the names that may stand at a place.
#[tactic(auto, unfolding(crate::specs::Offers::completion))]
pub(crate) fn write_completion(
    alloc: Global,
    writer: &mut Writer,
    encoding: Encoding,
    query: &Query<'_>,
) -> Result<(), AllocError>
    ensures tokens { OnOk result (writer.new.tokens ≡ writer.old.tokens ++ json_tokens (completion encoding (shown query.now))) }
    ensures before { OnOk result (writer.new.before ≡ writer.old.before) }
{
    let spot = spot_at(alloc, encoding, query.text, query.start)?;
    writer.begin_array()?;
    if let Some(offer) = completions_at(kind_of(query.uri.as_bytes()), front(spot.row, spot.at)) {
        write_offered_names(writer, encoding, &spot, &offer)?;
    }
    writer.end_array()?;
    Ok(())
}
