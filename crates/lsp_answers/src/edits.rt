//! Edits of documents.
ghost use Rattle.std.specs.Prelude.{◌≡◌, ◌++◌, if◌then◌else◌, IfOk, None, OnOk, Some, option_map, string_bytes, true};
ghost use Rattle.std.specs.Str.{is_utf8};
ghost use Rattle.json.specs.Tree.{json_tokens};
ghost use Rattle.lsp_answers.specs.Edits.{changes, formatting, mended_text, whole_edit};
ghost use Rattle.lsp_answers.specs.Queries.{shown};

use crate::documents::kind_of;
use crate::queries::Query;
use json::Writer;
use lsp_messages::{Encoding, Position, Rows, write_range};
use rule_places::mended_rules;
use std::alloc::{AllocError, Global};
use text_bytes::{FileKind, is_utf8};

/// Writes the edit that puts a text in the place of a whole one.
#[tactic(auto, unfolding(crate::specs::Edits::whole_edit))]
pub(crate) fn write_whole_edit(
    alloc: Global,
    writer: &mut Writer,
    encoding: Encoding,
    text: &[u8],
    new: &str,
) -> Result<(), AllocError>
    ensures tokens { OnOk result (writer.new.tokens ≡ writer.old.tokens ++ json_tokens (whole_edit encoding text.now new.now)) }
    ensures before { OnOk result (writer.new.before ≡ writer.old.before) }
{
    let origin = Position {
        line: 0,
        character: 0,
    };
    let end = Rows::new(alloc, text)?.position(encoding, text.len());
    writer.begin_object()?;
    writer.key("range")?;
    write_range(writer, origin, end)?;
    writer.key("newText")?;
    writer.string(new)?;
    writer.end_object()
}

/// Whether a text is UTF-8, and not another one.
fn changes(text: &[u8], new: &[u8]) -> bool
    ensures { result ≡ changes text.now new.now }
{
    is_utf8(new) && text != new
}

/// A text of UTF-8 as a string.
fn told(alloc: Global, new: &[u8]) -> Result<String, AllocError>
    requires { is_utf8 new.now ≡ true }
    ensures { IfOk result (λ told. string_bytes told ≡ new.now) }
{
    let told = String::from_utf8_lossy(alloc, new)?;
    Ok(told)
}

/// A text in the place of another one, if it is UTF-8 and not the same.
fn changed(alloc: Global, text: &[u8], new: &[u8]) -> Result<Option<String>, AllocError>
    ensures { IfOk result (λ told. option_map string_bytes told ≡ (if changes text.now new.now then Some new.now else None)) }
{
    if changes(text, new) {
        Ok(Some(told(alloc, new)?))
    } else {
        Ok(None)
    }
}

/// A document with its style mended, if that changes it: rules are mended as `fmt` does.
pub(crate) fn mended_text(
    alloc: Global,
    uri: &str,
    text: &[u8],
) -> Result<Option<String>, AllocError>
    ensures { IfOk result (λ new. option_map string_bytes new ≡ mended_text uri.now text.now) }
{
    match kind_of(uri.as_bytes()) {
        FileKind::Rules => changed(alloc, text, mended_rules(alloc, text)?.as_slice()),
        FileKind::Hwdb => Ok(None),
    }
}

/// Writes the answer to a request for formatting.
#[tactic(auto, unfolding(crate::specs::Edits::formatting))]
pub(crate) fn write_formatting(
    alloc: Global,
    writer: &mut Writer,
    encoding: Encoding,
    query: &Query<'_>,
) -> Result<(), AllocError>
    ensures tokens { OnOk result (writer.new.tokens ≡ writer.old.tokens ++ json_tokens (formatting encoding (shown query.now))) }
    ensures before { OnOk result (writer.new.before ≡ writer.old.before) }
{
    writer.begin_array()?;
    if let Some(new) = mended_text(alloc, query.uri, query.text)? {
        write_whole_edit(alloc, writer, encoding, query.text, &new)?;
    }
    writer.end_array()?;
    Ok(())
}
