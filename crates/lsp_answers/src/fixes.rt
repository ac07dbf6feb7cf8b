//! What mends a document in the place of a diagnostic.
ghost use Rattle.std.specs.Prelude.{◌≡◌, ◌++◌, ◌∷◌, [], IfOk, OnOk, codes, flat_map, map, option_map};
ghost use Rattle.engine_formats.specs.Diagnostics.{shown};
ghost use Rattle.json.specs.Tree.{json_tokens};
ghost use Rattle.text_json.specs.Listed.{value_tokens};
ghost use Rattle.lsp_answers.specs.Begun.{action_begins, action_ends};
ghost use Rattle.lsp_answers.specs.Documents.{file_of, rules_diagnostics};
ghost use Rattle.lsp_answers.specs.Fixes.{action, fix_with, fixes, fixes_of, is_in_rows, key_meant, name_edit};

use crate::documents::{file_of, kind_of};
use crate::settings::Settings;
use crate::writing::write_diagnostic_range;
use engine_checks::{FileRead, diagnostics_of_rules};
use engine_formats::{Diagnostic, meant_as};
use file_catalogue::Remark;
use file_messages::MessageKind;
use json::Writer;
use lsp_messages::Encoding;
use rule_core::file_as_read;
use std::alloc::{AllocError, Global};
use text_bytes::FileKind;
use text_json::{write_told, write_word};

/// Begins an action that makes edits of a document: the edits have to follow, and then `end_action`.
#[tactic(auto, unfolding(crate::specs::Begun::action_begins))]
pub(crate) fn begin_action(
    alloc: Global,
    writer: &mut Writer,
    title: &[u8],
    uri: &str,
) -> Result<(), AllocError>
    ensures tokens { OnOk result (writer.new.tokens ≡ writer.old.tokens ++ action_begins title.now uri.now) }
    ensures before { OnOk result (writer.new.before ≡ writer.old.before) }
{
    writer.begin_object()?;
    write_told(alloc, writer, "title", title)?;
    write_word(writer, "kind", "quickfix")?;
    writer.key("edit")?;
    writer.begin_object()?;
    writer.key("changes")?;
    writer.begin_object()?;
    writer.key(uri)?;
    writer.begin_array()?;
    Ok(())
}

/// Ends an action.
pub(crate) fn end_action(writer: &mut Writer) -> Result<(), AllocError>
    ensures tokens { OnOk result (writer.new.tokens ≡ writer.old.tokens ++ action_ends) }
    ensures before { OnOk result (writer.new.before ≡ writer.old.before) }
{
    writer.end_array()?;
    writer.end_object()?;
    writer.end_object()?;
    writer.end_object()?;
    Ok(())
}

/// The known key that an unknown one may have been meant as.
fn key_meant(
    alloc: Global,
    diagnostic: &Diagnostic<'_>,
) -> Result<Option<&'static [u8]>, AllocError>
    ensures { IfOk result (λ name. option_map (λ n. n.now) name ≡ key_meant (shown diagnostic.now)) }
{
    match diagnostic.remark {
        Remark::Message(MessageKind::UnknownKey) => {
            meant_as(alloc, diagnostic.remark, diagnostic.word.as_slice())
        }
        _ => Ok(None),
    }
}

/// Writes the edit that puts a name in the place of a diagnostic.
#[tactic(auto, unfolding(crate::specs::Fixes::name_edit))]
fn write_name_edit(
    alloc: Global,
    writer: &mut Writer,
    encoding: Encoding,
    diagnostic: &Diagnostic<'_>,
    name: &[u8],
) -> Result<(), AllocError>
    ensures tokens { OnOk result (writer.new.tokens ≡ writer.old.tokens ++ json_tokens (name_edit encoding (shown diagnostic.now) name.now)) }
    ensures before { OnOk result (writer.new.before ≡ writer.old.before) }
{
    writer.begin_object()?;
    writer.key("range")?;
    write_diagnostic_range(writer, encoding, diagnostic)?;
    write_told(alloc, writer, "newText", name)?;
    writer.end_object()?;
    Ok(())
}

/// The title of the action that puts a name in the place of a diagnostic.
fn title_of(alloc: Global, name: &[u8]) -> Result<Vec<u8>, AllocError>
    ensures { IfOk result (λ title. title.items ≡ codes "Write " ++ name.now) }
{
    let mut title = Vec::from_slice(alloc, b"Write ")?;
    title.extend_from_slice(name)?;
    Ok(title)
}

/// Writes the action that puts a name in the place of a diagnostic.
#[tactic(auto, unfolding(crate::specs::Fixes::action, crate::specs::Begun::action_begins))]
fn write_action(
    alloc: Global,
    writer: &mut Writer,
    encoding: Encoding,
    uri: &str,
    diagnostic: &Diagnostic<'_>,
    name: &[u8],
) -> Result<(), AllocError>
    ensures tokens { OnOk result (writer.new.tokens ≡ writer.old.tokens
        ++ json_tokens (action (codes "Write " ++ name.now) uri.now (name_edit encoding (shown diagnostic.now) name.now ∷ []))) }
    ensures before { OnOk result (writer.new.before ≡ writer.old.before) }
{
    let title = title_of(alloc, name)?;
    begin_action(alloc, writer, &title, uri)?;
    write_name_edit(alloc, writer, encoding, diagnostic, name)?;
    end_action(writer)?;
    Ok(())
}

/// Writes the action that puts a name in the place of a diagnostic, if one is meant.
fn write_fix(
    alloc: Global,
    writer: &mut Writer,
    encoding: Encoding,
    uri: &str,
    diagnostic: &Diagnostic<'_>,
) -> Result<(), AllocError>
    ensures tokens { OnOk result (writer.new.tokens
        ≡ writer.old.tokens ++ value_tokens (fix_with encoding uri.now (shown diagnostic.now) (key_meant (shown diagnostic.now)))) }
    ensures before { OnOk result (writer.new.before ≡ writer.old.before) }
{
    match key_meant(alloc, diagnostic)? {
        None => Ok(()),
        Some(name) => write_action(alloc, writer, encoding, uri, diagnostic, name),
    }
}

/// Whether a diagnostic is in one of these rows, counted from 0.
fn is_in_rows(first: u32, last: u32, diagnostic: &Diagnostic<'_>) -> bool
    ensures { result ≡ is_in_rows first last (shown diagnostic.now) }
{
    let line = diagnostic.line.saturating_sub(1);
    first <= line && line <= last
}

/// Writes the actions for diagnostics that are in these rows, one after another.
fn write_each(
    alloc: Global,
    writer: &mut Writer,
    encoding: Encoding,
    uri: &str,
    first: u32,
    last: u32,
    diagnostics: &[Diagnostic<'_>],
) -> Result<(), AllocError>
    ensures tokens { OnOk result (writer.new.tokens
        ≡ writer.old.tokens ++ value_tokens (flat_map (fixes_of encoding uri.now first last) (map shown diagnostics.now))) }
    ensures before { OnOk result (writer.new.before ≡ writer.old.before) }
{
    for diagnostic in diagnostics {
        if is_in_rows(first, last, diagnostic) {
            write_fix(alloc, writer, encoding, uri, diagnostic)?;
        }
    }
    Ok(())
}

/// Writes the actions for the diagnostics of a rules file that are in these rows, one after another.
fn write_for_rules(
    alloc: Global,
    writer: &mut Writer,
    encoding: Encoding,
    settings: &Settings,
    uri: &str,
    text: &[u8],
    first: u32,
    last: u32,
) -> Result<(), AllocError>
    ensures tokens { OnOk result (writer.new.tokens ≡ writer.old.tokens
        ++ value_tokens (flat_map (fixes_of encoding uri.now first last) (rules_diagnostics settings.now (file_of uri.now text.now)))) }
    ensures before { OnOk result (writer.new.before ≡ writer.old.before) }
{
    let file = file_of(alloc, uri.as_bytes(), text)?;
    let file = file_as_read(alloc, settings.profile, file)?;
    let asked = settings.asked(alloc)?;
    let read = FileRead::at(alloc, file.name.as_slice(), &file)?;
    let found = diagnostics_of_rules(alloc, &asked, &read)?;
    write_each(alloc, writer, encoding, uri, first, last, &found)
}

/// Writes the actions for the diagnostics in these rows of a document, counted from 0, one after another: each unknown key
/// that is near a known one can be replaced by it.
pub(crate) fn write_fixes(
    alloc: Global,
    writer: &mut Writer,
    encoding: Encoding,
    settings: &Settings,
    uri: &str,
    text: &[u8],
    first: u32,
    last: u32,
) -> Result<(), AllocError>
    ensures tokens { OnOk result (writer.new.tokens ≡ writer.old.tokens ++ value_tokens (fixes encoding settings.now uri.now text.now first last)) }
    ensures before { OnOk result (writer.new.before ≡ writer.old.before) }
{
    match kind_of(uri.as_bytes()) {
        FileKind::Rules => {
            write_for_rules(alloc, writer, encoding, settings, uri, text, first, last)
        }
        FileKind::Hwdb => Ok(()),
    }
}
