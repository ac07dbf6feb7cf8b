//! What can be mended in a document.
ghost use Rattle.std.specs.Prelude.{◌≡◌, ◌++◌, OnOk};
ghost use Rattle.json.specs.Tree.{json_tokens};
ghost use Rattle.text_json.specs.Listed.{value_tokens};
ghost use Rattle.lsp_answers.specs.Actions.{actions, style_actions};
ghost use Rattle.lsp_answers.specs.Edits.{edits};
ghost use Rattle.lsp_answers.specs.Queries.{shown};

use crate::edits::{mended_text, write_whole_edit};
use crate::fixes::{begin_action, end_action, write_fixes};
use crate::queries::Query;
use crate::settings::Settings;
use json::Writer;
use lsp_messages::Encoding;
use std::alloc::{AllocError, Global};

/// What an action that mends style is called.
const TITLE: &[u8] = b"Mend the style of this file";

/// Writes the action that makes edits of style, if there are any.
fn write_style_action(
    alloc: Global,
    writer: &mut Writer,
    encoding: Encoding,
    uri: &str,
    text: &[u8],
) -> Result<(), AllocError>
    ensures tokens { OnOk result (writer.new.tokens ≡ writer.old.tokens ++ value_tokens (style_actions uri.now (edits encoding uri.now text.now))) }
    ensures before { OnOk result (writer.new.before ≡ writer.old.before) }
{
    match mended_text(alloc, uri, text)? {
        None => Ok(()),
        Some(new) => {
            begin_action(alloc, writer, TITLE, uri)?;
            write_whole_edit(alloc, writer, encoding, text, &new)?;
            end_action(writer)?;
            Ok(())
        }
    }
}

/// Writes the answer to a request for what can be mended.
#[tactic(auto, unfolding(crate::specs::Actions::actions))]
pub(crate) fn write_actions(
    alloc: Global,
    writer: &mut Writer,
    encoding: Encoding,
    settings: &Settings,
    query: &Query<'_>,
) -> Result<(), AllocError>
    ensures tokens { OnOk result (writer.new.tokens ≡ writer.old.tokens ++ json_tokens (actions encoding settings.now (shown query.now))) }
    ensures before { OnOk result (writer.new.before ≡ writer.old.before) }
{
    let (first, last) = (query.start.line, query.end.line);
    writer.begin_array()?;
    write_fixes(
        alloc, writer, encoding, settings, query.uri, query.text, first, last,
    )?;
    write_style_action(alloc, writer, encoding, query.uri, query.text)?;
    writer.end_array()?;
    Ok(())
}
