//! The answer to a query about a document.
ghost use Rattle.std.specs.Prelude.{◌≡◌, ◌++◌, OnOk};
ghost use Rattle.json.specs.Tree.{json_tokens};
ghost use Rattle.lsp_answers.specs.Answers.{answer};
ghost use Rattle.lsp_answers.specs.Queries.{shown};

use crate::actions::write_actions;
use crate::edits::write_formatting;
use crate::hovers::write_hover;
use crate::labels::{write_definition, write_references};
use crate::offers::write_completion;
use crate::queries::{Method, Query};
use crate::settings::Settings;
use crate::symbols::write_symbols;
use json::Writer;
use lsp_messages::Encoding;
use std::alloc::{AllocError, Global};

/// Writes the answer to a query, with characters counted in this encoding.
#[tactic(auto, unfolding(crate::specs::Answers::answer))]
pub fn write_answer(
    alloc: Global,
    writer: &mut Writer,
    encoding: Encoding,
    settings: &Settings,
    query: &Query<'_>,
) -> Result<(), AllocError>
    ensures tokens { OnOk result (writer.new.tokens ≡ writer.old.tokens ++ json_tokens (answer encoding settings.now (shown query.now))) }
    ensures before { OnOk result (writer.new.before ≡ writer.old.before) }
{
    match query.method {
        Method::Hover => write_hover(alloc, writer, encoding, query),
        Method::Completion => write_completion(alloc, writer, encoding, query),
        Method::Definition => write_definition(alloc, writer, encoding, query),
        Method::References => write_references(alloc, writer, encoding, query),
        Method::Symbols => write_symbols(alloc, writer, encoding, query),
        Method::Actions => write_actions(alloc, writer, encoding, settings, query),
        Method::Formatting => write_formatting(alloc, writer, encoding, query),
    }
}
