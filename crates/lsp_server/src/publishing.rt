//! What is reported for documents.
ghost use Rattle.std.specs.Prelude.{◌≡◌, ◌++◌, IfOk, OnOk};
ghost use Rattle.json.specs.Print.{print};
ghost use Rattle.json.specs.Tree.{json_tokens};
ghost use Rattle.text_json.specs.Listed.{member_tokens};
ghost use Rattle.lsp_server.specs.Documents.{not_held, published, reason_said, unpublished, version_members};

use crate::server::Server;
use json::Writer;
use lsp_answers::{write_about_whole, write_document_diagnostics};
use lsp_messages::begin_notification;
use std::alloc::{AllocError, Global};
use text_json::{write_number, write_told};

/// Why the text of a document is not held.
#[derive(Clone, Copy)]
pub(crate) enum Reason {
    /// Too much is open.
    TooMuch,
    /// A change of it was not understood.
    OutOfStep,
}

/// What is said about a document that is not held for this reason.
fn said_of(reason: Reason) -> &'static str
    ensures { result.now ≡ reason_said reason }
{
    match reason {
        Reason::TooMuch => {
            "not checked: 1,024 files or 64 MiB are open, so close some and open this one again"
        }
        Reason::OutOfStep => {
            "out of step: a change of this file was not understood, so open this file again"
        }
    }
}

/// Writes the member with a version, if there is one.
fn write_version(writer: &mut Writer, version: Option<u32>) -> Result<(), AllocError>
    ensures tokens { OnOk result (writer.new.tokens ≡ writer.old.tokens ++ member_tokens (version_members version)) }
    ensures before { OnOk result (writer.new.before ≡ writer.old.before) }
{
    match version {
        Some(version) => write_number(writer, "version", version),
        None => Ok(()),
    }
}

/// The notification of what is reported for a document.
#[tactic(auto, unfolding(crate::specs::Documents::published, lsp_messages::specs::Responses::notification_begins))]
pub(crate) fn published(
    alloc: Global,
    server: &Server,
    uri: &[u8],
    version: Option<u32>,
    text: &[u8],
) -> Result<Vec<u8>, AllocError>
    ensures { IfOk result (λ content. content.items ≡ print (json_tokens (published server.now uri.now version text.now))) }
{
    let mut writer = Writer::new(Vec::new(alloc));
    begin_notification(&mut writer, "textDocument/publishDiagnostics")?;
    writer.begin_object()?;
    write_told(alloc, &mut writer, "uri", uri)?;
    write_version(&mut writer, version)?;
    writer.key("diagnostics")?;
    write_document_diagnostics(
        alloc,
        &mut writer,
        server.encoding,
        &server.settings,
        uri,
        text,
    )?;
    writer.end_object()?;
    writer.end_object()?;
    Ok(writer.into_inner())
}

/// The notification that nothing is reported any more for a document.
#[tactic(auto, unfolding(crate::specs::Documents::unpublished, lsp_messages::specs::Responses::notification_begins))]
pub(crate) fn unpublished(alloc: Global, uri: &[u8]) -> Result<Vec<u8>, AllocError>
    ensures { IfOk result (λ content. content.items ≡ print (json_tokens (unpublished uri.now))) }
{
    let mut writer = Writer::new(Vec::new(alloc));
    begin_notification(&mut writer, "textDocument/publishDiagnostics")?;
    writer.begin_object()?;
    write_told(alloc, &mut writer, "uri", uri)?;
    writer.key("diagnostics")?;
    writer.begin_array()?;
    writer.end_array()?;
    writer.end_object()?;
    writer.end_object()?;
    Ok(writer.into_inner())
}

/// The notification that says about a document why it is not held, and reports nothing else.
#[tactic(auto, unfolding(crate::specs::Documents::not_held, lsp_messages::specs::Responses::notification_begins))]
pub(crate) fn not_held(alloc: Global, uri: &[u8], reason: Reason) -> Result<Vec<u8>, AllocError>
    ensures { IfOk result (λ content. content.items ≡ print (json_tokens (not_held uri.now reason))) }
{
    let mut writer = Writer::new(Vec::new(alloc));
    begin_notification(&mut writer, "textDocument/publishDiagnostics")?;
    writer.begin_object()?;
    write_told(alloc, &mut writer, "uri", uri)?;
    writer.key("diagnostics")?;
    write_about_whole(&mut writer, said_of(reason))?;
    writer.end_object()?;
    writer.end_object()?;
    Ok(writer.into_inner())
}
