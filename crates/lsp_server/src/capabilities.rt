//! What the server says it can do.
ghost use Rattle.std.specs.Prelude.{◌≡◌, ◌∷◌, [], ◌++◌, OnOk, true};
ghost use Rattle.json.specs.Token as token;
ghost use Rattle.json.specs.Tree.{json_tokens};
ghost use Rattle.lsp_server.specs.Capabilities.{capabilities, code_actions, completion, encoding_name, initialized, server_info, synchronization};

use json::Writer;
use lsp_messages::Encoding;
use std::alloc::AllocError;
use text_json::{write_number, write_word};

/// The name of an encoding.
fn encoding_name(encoding: Encoding) -> &'static str
    ensures { result.now ≡ encoding_name encoding }
{
    match encoding {
        Encoding::Utf8 => "utf-8",
        Encoding::Utf16 => "utf-16",
    }
}

/// Writes that there is something.
fn write_true(writer: &mut Writer, key: &str) -> Result<(), AllocError>
    ensures tokens { OnOk result (writer.new.tokens ≡ writer.old.tokens ++ token.key key.now ∷ token.boolean true ∷ []) }
    ensures before { OnOk result (writer.new.before ≡ writer.old.before) }
{
    writer.key(key)?;
    writer.boolean(true)
}

/// Writes how documents come.
#[tactic(auto, unfolding(crate::specs::Capabilities::synchronization))]
fn write_synchronization(writer: &mut Writer) -> Result<(), AllocError>
    ensures tokens { OnOk result (writer.new.tokens ≡ writer.old.tokens ++ json_tokens synchronization) }
    ensures before { OnOk result (writer.new.before ≡ writer.old.before) }
{
    writer.begin_object()?;
    write_true(writer, "openClose")?;
    write_number(writer, "change", 2)?;
    writer.end_object()?;
    Ok(())
}

/// Writes after which characters names can be completed.
#[tactic(auto, unfolding(crate::specs::Capabilities::completion))]
fn write_completion(writer: &mut Writer) -> Result<(), AllocError>
    ensures tokens { OnOk result (writer.new.tokens ≡ writer.old.tokens ++ json_tokens completion) }
    ensures before { OnOk result (writer.new.before ≡ writer.old.before) }
{
    writer.begin_object()?;
    writer.key("triggerCharacters")?;
    writer.begin_array()?;
    writer.string("$")?;
    writer.string("%")?;
    writer.string("{")?;
    writer.string("\"")?;
    writer.end_array()?;
    writer.end_object()?;
    Ok(())
}

/// Writes what can be done with code.
#[tactic(auto, unfolding(crate::specs::Capabilities::code_actions))]
fn write_code_actions(writer: &mut Writer) -> Result<(), AllocError>
    ensures tokens { OnOk result (writer.new.tokens ≡ writer.old.tokens ++ json_tokens code_actions) }
    ensures before { OnOk result (writer.new.before ≡ writer.old.before) }
{
    writer.begin_object()?;
    writer.key("codeActionKinds")?;
    writer.begin_array()?;
    writer.string("quickfix")?;
    writer.end_array()?;
    writer.end_object()?;
    Ok(())
}

/// Writes what the server can do.
#[tactic(auto, unfolding(crate::specs::Capabilities::capabilities))]
fn write_capabilities(writer: &mut Writer, encoding: Encoding) -> Result<(), AllocError>
    ensures tokens { OnOk result (writer.new.tokens ≡ writer.old.tokens ++ json_tokens (capabilities encoding)) }
    ensures before { OnOk result (writer.new.before ≡ writer.old.before) }
{
    writer.begin_object()?;
    write_word(writer, "positionEncoding", encoding_name(encoding))?;
    writer.key("textDocumentSync")?;
    write_synchronization(writer)?;
    write_true(writer, "hoverProvider")?;
    writer.key("completionProvider")?;
    write_completion(writer)?;
    write_true(writer, "definitionProvider")?;
    write_true(writer, "referencesProvider")?;
    write_true(writer, "documentSymbolProvider")?;
    writer.key("codeActionProvider")?;
    write_code_actions(writer)?;
    write_true(writer, "documentFormattingProvider")?;
    writer.end_object()?;
    Ok(())
}

/// Writes what the server is.
#[tactic(auto, unfolding(crate::specs::Capabilities::server_info))]
fn write_server_info(writer: &mut Writer) -> Result<(), AllocError>
    ensures tokens { OnOk result (writer.new.tokens ≡ writer.old.tokens ++ json_tokens server_info) }
    ensures before { OnOk result (writer.new.before ≡ writer.old.before) }
{
    writer.begin_object()?;
    write_word(writer, "name", "devdry-lsp")?;
    write_word(writer, "version", "0.1.0")?;
    writer.end_object()?;
    Ok(())
}

/// Writes the answer to `initialize`: what the server can do, with characters counted in this encoding.
#[tactic(auto, unfolding(crate::specs::Capabilities::initialized))]
pub(crate) fn write_initialized(writer: &mut Writer, encoding: Encoding) -> Result<(), AllocError>
    ensures tokens { OnOk result (writer.new.tokens ≡ writer.old.tokens ++ json_tokens (initialized encoding)) }
    ensures before { OnOk result (writer.new.before ≡ writer.old.before) }
{
    writer.begin_object()?;
    writer.key("capabilities")?;
    write_capabilities(writer, encoding)?;
    writer.key("serverInfo")?;
    write_server_info(writer)?;
    writer.end_object()?;
    Ok(())
}
