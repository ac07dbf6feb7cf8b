//! Responses and notifications of a server.
ghost use Rattle.std.specs.Prelude.{◌≡◌, ◌++◌, IfOk, OnOk};
ghost use Rattle.json.specs.Json.{null};
ghost use Rattle.json.specs.Print.{print};
ghost use Rattle.json.specs.Tree.{HasNumbers, json_tokens};
ghost use Rattle.json.specs.Value.{value_view};
ghost use Rattle.lsp_messages.specs.Responses.{notification_begins, response_begins, response_of};

use json::{Value, Writer};
use std::alloc::{AllocError, Global};
use text_json::write_word;

/// Writes the response to the request of this id up to its result. The caller writes the result, and then `end_object`.
#[tactic(auto, unfolding(crate::specs::Responses::response_begins))]
pub fn begin_response(writer: &mut Writer, id: &Value<'_>) -> Result<(), AllocError>
    requires { HasNumbers (value_view id.now) }
    ensures tokens { OnOk result (writer.new.tokens ≡ writer.old.tokens ++ response_begins (value_view id.now)) }
    ensures before { OnOk result (writer.new.before ≡ writer.old.before) }
{
    writer.begin_object()?;
    write_word(writer, "jsonrpc", "2.0")?;
    writer.key("id")?;
    writer.value(id)?;
    writer.key("result")?;
    Ok(())
}

/// Writes a notification up to its parameters. The caller writes the parameters, and then `end_object`.
#[tactic(auto, unfolding(crate::specs::Responses::notification_begins))]
pub fn begin_notification(writer: &mut Writer, method: &str) -> Result<(), AllocError>
    ensures tokens { OnOk result (writer.new.tokens ≡ writer.old.tokens ++ notification_begins method.now) }
    ensures before { OnOk result (writer.new.before ≡ writer.old.before) }
{
    writer.begin_object()?;
    write_word(writer, "jsonrpc", "2.0")?;
    write_word(writer, "method", method)?;
    writer.key("params")?;
    Ok(())
}

/// The response to the request of this id whose result is null.
#[tactic(auto, unfolding(crate::specs::Responses::response_begins, crate::specs::Responses::response_of))]
pub fn null_response(alloc: Global, id: &Value<'_>) -> Result<Vec<u8>, AllocError>
    requires { HasNumbers (value_view id.now) }
    ensures { IfOk result (λ text. text.items ≡ print (json_tokens (response_of (value_view id.now) null))) }
{
    let mut writer = Writer::new(Vec::new(alloc));
    begin_response(&mut writer, id)?;
    writer.null()?;
    writer.end_object()?;
    Ok(writer.into_inner())
}
