//! Errors, as responses.
ghost use Rattle.std.specs.Prelude.{◌≡◌, ◌++◌, ◌∷◌, [], IfOk, OnOk, codes, option_map, unwrap_or};
ghost use Rattle.std.specs.Fmt.{signed_decimal};
ghost use Rattle.std.specs.Option.{ForSome};
ghost use Rattle.json.specs.Json.{null};
ghost use Rattle.json.specs.Print.{print};
ghost use Rattle.json.specs.Token as token;
ghost use Rattle.json.specs.Tree.{HasNumbers, json_tokens};
ghost use Rattle.json.specs.Value.{value_view};
ghost use Rattle.lsp_messages.specs.Responses.{code_number, error_of, error_value};

use json::{Value, Writer};
use std::alloc::{AllocError, Global};
use text_json::write_word;

/// What went wrong with a request.
#[derive(Clone, Copy)]
pub enum ErrorCode {
    /// The content is not JSON: -32700.
    ParseError,
    /// The value is not a message, or the request cannot come now: -32600.
    InvalidRequest,
    /// The server has no such method: -32601.
    MethodNotFound,
    /// The parameters are not those of the method: -32602.
    InvalidParams,
    /// The request comes before `initialize`: -32002.
    ServerNotInitialized,
}

impl ErrorCode {
    /// The number of the error.
    fn number(self) -> i64
        ensures { result ≡ code_number self }
    {
        match self {
            ErrorCode::ParseError => -32700,
            ErrorCode::InvalidRequest => -32600,
            ErrorCode::MethodNotFound => -32601,
            ErrorCode::InvalidParams => -32602,
            ErrorCode::ServerNotInitialized => -32002,
        }
    }
}

/// The response that is an error, to the request of this id; without an id, its id is null.
#[tactic(auto, unfolding(crate::specs::Responses::error_of))]
pub fn error_response(
    alloc: Global,
    id: Option<&Value<'_>>,
    code: ErrorCode,
    message: &str,
) -> Result<Vec<u8>, AllocError>
    requires { ForSome id (λ v. HasNumbers (value_view v.now)) }
    ensures { IfOk result (λ text. text.items ≡ print (json_tokens (error_of (option_map (λ v. value_view v.now) id.entry) code message.now))) }
{
    let mut writer = Writer::new(Vec::new(alloc));
    writer.begin_object()?;
    write_word(&mut writer, "jsonrpc", "2.0")?;
    writer.key("id")?;
    write_id(&mut writer, id)?;
    writer.key("error")?;
    write_error(&mut writer, code, message)?;
    writer.end_object()?;
    Ok(writer.into_inner())
}

/// Writes an id, or null.
fn write_id(writer: &mut Writer, id: Option<&Value<'_>>) -> Result<(), AllocError>
    requires { ForSome id (λ v. HasNumbers (value_view v.now)) }
    ensures tokens { OnOk result (writer.new.tokens ≡ writer.old.tokens ++ json_tokens (unwrap_or (option_map (λ v. value_view v.now) id.entry) null)) }
    ensures before { OnOk result (writer.new.before ≡ writer.old.before) }
{
    match id {
        Some(id) => writer.value(id),
        None => writer.null(),
    }
}

/// Writes what an error is.
#[tactic(auto, unfolding(crate::specs::Responses::error_value))]
fn write_error(writer: &mut Writer, code: ErrorCode, message: &str) -> Result<(), AllocError>
    ensures tokens { OnOk result (writer.new.tokens ≡ writer.old.tokens ++ json_tokens (error_value code message.now)) }
    ensures before { OnOk result (writer.new.before ≡ writer.old.before) }
{
    writer.begin_object()?;
    write_code(writer, code)?;
    write_word(writer, "message", message)?;
    writer.end_object()?;
    Ok(())
}

/// Writes the member that has the number of an error.
fn write_code(writer: &mut Writer, code: ErrorCode) -> Result<(), AllocError>
    ensures tokens { OnOk result (writer.new.tokens ≡ writer.old.tokens ++ token.key (codes "code") ∷ token.number (signed_decimal (code_number code)) ∷ []) }
    ensures before { OnOk result (writer.new.before ≡ writer.old.before) }
{
    writer.key("code")?;
    writer.i64(code.number())
}
