//! What is said about requests that are not answered.
ghost use Rattle.std.specs.Prelude.{◌≡◌, IfOk, option_map};
ghost use Rattle.std.specs.Option.{ForSome};
ghost use Rattle.json.specs.Print.{print};
ghost use Rattle.json.specs.Tree.{HasNumbers, json_tokens};
ghost use Rattle.json.specs.Value.{value_view};
ghost use Rattle.lsp_server.specs.Errors.{error_for, said_of};

use json::Value;
use lsp_messages::{ErrorCode, error_response};
use std::alloc::{AllocError, Global};

/// What is said about an error of this kind.
fn said_of(code: ErrorCode) -> &'static str
    ensures { result.now ≡ said_of code }
{
    match code {
        ErrorCode::ParseError => "not JSON",
        ErrorCode::InvalidRequest => "no request that can come now",
        ErrorCode::MethodNotFound => "no such method",
        ErrorCode::InvalidParams => {
            "not the parameters of this method, or about a document that is not open"
        }
        ErrorCode::ServerNotInitialized => "the server is not initialized",
    }
}

/// The error of this kind, to a request with an id or to what has none.
pub(crate) fn error_for(
    alloc: Global,
    id: Option<&Value<'_>>,
    code: ErrorCode,
) -> Result<Vec<u8>, AllocError>
    requires { ForSome id (λ v. HasNumbers (value_view v.now)) }
    ensures { IfOk result (λ content. content.items
        ≡ print (json_tokens (error_for (option_map (λ v. value_view v.now) id.entry) code))) }
{
    error_response(alloc, id, code, said_of(code))
}
