//! What a client sent, by its members.
ghost use Rattle.std.specs.Prelude.{◌≡◌, codes};
ghost use Rattle.json.specs.Find.{get};
ghost use Rattle.json.specs.Tree.{HasNumbers};
ghost use Rattle.json.specs.Value.{value_view};
ghost use Rattle.lsp_messages.specs.Messages.{IdHasNumbers, called, message_of, shown, unnamed};

use json::Value;

/// What a client sent.
#[derive(Drop)]
pub enum Message<'v, 'a> {
    /// A request, which has to be answered.
    Request {
        /// What the answer repeats: a string or a number.
        id: &'v Value<'a>,
        /// What is asked for.
        method: &'a str,
        /// What it is asked about.
        params: Option<&'v Value<'a>>,
    },
    /// A notification, which is not answered.
    Notification {
        /// What has happened.
        method: &'a str,
        /// What it is about.
        params: Option<&'v Value<'a>>,
    },
    /// The answer to a request of the server.
    Response,
    /// None of these.
    Invalid,
}

/// What a value is as a message. With a member `method` that is a string it is a request if it has an `id` that is a string
/// or a number, and a notification if it has no `id`. Without a member `method` it is a response if it has an `id` and a
/// `result` or an `error`. All else is invalid.
#[tactic(auto, unfolding(crate::specs::Messages::message_of))]
pub fn message_of<'v, 'a>(value: &'v Value<'a>) -> Message<'v, 'a>
    ensures message { shown result ≡ message_of (value_view value.now) }
    // What is the id of a request can be written, if all that was sent can.
    ensures numbers { HasNumbers (value_view value.now) → IdHasNumbers (shown result) }
{
    let Some(name) = value.get("method") else {
        return unnamed(value);
    };
    match name.as_str() {
        Some(method) => called(value, method),
        None => Message::Invalid,
    }
}

/// What a value with a method is.
fn called<'v, 'a>(value: &'v Value<'a>, method: &'a str) -> Message<'v, 'a>
    ensures message { shown result ≡ called (get (codes "id") (value_view value.now)) method.now (get (codes "params") (value_view value.now)) }
    ensures numbers { HasNumbers (value_view value.now) → IdHasNumbers (shown result) }
{
    let params = value.get("params");
    let Some(id) = value.get("id") else {
        return Message::Notification { method, params };
    };
    match id {
        Value::Number(_) | Value::String(_) => Message::Request { id, method, params },
        _ => Message::Invalid,
    }
}

/// What a value without a method is.
fn unnamed<'v, 'a>(value: &'v Value<'a>) -> Message<'v, 'a>
    ensures message { shown result ≡ unnamed (value_view value.now) }
    ensures numbers { IdHasNumbers (shown result) }
{
    let answers = value.get("result").is_some() || value.get("error").is_some();
    if answers && value.get("id").is_some() {
        Message::Response
    } else {
        Message::Invalid
    }
}
