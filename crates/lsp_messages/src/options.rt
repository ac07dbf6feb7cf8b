//! The options that a client gives when it begins.
ghost use Rattle.std.specs.Prelude.{◌≡◌, IfOk, option_map};
ghost use Rattle.std.specs.Option.{option_map_or};
ghost use Rattle.json.specs.Value.{items_view, value_view};
ghost use Rattle.lsp_messages.specs.Options.{malformed, options_given, options_of, options_shown, strings_in, words};

use json::Value;
use std::alloc::{AllocError, Global};

/// The options that a client gives the server.
#[derive(Drop)]
pub enum Options<'a> {
    /// None.
    Absent,
    /// These words, in order.
    Words(Vec<&'a str>),
    /// Something else than an array of strings.
    Malformed,
}

/// The options that a client gives: in the parameters of `initialize`, `initializationOptions.options`. They are absent without
/// that member, or if it is null.
#[tactic(auto, unfolding(crate::specs::Options::options_of))]
pub fn options_of<'a>(alloc: Global, params: &Value<'a>) -> Result<Options<'a>, AllocError>
    ensures { IfOk result (λ options. options_shown options ≡ options_of (value_view params.now)) }
{
    match options_given(params) {
        None | Some(Value::Null) => Ok(Options::Absent),
        Some(Value::Array(values)) => words_in(alloc, values),
        Some(_) => Ok(Options::Malformed),
    }
}

/// The member that has the options.
fn options_given<'v, 'a>(params: &'v Value<'a>) -> Option<&'v Value<'a>>
    ensures { option_map (λ v. value_view v.now) result ≡ options_given (value_view params.now) }
{
    params.get("initializationOptions")?.get("options")
}

/// The words that values are, each of which has to be a string.
fn words_in<'a>(alloc: Global, values: &[Value<'a>]) -> Result<Options<'a>, AllocError>
    ensures { IfOk result (λ options. options_shown options ≡ option_map_or words (strings_in (items_view values.now)) malformed) }
{
    let mut words = Vec::new(alloc);
    for value in values {
        match value.as_str() {
            Some(word) => words.push(word)?,
            None => return Ok(Options::Malformed),
        }
    }
    Ok(Options::Words(words))
}
