//! What a client can do, as it says when it begins.
ghost use Rattle.std.specs.Prelude.{◌≡◌, option_map};
ghost use Rattle.json.specs.Value.{items_view, value_view};
ghost use Rattle.lsp_messages.specs.Offers.{encodings_of, has_string, offers_utf8};

use json::Value;

/// Whether a client offers to count in bytes of UTF-8: in the parameters of `initialize`,
/// `capabilities.general.positionEncodings` is an array that has the string `utf-8`.
#[tactic(auto, unfolding(crate::specs::Offers::offers_utf8))]
pub fn offers_utf8(params: &Value<'_>) -> bool
    ensures { result ≡ offers_utf8 (value_view params.now) }
{
    match encodings_of(params) {
        Some(Value::Array(values)) => has_string(values, "utf-8"),
        _ => false,
    }
}

/// What a client says about the ways in which it can count.
fn encodings_of<'v, 'a>(params: &'v Value<'a>) -> Option<&'v Value<'a>>
    ensures { option_map (λ v. value_view v.now) result ≡ encodings_of (value_view params.now) }
{
    params
        .get("capabilities")?
        .get("general")?
        .get("positionEncodings")
}

/// Whether one of the values is this string.
fn has_string(values: &[Value<'_>], text: &str) -> bool
    ensures { result ≡ has_string text.now (items_view values.now) }
{
    for value in values {
        if let Value::String(said) = value {
            if *said == text {
                return true;
            }
        }
    }
    false
}
