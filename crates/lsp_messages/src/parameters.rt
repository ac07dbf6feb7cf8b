//! The parameters of requests and notifications.
ghost use Rattle.std.specs.Prelude.{◌≡◌, option_map};
ghost use Rattle.json.specs.Value.{value_view};
ghost use Rattle.lsp_messages.specs.Parameters.{includes_declaration, opened_of, opened_shown, placed_of, placed_shown};
ghost use Rattle.lsp_messages.specs.Parameters.{ranged_of, ranged_shown, string_at, uri_of, version_in, version_of};

use crate::positions::{number_at, position_at, range_of};
use crate::rows::Position;
use json::Value;

/// The numbers of the protocol are below this, 2^31.
const NUMBERS: u32 = 0x8000_0000;

/// A document that was opened.
#[derive(Drop)]
pub struct Opened<'a> {
    /// What it is called from now on.
    pub uri: &'a str,
    /// The name of its language, if it has one.
    pub language: Option<&'a str>,
    /// Its version, if it has one that is below 2^31.
    pub version: Option<u32>,
    /// Its text.
    pub text: &'a str,
}

/// A place in a document.
#[derive(Drop)]
pub struct Placed<'a> {
    /// The document.
    pub uri: &'a str,
    /// The place.
    pub position: Position,
}

/// A range of a document.
#[derive(Drop)]
pub struct Ranged<'a> {
    /// The document.
    pub uri: &'a str,
    /// Where the range starts.
    pub start: Position,
    /// Where it ends.
    pub end: Position,
}

/// The string that a member of a value is.
pub(crate) fn string_at<'a>(value: &Value<'a>, name: &str) -> Option<&'a str>
    ensures { option_map (λ t. t.now) result ≡ string_at name.now (value_view value.now) }
{
    value.get(name)?.as_str()
}

/// The URI of the document that parameters are about: `textDocument.uri`, if that is a string.
#[tactic(auto, unfolding(crate::specs::Parameters::uri_of))]
pub fn uri_of<'a>(params: &Value<'a>) -> Option<&'a str>
    ensures { option_map (λ t. t.now) result ≡ uri_of (value_view params.now) }
{
    string_at(params.get("textDocument")?, "uri")
}

/// The version that a document has, if it has one that is a whole number below 2^31.
fn version_in(document: &Value<'_>) -> Option<u32>
    ensures { result ≡ version_in (value_view document.now) }
{
    let number = number_at(document, "version")?;
    if number < NUMBERS { Some(number) } else { None }
}

/// The version of the document that parameters are about: `textDocument.version`, if that is a whole number below 2^31.
#[tactic(auto, unfolding(crate::specs::Parameters::version_of))]
pub fn version_of(params: &Value<'_>) -> Option<u32>
    ensures { result ≡ version_of (value_view params.now) }
{
    version_in(params.get("textDocument")?)
}

/// The document that the parameters of `textDocument/didOpen` have: its `textDocument`, which has to have a `uri` and a
/// `text` that are strings.
#[tactic(auto, unfolding(crate::specs::Parameters::opened_of))]
pub fn opened_of<'a>(params: &Value<'a>) -> Option<Opened<'a>>
    ensures { option_map opened_shown result ≡ opened_of (value_view params.now) }
{
    let document = params.get("textDocument")?;
    let uri = string_at(document, "uri")?;
    let text = string_at(document, "text")?;
    let language = string_at(document, "languageId");
    let version = version_in(document);
    Some(Opened {
        uri,
        language,
        version,
        text,
    })
}

/// The place that parameters are about: `textDocument.uri` and `position`.
#[tactic(auto, unfolding(crate::specs::Parameters::placed_of))]
pub fn placed_of<'a>(params: &Value<'a>) -> Option<Placed<'a>>
    ensures { option_map placed_shown result ≡ placed_of (value_view params.now) }
{
    let uri = uri_of(params)?;
    let position = position_at(params, "position")?;
    Some(Placed { uri, position })
}

/// The range that parameters are about: `textDocument.uri` and `range`.
#[tactic(auto, unfolding(crate::specs::Parameters::ranged_of))]
pub fn ranged_of<'a>(params: &Value<'a>) -> Option<Ranged<'a>>
    ensures { option_map ranged_shown result ≡ ranged_of (value_view params.now) }
{
    let uri = uri_of(params)?;
    let (start, end) = range_of(params.get("range")?)?;
    Some(Ranged { uri, start, end })
}

/// Whether the parameters of `textDocument/references` ask for the declaration, too: `context.includeDeclaration` is true.
#[tactic(auto, unfolding(crate::specs::Parameters::includes_declaration))]
pub fn includes_declaration(params: &Value<'_>) -> bool
    ensures { result ≡ includes_declaration (value_view params.now) }
{
    let Some(context) = params.get("context") else {
        return false;
    };
    match context.get("includeDeclaration") {
        Some(Value::Bool(asked)) => *asked,
        _ => false,
    }
}
