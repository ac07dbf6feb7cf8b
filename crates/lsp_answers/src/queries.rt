//! What a request about a document asks for.
ghost use Rattle.std.specs.Prelude.{◌≡◌, option_map};
ghost use Rattle.json.specs.Value.{value_view};
ghost use Rattle.lsp_messages.specs.Parameters.{placed_of, ranged_shown};
ghost use Rattle.lsp_answers.specs.Queries.{method_name, method_of, query_in, query_of, point, range_asked, whole};
ghost use Rattle.lsp_answers.specs.Given.{GivesQuery};

use json::Value;
use lsp_messages::{
    Document, Documents, ErrorCode, Position, Ranged, includes_declaration, placed_of, ranged_of,
    uri_of,
};

/// A method that is about a document.
#[derive(Clone, Copy, PartialEq, Eq)]
pub enum Method {
    /// What a word means.
    Hover,
    /// Which names a word may become.
    Completion,
    /// Where the label of a jump is.
    Definition,
    /// Where a label is named.
    References,
    /// The rules or records of a document.
    Symbols,
    /// What can be mended.
    Actions,
    /// The document with its style mended.
    Formatting,
}

/// All methods.
const METHODS: [Method; 7] = [
    Method::Hover,
    Method::Completion,
    Method::Definition,
    Method::References,
    Method::Symbols,
    Method::Actions,
    Method::Formatting,
];

/// What a request asks for about a document whose text is known.
#[derive(Drop)]
pub struct Query<'q> {
    /// The method.
    pub method: Method,
    /// The URI of the document.
    pub uri: &'q str,
    /// Its text.
    pub text: &'q [u8],
    /// Where the range starts that it is about.
    pub start: Position,
    /// Where that range ends; where it starts if it is about a place.
    pub end: Position,
    /// Whether the declaration is asked for beside the references.
    pub declaration: bool,
}

impl Method {
    /// Its name.
    fn name(self) -> &'static str
        ensures { result.now ≡ method_name self }
    {
        match self {
            Method::Hover => "textDocument/hover",
            Method::Completion => "textDocument/completion",
            Method::Definition => "textDocument/definition",
            Method::References => "textDocument/references",
            Method::Symbols => "textDocument/documentSymbol",
            Method::Actions => "textDocument/codeAction",
            Method::Formatting => "textDocument/formatting",
        }
    }
}

/// The method with a name, if there is one.
#[tactic(auto, unfolding(crate::specs::Queries::method_of))]
fn method_of(name: &str) -> Option<Method>
    ensures { result ≡ method_of name.now }
{
    METHODS.iter().copied().find(|method| name == method.name())
}

/// A document as a range at its start.
fn whole(uri: &str) -> Ranged<'_>
    ensures { ranged_shown result ≡ whole uri.now }
{
    let origin = Position {
        line: 0,
        character: 0,
    };
    Ranged {
        uri,
        start: origin,
        end: origin,
    }
}

/// The place that parameters are about, as a range.
fn point<'a>(params: &Value<'a>) -> Option<Ranged<'a>>
    ensures { option_map ranged_shown result ≡ option_map point (placed_of (value_view params.now)) }
{
    let placed = placed_of(params)?;
    Some(Ranged {
        uri: placed.uri,
        start: placed.position,
        end: placed.position,
    })
}

/// The range that the parameters of a method are about.
fn range_asked<'a>(method: Method, params: &Value<'a>) -> Option<Ranged<'a>>
    ensures { option_map ranged_shown result ≡ range_asked method (value_view params.now) }
{
    match method {
        Method::Actions => ranged_of(params),
        Method::Symbols | Method::Formatting => Some(whole(uri_of(params)?)),
        Method::Hover | Method::Completion | Method::Definition | Method::References => {
            point(params)
        }
    }
}

/// The query of a method by its parameters.
fn query_with<'q, 'a: 'q>(
    documents: &'q Documents,
    method: Method,
    params: &Value<'a>,
) -> Result<Query<'q>, ErrorCode>
    ensures { GivesQuery result (query_in documents.now method (value_view params.now) (range_asked method (value_view params.now))) }
{
    let range = match range_asked(method, params) {
        Some(range) => range,
        None => return Err(ErrorCode::InvalidParams),
    };
    match documents.get(range.uri.as_bytes()) {
        Some(Document::InStep { text, .. }) => Ok(Query {
            method,
            uri: range.uri,
            text: text.as_slice(),
            start: range.start,
            end: range.end,
            declaration: includes_declaration(params),
        }),
        Some(Document::OutOfStep) | None => Err(ErrorCode::InvalidParams),
    }
}

/// The query that a request is, about one of these documents.
///
/// `MethodNotFound` comes if there is no method of this name; `InvalidParams` without parameters, if they do not say which
/// document and which place or range of it is meant, or if that document is not open or out of step.
pub fn query_of<'q, 'a: 'q>(
    documents: &'q Documents,
    method: &str,
    params: Option<&Value<'a>>,
) -> Result<Query<'q>, ErrorCode>
    ensures { GivesQuery result (query_of documents.now method.now (option_map (λ p. value_view p.now) params.entry)) }
{
    match method_of(method) {
        None => Err(ErrorCode::MethodNotFound),
        Some(method) => match params {
            Some(params) => query_with(documents, method, params),
            None => Err(ErrorCode::InvalidParams),
        },
    }
}
