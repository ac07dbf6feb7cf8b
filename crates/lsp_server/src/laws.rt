//! What is true of the server. Each law is the contract of a function that does nothing.
ghost use Rattle.std.specs.Prelude.{◌≡◌, List, None, Ok, Option, Some, codes, false, true};
ghost use Rattle.std.specs.Str.{bytes_eq};
ghost use Rattle.text_tables.specs.Pairs.{value_of, with_value, without_name};
ghost use Rattle.text_bytes.specs.Text.{Text};
ghost use Rattle.text_tables.specs.Texts.{is_among, same_text};
ghost use Rattle.json.specs.Json.{Json};
ghost use Rattle.lsp_answers.specs.Answers.{answer};
ghost use Rattle.lsp_answers.specs.Queries.{QueryValue, query_of};
ghost use Rattle.lsp_server.specs.declared.frames.Item.{Item};
ghost use Rattle.lsp_server.specs.declared.frames.Item.TheVariants.{Content, NoFrame, TooLong};
ghost use Rattle.lsp_messages.specs.Changes.{changes_of};
ghost use Rattle.lsp_messages.specs.Messages.{notification, request};
ghost use Rattle.lsp_messages.specs.Options.{options_of};
ghost use Rattle.lsp_messages.specs.Parameters.{OpenedValue, opened_of, uri_of, version_of};
ghost use Rattle.lsp_messages.specs.Responses.{response_of};
ghost use Rattle.lsp_messages.specs.declared.errors.ErrorCode.TheVariants.{InvalidRequest, ParseError, ServerNotInitialized};
ghost use Rattle.lsp_server.specs.Beginning.{encoding_of, settings_asked};
ghost use Rattle.lsp_server.specs.Capabilities.{initialized};
ghost use Rattle.lsp_server.specs.Contents.{step, step_of, value_of_content};
ghost use Rattle.lsp_server.specs.Documents.{not_held, published, unpublished};
ghost use Rattle.lsp_server.specs.Errors.{error_for};
ghost use Rattle.lsp_server.specs.Laws.{IsAnswerTo, after_all, as_document, document_methods, not_open, out_of_step};
ghost use Rattle.lsp_server.specs.Servers.{Server, first, sends};
ghost use Rattle.lsp_server.specs.declared.publishing.Reason.TheVariants as because;
ghost use Rattle.lsp_server.specs.declared.server.Phase.TheVariants.{Down, Fresh, Running};
ghost use Rattle.lsp_answers.specs.Settings.{Settings};
ghost use Rattle.lsp_messages.specs.ChangeValues.{ChangeValue};
ghost use Rattle.lsp_messages.specs.Documents.{has_whole, may_be_held, text_after};
ghost use Rattle.lsp_messages.specs.declared.documents.Document.{Document};
ghost use Rattle.lsp_messages.specs.declared.documents.Document.TheVariants.{InStep, OutOfStep};

/// Each request is answered with its id, and changes no document.
pub fn requests_are_answered()
    ensures answered { (server : Server) (id : Json) (method : Text) (params : Option Json)
        → IsAnswerTo id (step_of server (request id method params)).sent }
    ensures documents { (server : Server) (id : Json) (method : Text) (params : Option Json)
        → (step_of server (request id method params)).server.documents ≡ server.documents }
{}

/// What is no frame, no JSON or too long is answered with the error that says so, and changes nothing.
pub fn what_is_not_understood_changes_nothing()
    ensures no_frame { (server : Server) → step server NoFrame ≡ sends server (error_for None ParseError) }
    ensures too_long { (server : Server) → step server TooLong ≡ sends server (error_for None InvalidRequest) }
    ensures no_json { (server : Server) (content : Text) → value_of_content content ≡ None
        → step server (Content content) ≡ sends server (error_for None ParseError) }
{}

/// A request out of order is answered with the error that says so, and changes nothing: before `initialize`, a second
/// `initialize`, and after `shutdown`.
pub fn requests_out_of_order_are_refused()
    ensures fresh { (server : Server) (id : Json) (method : Text) (params : Option Json) → server.phase ≡ Fresh
        → bytes_eq method (codes "initialize") ≡ false
        → step_of server (request id method params) ≡ sends server (error_for (Some id) ServerNotInitialized) }
    ensures twice { (server : Server) (id : Json) (params : Option Json) → server.phase ≡ Running
        → step_of server (request id (codes "initialize") params) ≡ sends server (error_for (Some id) InvalidRequest) }
    ensures down { (server : Server) (id : Json) (method : Text) (params : Option Json) → server.phase ≡ Down
        → step_of server (request id method params) ≡ sends server (error_for (Some id) InvalidRequest) }
{}

/// Notifications other than those about documents change nothing and are not answered.
pub fn other_notifications_change_nothing()
    ensures { (server : Server) (method : Text) (params : Option Json) → is_among document_methods method ≡ false
        → step_of server (notification method params) ≡ record { server = server; sent = None } }
{}

/// A notification about a document leaves the others as they are.
pub fn other_documents_stay()
    ensures opened { (server : Server) (params : Json) (opened : OpenedValue) (other : Text) → opened_of params ≡ Some opened
        → same_text other opened.uri ≡ false
        → value_of (step_of server (notification (codes "textDocument/didOpen") (Some params))).server.documents other ≡ value_of server.documents other }
    ensures named { (server : Server) (method : Text) (params : Json) (uri other : Text) → bytes_eq method (codes "textDocument/didOpen") ≡ false
        → uri_of params ≡ Some uri → same_text other uri ≡ false
        → value_of (step_of server (notification method (Some params))).server.documents other ≡ value_of server.documents other }
{}

/// Whatever frames come, what is open stays within the limits: 1,024 documents, and 64 MiB in all.
pub fn what_is_open_is_bounded()
    ensures { (items : List Item) → may_be_held (after_all first items).documents ≡ true }
{}

/// A document that is opened or changed while the server is running is held and reported, unless it is too much; after
/// `didClose` it is not open any more, and nothing is reported for it.
pub fn what_is_opened_is_held_until_it_is_closed()
    ensures opened { (server : Server) (params : Json) (opened : OpenedValue) → server.phase ≡ Running → opened_of params ≡ Some opened
        → may_be_held (with_value server.documents opened.uri (as_document opened)) ≡ true
        → step_of server (notification (codes "textDocument/didOpen") (Some params))
        ≡ record {
          server = record server { documents = with_value server.documents opened.uri (as_document opened) };
          sent = Some (published server opened.uri opened.version opened.text);
        } }
    ensures changed { (server : Server) (params : Json) (uri : Text) (changes : List ChangeValue) (document : Document) (text : Text)
        → server.phase ≡ Running → uri_of params ≡ Some uri → changes_of params ≡ Some changes → value_of server.documents uri ≡ Some document
        → text_after server.encoding document changes ≡ Some text
        → may_be_held (with_value server.documents uri (InStep (version_of params) text)) ≡ true
        → step_of server (notification (codes "textDocument/didChange") (Some params))
        ≡ record {
          server = record server { documents = with_value server.documents uri (InStep (version_of params) text) };
          sent = Some (published server uri (version_of params) text);
        } }
    ensures closed { (server : Server) (params : Json) (uri : Text) → server.phase ≡ Running → uri_of params ≡ Some uri
        → step_of server (notification (codes "textDocument/didClose") (Some params))
        ≡ record { server = record server { documents = without_name server.documents uri }; sent = Some (unpublished uri) } }
{}

/// After a change of an open document that is not understood, or after it is opened again in a way that is not, nothing is answered
/// from the text that it had: one diagnostic says that it is out of step, and each request is answered as if it were not open.
/// Changes of parts of it change nothing then, and are not answered.
pub fn what_is_out_of_step_is_not_used()
    ensures told { (server : Server) (params : Json) (uri : Text) (document : Document) → server.phase ≡ Running → uri_of params ≡ Some uri
        → changes_of params ≡ None → value_of server.documents uri ≡ Some document
        → step_of server (notification (codes "textDocument/didChange") (Some params))
        ≡ record { server = out_of_step server uri; sent = Some (not_held uri because.OutOfStep) } }
    ensures opened { (server : Server) (params : Json) (uri : Text) (document : Document) → server.phase ≡ Running → uri_of params ≡ Some uri
        → opened_of params ≡ None → value_of server.documents uri ≡ Some document
        → step_of server (notification (codes "textDocument/didOpen") (Some params))
        ≡ record { server = out_of_step server uri; sent = Some (not_held uri because.OutOfStep) } }
    ensures asked { (server : Server) (uri : Text) (id : Json) (method : Text) (params : Option Json)
        → (step_of (out_of_step server uri) (request id method params)).sent ≡ (step_of (not_open server uri) (request id method params)).sent }
    ensures changed { (server : Server) (params : Json) (uri : Text) (changes : List ChangeValue) → server.phase ≡ Running → uri_of params ≡ Some uri
        → changes_of params ≡ Some changes → has_whole changes ≡ false → value_of server.documents uri ≡ Some OutOfStep
        → step_of server (notification (codes "textDocument/didChange") (Some params)) ≡ record { server = server; sent = None } }
{}

/// `initialize` with settings that there are begins: the server says what it can do, and reports by these settings from then
/// on. While it is running, a request that is a query is answered by what the query asks for.
pub fn what_is_asked_is_answered()
    ensures begins { (server : Server) (id params : Json) (settings : Settings) → server.phase ≡ Fresh
        → settings_asked (options_of params) ≡ Ok settings
        → step_of server (request id (codes "initialize") (Some params))
        ≡ record {
          server = record server { phase = Running; encoding = encoding_of params; settings = settings };
          sent = Some (response_of id (initialized (encoding_of params)));
        } }
    ensures answers { (server : Server) (id : Json) (method : Text) (params : Option Json) (query : QueryValue) → server.phase ≡ Running
        → bytes_eq method (codes "initialize") ≡ false → bytes_eq method (codes "shutdown") ≡ false
        → query_of server.documents method params ≡ Ok query
        → step_of server (request id method params) ≡ sends server (response_of id (answer server.encoding server.settings query)) }
{}
