//! What is true of answers. Each law is the contract of a function that does nothing.
ghost use Rattle.std.specs.Prelude.{◌≡◌, ◌≢◌, ◌≤◌, ℕ, Err, IfOk, IfSome, List, None, Option, Some, [], length};
ghost use Rattle.std.specs.Str.{IsUtf8};
ghost use Rattle.text_bytes.specs.declared.source_file.FileKind.TheVariants.{Hwdb};
ghost use Rattle.text_tables.specs.Pairs.{value_of};
ghost use Rattle.text_bytes.specs.Text.{Text};
ghost use Rattle.json.specs.Json.{Json, null};
ghost use Rattle.text_json.specs.Values.{array_of};
ghost use Rattle.lsp_answers.specs.Edits.{formatting, mended_text};
ghost use Rattle.lsp_answers.specs.Labels.{definition, references};
ghost use Rattle.lsp_answers.specs.Queries.{QueryValue, method_name, method_of, origin, query_of};
ghost use Rattle.lsp_answers.specs.declared.queries.Method.{Method};
ghost use Rattle.lsp_answers.specs.Documents.{kind_of};
ghost use Rattle.lsp_messages.specs.declared.errors.ErrorCode.TheVariants.{MethodNotFound};
ghost use Rattle.lsp_messages.specs.TextChanges.{changed};
ghost use Rattle.lsp_messages.specs.Rows.{position_of};
ghost use Rattle.lsp_messages.specs.declared.counting.Encoding.{Encoding};
ghost use Rattle.lsp_messages.specs.declared.documents.Document.{Document};
ghost use Rattle.lsp_messages.specs.declared.documents.Document.TheVariants.{InStep};

/// Each method is found by its name.
pub fn methods_are_found_by_their_names()
    ensures { (method : Method) → method_of (method_name method) ≡ Some method }
{}

/// Another method is answered with the error that says so, whatever its parameters are.
pub fn other_methods_are_not_found()
    ensures { (documents : List (Text × Document)) (method : Text) (params : Option Json) → method_of method ≡ None
        → query_of documents method params ≡ Err MethodNotFound }
{}

/// A query is about a document that is open and in step, and about its text.
pub fn queries_are_about_open_documents()
    ensures { (documents : List (Text × Document)) (method : Text) (params : Option Json)
        → IfOk (query_of documents method params)
        (λ query. (version : Option ℕ) × (value_of documents query.uri ≡ Some (InStep version query.text))) }
{}

/// Mending gives UTF-8, and never the text that is there already.
pub fn mended_texts_are_others()
    ensures utf8 { (uri text : Text) → IfSome (mended_text uri text) IsUtf8 }
    ensures other { (uri text : Text) → IfSome (mended_text uri text) (λ new. new ≢ text) }
{}

/// The range of an edit of a whole text is all of it, in a text of at most 64 MiB: after the edit the new text stands alone.
pub fn whole_edits_leave_nothing()
    ensures { (encoding : Encoding) (text new : Text) → IsUtf8 text → length text ≤ 67108864
        → changed encoding text (record { range = Some (origin, position_of encoding text (length text)); text = new }) ≡ new }
{}

/// A database file has no labels, and its style is not mended.
pub fn databases_have_no_labels()
    ensures definition { (encoding : Encoding) (query : QueryValue) → kind_of query.uri ≡ Hwdb → definition encoding query ≡ null }
    ensures references { (encoding : Encoding) (query : QueryValue) → kind_of query.uri ≡ Hwdb → references encoding query ≡ array_of [] }
    ensures formatting { (encoding : Encoding) (query : QueryValue) → kind_of query.uri ≡ Hwdb → formatting encoding query ≡ array_of [] }
{}
