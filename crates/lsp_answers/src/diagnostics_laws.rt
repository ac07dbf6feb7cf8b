//! What is true of diagnostics of documents. Each law is the contract of a function that does nothing.
ghost use Rattle.std.specs.Prelude.{◌≡◌, [], ◌∷◌, true};
ghost use Rattle.text_bytes.specs.declared.source_file.FileKind.TheVariants.{Hwdb, Rules};
ghost use Rattle.text_bytes.specs.Text.{Text};
ghost use Rattle.hwdb_core.specs.Sources.{are_few};
ghost use Rattle.rule_core.specs.Ends.{file_as_read};
ghost use Rattle.engine_sessions.specs.declared.line.Line.{Line};
ghost use Rattle.engine_formats.specs.Paths.{path_of};
ghost use Rattle.engine_checks.specs.Files.{database_reported, rules_reported};
ghost use Rattle.engine_checks.specs.Tables.{AsksLike};
ghost use Rattle.lsp_answers.specs.Diagnostics.{diagnostic_values};
ghost use Rattle.lsp_answers.specs.Documents.{document_diagnostics, file_of, kind_of};
ghost use Rattle.lsp_answers.specs.Settings.{Settings, asked_by};
ghost use Rattle.lsp_messages.specs.declared.counting.Encoding.{Encoding};

use engine_checks::a_file_by_itself_is_reported_alike;

/// The diagnostics of a document are those that `verify` reports for a file of the same bytes, or `update` for a file of a
/// database, where the command line asks for the same and opens the file by the URI: each of them, in the same order.
pub fn diagnostics_are_those_of_the_program()
    ensures rules { (line : Line) (encoding : Encoding) (settings : Settings) (uri text : Text) → kind_of uri ≡ Rules
        → AsksLike line (asked_by settings) → path_of line (file_of uri text) ≡ uri
        → document_diagnostics encoding settings uri text
        ≡ diagnostic_values encoding (rules_reported line (file_as_read line.profile (file_of uri text))) }
    ensures database { (line : Line) (encoding : Encoding) (settings : Settings) (uri text : Text) → kind_of uri ≡ Hwdb
        → AsksLike line (asked_by settings) → path_of line (file_of uri text) ≡ uri → are_few (file_of uri text ∷ []) ≡ true
        → document_diagnostics encoding settings uri text
        ≡ diagnostic_values encoding (database_reported line (file_of uri text)) }
{
    a_file_by_itself_is_reported_alike();
}
