//! Examples of documents, with what is found in them.
//!
//! Each function here is empty: its contract is what is true of the examples.
ghost use Rattle.std.specs.Prelude.{◌≡◌, ◌∷◌, [], Some, None, codes, false, true};
ghost use Rattle.text_bytes.specs.declared.source_file.FileKind.TheVariants.{Hwdb, Rules};
ghost use Rattle.lsp_words.specs.Examples.{goto, label, some_marks};
ghost use Rattle.lsp_words.specs.Jumps.{definition_of, mark_at, references_of};
ghost use Rattle.lsp_words.specs.Marks.{marks_in, marks_of};
ghost use Rattle.lsp_words.specs.Symbols.{symbol, symbols_of};
ghost use Rattle.lsp_words.specs.declared.symbols.SymbolKind.TheVariants.{Rule, Label, Record};

/// The marks of a document whose second rule is written over two rows; a comment has none.
pub fn marks_of_a_document()
    ensures { marks_of (codes "# GOTO=\"end\"" ∷ codes "KERNEL!=\"sd*\", GOTO=\"end\""
        ∷ codes "TAG+=\"a\", \\" ∷ codes "  , GOTO = \"end\"" ∷ codes "LABEL=\"end\"" ∷ [])
        ≡ goto 1 1 21 24 (codes "end") ∷ goto 2 3 12 15 (codes "end") ∷ label 4 4 7 10 (codes "end") ∷ [] }
{}

/// The marks of single rows: a name is as it is written, nothing is read after a part that is no token, and other operators
/// and braces make no marks.
pub fn marks_of_rows()
    ensures escaped { marks_in 0 1 (codes "LABEL=e\"a\\n\"") ≡ label 0 1 8 11 (codes "a\\n") ∷ [] }
    ensures faulty { marks_in 0 1 (codes "GOTO=\"a\", =\"b\", GOTO=\"c\"") ≡ goto 0 1 6 7 (codes "a") ∷ [] }
    ensures others { marks_in 0 1 (codes "GOTO+=\"a\", LABEL{x}=\"b\", LABEL==\"c\"") ≡ [] }
    ensures comment { marks_in 0 1 (codes " # LABEL=\"a\"") ≡ [] }
{}

/// Jumps between some marks: the first later label counts, and none in the rule itself or above it.
pub fn jumps_between_marks()
    ensures first { definition_of some_marks (goto 0 0 6 7 (codes "a")) ≡ Some (label 2 2 7 8 (codes "a")) }
    ensures own_rule { definition_of some_marks (goto 2 2 17 18 (codes "a")) ≡ Some (label 4 5 9 10 (codes "a")) }
    ensures above { definition_of some_marks (goto 4 4 6 7 (codes "b")) ≡ None }
    ensures label { definition_of some_marks (label 4 5 9 10 (codes "a")) ≡ Some (label 4 5 9 10 (codes "a")) }
    ensures jumps { references_of some_marks (label 2 2 7 8 (codes "a")) false ≡ goto 0 0 6 7 (codes "a") ∷ goto 2 2 17 18 (codes "a") ∷ [] }
    ensures all { references_of some_marks (goto 4 4 6 7 (codes "b")) true ≡ label 1 1 7 8 (codes "b") ∷ goto 4 4 6 7 (codes "b") ∷ [] }
{}

/// Marks at places of a row: a mark is found from before the first byte of its name to after the last one.
pub fn marks_at_places()
    ensures before { mark_at some_marks 2 6 ≡ None }
    ensures start { mark_at some_marks 2 7 ≡ Some (label 2 2 7 8 (codes "a")) }
    ensures end { mark_at some_marks 2 8 ≡ Some (label 2 2 7 8 (codes "a")) }
    ensures after { mark_at some_marks 2 9 ≡ None }
    ensures other_row { mark_at some_marks 3 7 ≡ None }
{}

/// The outline of a rules file: a rule is named by its matches, by itself if it has none, or by its label.
pub fn outline_of_rules()
    ensures { symbols_of Rules (codes "# disks" ∷ [] ∷ codes "KERNEL!=\"sd*\", GOTO=\"end\"" ∷ codes "SUBSYSTEM==\"block\" ATTR{size}!=\"0\", \\"
        ∷ codes "  ENV{a}==\"1\"" ∷ codes " TAG+=\"b\" \\" ∷ codes "# c" ∷ codes "ENV{a}==\"1\"" ∷ codes "KERNEL==\"a\", LABEL=\"end\"" ∷ [])
        ≡ symbol Rule 2 (codes "KERNEL!=\"sd*\"") ∷ symbol Rule 3 (codes "SUBSYSTEM==\"block\", ATTR{size}!=\"0\"")
        ∷ symbol Rule 5 (codes "TAG+=\"b\"") ∷ symbol Label 8 (codes "end") ∷ [] }
{}

/// The outline of a database file has its matches.
#[tactic(auto, unfolding(crate::specs::Symbols::record_symbol, crate::specs::Symbols::symbols_of))]
pub fn outline_of_a_database()
    ensures { symbols_of Hwdb (codes "# mice" ∷ codes "mouse:usb:v046d*  # a" ∷ codes " MOUSE_DPI=1" ∷ [] ∷ codes "evdev:*" ∷ [])
        ≡ symbol Record 1 (codes "mouse:usb:v046d*") ∷ symbol Record 4 (codes "evdev:*") ∷ [] }
{}
