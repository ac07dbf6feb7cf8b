//! What is true of marks, of jumps and of outlines.
//!
//! Each function here is empty: its contract is the law.
ghost use Rattle.std.specs.Prelude.{◌≡◌, ◌<◌, ◌^◌, ◌∷◌, ◌++◌, [], List, ℕ, Bool, Some, None, All, IfSome, Contains, length, true, false};
ghost use Rattle.std.specs.List.{list_all};
ghost use Rattle.text_bytes.specs.Names.{hash, is_blank};
ghost use Rattle.text_bytes.specs.Texts.{is_empty};
ghost use Rattle.text_bytes.specs.declared.source_file.FileKind.{FileKind};
ghost use Rattle.text_bytes.specs.declared.source_file.FileKind.TheVariants.{Hwdb, Rules};
ghost use Rattle.text_bytes.specs.Text.{Text};
ghost use Rattle.lsp_words.specs.Jumps.{definition_of, references_of};
ghost use Rattle.lsp_words.specs.Laws.{IsGoalOf, IsWrittenIn};
ghost use Rattle.lsp_words.specs.Marks.{marks_in, marks_of, MarkValue};
ghost use Rattle.lsp_words.specs.Rows.{is_comment};
ghost use Rattle.lsp_words.specs.Symbols.{symbol_in};
ghost use Rattle.lsp_words.specs.declared.marks.MarkKind.TheVariants.{Label, Goto};

/// A jump leads to a label of its name in a later rule, or nowhere.
pub fn jumps_go_forward()
    ensures { (marks : List MarkValue) (jump : MarkValue) → jump.kind ≡ Goto → IfSome (definition_of marks jump) (IsGoalOf jump) }
{}

/// It leads to the first of these labels.
pub fn jumps_go_to_the_first()
    ensures { (before after : List MarkValue) (jump label : MarkValue) → jump.kind ≡ Goto
        → All (λ mark. ¬ (IsGoalOf jump mark)) before → IsGoalOf jump label → definition_of (before ++ label ∷ after) jump ≡ Some label }
{}

/// It leads nowhere if there is no such label, and only then.
pub fn jumps_without_a_label_go_nowhere()
    ensures without { (marks : List MarkValue) (jump : MarkValue) → jump.kind ≡ Goto
        → All (λ mark. ¬ (IsGoalOf jump mark)) marks → definition_of marks jump ≡ None }
    ensures only { (marks : List MarkValue) (jump : MarkValue) → jump.kind ≡ Goto
        → definition_of marks jump ≡ None → All (λ mark. ¬ (IsGoalOf jump mark)) marks }
{}

/// A label means itself.
pub fn labels_mean_themselves()
    ensures { (marks : List MarkValue) (label : MarkValue) → label.kind ≡ Label → definition_of marks label ≡ Some label }
{}

/// References have the name of their mark, and are jumps unless labels are asked for.
pub fn references_have_the_name()
    ensures named { (marks : List MarkValue) (mark : MarkValue) (with_labels : Bool)
        → All (λ other. other.name ≡ mark.name) (references_of marks mark with_labels) }
    ensures jumps { (marks : List MarkValue) (mark : MarkValue) → All (λ other. other.kind ≡ Goto) (references_of marks mark false) }
{}

/// A jump is among the references of the label to which it leads.
pub fn jumps_are_references_of_their_label()
    ensures { (before after : List MarkValue) (jump label : MarkValue) (with_labels : Bool) → jump.kind ≡ Goto
        → definition_of (before ++ jump ∷ after) jump ≡ Some label
        → references_of (before ++ jump ∷ after) label with_labels
        ≡ references_of before label with_labels ++ jump ∷ references_of after label with_labels }
{}

/// Each mark of a row is written in it: its name is between its places, with a quote on either side.
pub fn marks_are_written_in_their_row()
    ensures { (rule line : ℕ) (row : Text) → All (IsWrittenIn row) (marks_in rule line row) }
{}

/// A comment has no marks.
pub fn comments_have_no_marks()
    ensures { (rule line : ℕ) (row : Text) → is_comment row ≡ true → marks_in rule line row ≡ [] }
{}

/// Rows that an outline does not list: comments, rows of blanks, rows in which a rule goes on, and in a database file
/// rows that begin with a blank.
pub fn rows_that_are_not_listed()
    ensures comment { (line : ℕ) (goes_on : Bool) (row : Text) → is_comment row ≡ true → symbol_in Rules line goes_on row ≡ None }
    ensures comment_of_a_database { (line : ℕ) (goes_on : Bool) (row : Text) → symbol_in Hwdb line goes_on (hash ∷ row) ≡ None }
    ensures blank { (kind : FileKind) (line : ℕ) (goes_on : Bool) (row : Text) → list_all is_blank row ≡ true → symbol_in kind line goes_on row ≡ None }
    ensures continued { (line : ℕ) (row : Text) → symbol_in Rules line true row ≡ None }
    ensures indented { (line b : ℕ) (goes_on : Bool) (row : Text) → is_blank b ≡ true → symbol_in Hwdb line goes_on (b ∷ row) ≡ None }
{}

/// No entry of an outline has an empty name.
pub fn entries_have_names()
    ensures { (kind : FileKind) (line : ℕ) (goes_on : Bool) (row : Text) → IfSome (symbol_in kind line goes_on row) (λ entry. is_empty entry.name ≡ false) }
{}

/// In a document of fewer than 2^32 rows a jump leads to a row below its own.
pub fn jumps_lead_to_later_rows()
    ensures { (rows : List Text) (jump label : MarkValue) → length rows < 2 ^ 32 → Contains (marks_of rows) jump → jump.kind ≡ Goto
        → definition_of (marks_of rows) jump ≡ Some label → jump.line < label.line }
{}
