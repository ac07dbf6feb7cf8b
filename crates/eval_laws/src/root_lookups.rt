//! What is true of the answers to lines.
//!
//! Each function here is empty: its contract is the law.
ghost use Rattle.std.specs.Prelude.{◌≡◌, ◌==◌, ◌∷◌, ◌++◌, [], ℕ, false};
ghost use Rattle.text_bytes.specs.Names.{newline};
ghost use Rattle.text_bytes.specs.Text.{Text};
ghost use Rattle.engine_reports.specs.LookupOutcomes.{lines_outcome};

/// A last line without a newline is answered as it is with one.
pub fn a_last_line_needs_no_newline()
    ensures { (messages : Text) (answer : Text → Text) (text : Text) (byte : ℕ) → (byte == newline) ≡ false
        → lines_outcome messages answer (text ++ byte ∷ []) ≡ lines_outcome messages answer (text ++ byte ∷ newline ∷ []) }
{}
