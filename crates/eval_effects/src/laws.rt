//! What is true of the texts about what assignments did.
//!
//! Each function here is empty: its contract is the law.
ghost use Rattle.std.specs.Prelude.{◌≡◌, ◌<◌, ◌≤◌, All, List, find, length, option_map};
ghost use Rattle.text_bytes.specs.Text.{Text};
ghost use Rattle.rule_types.specs.Rules.{Rule};
ghost use Rattle.eval_state.specs.Finals.{is_final};
ghost use Rattle.eval_state.specs.declared.finals.FinalKey.{FinalKey};
ghost use Rattle.eval_state.specs.declared.finals.Finals.{Finals};
ghost use Rattle.eval_effects.specs.Laws.{ReportsIgnored, ReportsNone, ReportsSkipped, ReportsTooLong, read_back, since_over};
ghost use Rattle.eval_effects.specs.Shown.{shown};

/// A key has been final since the first rule after which it is final.
pub fn final_since_the_first_rule()
    ensures { (stages : List (Rule × Finals)) (key : FinalKey)
        → since_over stages key ≡ option_map (λ stage. stage.0) (find (λ stage. is_final stage.1 key) stages) }
{}

/// The note that an assignment leaves says that its text was too long or its NAME ignored, and for udev that the
/// device has no number.
pub fn notes_say_what_is_left_out()
    ensures none { ReportsNone }
    ensures skipped { ReportsSkipped }
    ensures too_long { ReportsTooLong }
    ensures ignored { ReportsIgnored }
{}

/// A text of at most 200 bytes is read back from how it is shown, so that no two of these are shown alike.
#[tactic(auto, using(crate::proofs::ReadBack::shown_read_back))]
pub fn shown_texts_are_read_back()
    ensures { (text : Text) → All (λ b. b < 256) text → length text ≤ 200 → read_back (shown text) ≡ text }
{}
