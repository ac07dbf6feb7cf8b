//! What is true of matches that are refused.
//!
//! The function here is empty: its contract is the law.
ghost use Rattle.std.specs.Prelude.{◌≡◌, ◌⊎◌, ◌&&◌, List, None, codes, false};
ghost use Rattle.std.specs.List.{AllByRecursion};
ghost use Rattle.clap.specs.Words.{Row, Text};
ghost use Rattle.devdry_words.specs.Refusals.{reasons, refusal_of};
ghost use Rattle.devdry_words.specs.Values.{has_value, is_set};

/// Matches that are not refused meet no reason for it: they have no two options that exclude each other.
pub fn no_reason_is_met_by_what_is_taken()
    ensures none { (name : Text) (rows : List Row) → refusal_of name rows ≡ None → AllByRecursion (λ reason. reason.0 ≡ false) (reasons name rows) }
    ensures links { (name other : Text) (rows : List Row) → refusal_of name rows ≡ None → (other ≡ codes "udev") ⊎ (other ≡ codes "strict")
        → (is_set (codes "links") rows && is_set other rows) ≡ false }
    ensures questions { (name other : Text) (rows : List Row) → refusal_of name rows ≡ None → (other ≡ codes "sources") ⊎ (other ≡ codes "unused")
        → (is_set (codes "questions") rows && is_set other rows) ≡ false }
    ensures added { (name : Text) (rows : List Row) → refusal_of name rows ≡ None → (has_value (codes "with") rows && has_value (codes "FILE") rows) ≡ false }
{}
