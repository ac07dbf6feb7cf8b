//! What follows from sketches and first bytes. Each function here is empty: its contract is the law.
ghost use Rattle.std.specs.Prelude.{◌≡◌, ℕ, true, List, Some};
ghost use Rattle.text_bytes.specs.Text.{Text};
ghost use Rattle.text_core.specs.Choices.{choice_fits};
ghost use Rattle.text_core.specs.declared.item.Item.{Item};
ghost use Rattle.eval_core.specs.Sketches.{exact_head, exact_sketch, first_byte, sketch};

/// A text that a choice fits has the sketch that is found for the choice.
pub fn texts_that_fit_have_the_sketch()
    ensures { (choice : List (List Item)) (found : ℕ) (text : Text) → exact_sketch choice ≡ Some found → choice_fits choice text ≡ true → sketch text ≡ found }
{}

/// A text that a choice fits has the first byte that is found for the choice.
pub fn texts_that_fit_have_the_first_byte()
    ensures { (choice : List (List Item)) (found : ℕ) (text : Text) → exact_head choice ≡ Some found → choice_fits choice text ≡ true
        → first_byte text ≡ found }
{}
