//! What is true of answers of several lines. Each function here is empty: its contract is the law.
ghost use Rattle.std.specs.Prelude.{◌≡◌, ◌∷◌, ◌++◌, [], List, Some};
ghost use Rattle.text_bytes.specs.Names.{carriage_return};
ghost use Rattle.text_bytes.specs.Text.{Text};
ghost use Rattle.device_core.specs.Blocks.{answers};
ghost use Rattle.device_core.specs.Lines.{Row};
ghost use Rattle.device_core.specs.Parts.{answer_of};
ghost use Rattle.device_core.specs.Values.{AnswerValue};
ghost use Rattle.device_core.specs.declared.lines.LineKind.TheVariants.{Answer, Output};

/// An `O:` line below an answer is one more line of its text, behind a carriage return.
pub fn a_line_below_an_answer_is_one_more_of_it()
    ensures { (rows : List Row) (rest line : Text) (answer : AnswerValue) → answer_of rest ≡ Some answer
        → answers (rows ++ (Answer, rest) ∷ (Output, line) ∷ [])
        ≡ answers rows ++ record answer { text = answer.text ++ carriage_return ∷ line } ∷ [] }
{}
