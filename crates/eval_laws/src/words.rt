//! What the words of a text are, and what substitutions make of them. Each function here is empty: its contract is
//! the law.
ghost use Rattle.std.specs.Prelude.{◌≡◌, ◌↔◌, ℕ, List, slice_get};
ghost use Rattle.std.specs.List.{join_with_byte};
ghost use Rattle.text_bytes.specs.Names.{underscore};
ghost use Rattle.text_bytes.specs.Text.{Text};
ghost use Rattle.eval_state.specs.Texts.{or_empty};
ghost use Rattle.text_bytes.specs.Underscores.{underscored, words};
ghost use Rattle.eval_rendering.specs.Words.{from_word, word_at};
ghost use Rattle.eval_laws.specs.TextWords.{HasNoWhitespace, HasWords, IsEndFromWord};

/// A text has its words in one way only: they are its longest runs of bytes that are not whitespace.
pub fn a_text_has_its_words()
    ensures { (text : Text) (found : List Text) → (words text ≡ found) ↔ HasWords text found }
{}

/// A text as one word has no whitespace; it is the words of the text in their order, joined by `_`, with none
/// before the first or after the last.
pub fn words_are_joined_by_underscores()
    ensures joined { (text : Text) (found : List Text) → HasWords text found → underscored text ≡ join_with_byte underscore found }
    ensures whole { (text : Text) → HasNoWhitespace (underscored text) }
{}

/// The word of a text with a number is that of its words, and empty if it has no more; a text from this word on is
/// the end that begins there.
pub fn a_number_names_a_word()
    ensures word { (number : ℕ) (text : Text) → word_at number text ≡ or_empty (slice_get (words text) number) }
    ensures end { (number : ℕ) (text : Text) → IsEndFromWord number text (from_word number text) }
{}
