//! What is true of reading a template, in terms of texts and pieces alone.
//!
//! Each function here is empty: its contract is the law.
ghost use Rattle.text_bytes.specs.Text.{Text};
ghost use Rattle.rule_tokens.specs.TemplateGrammar.{IsRead, OneAnswer};

/// The pieces that are read from a text are those that spell it, and a fault is the first from the left: just
/// these, and no others.
pub fn what_is_read_is_what_is_spelled()
    ensures { (text : Text) → IsRead text }
{}

/// A text has one answer: its pieces, or its first fault and the pieces before that.
pub fn a_text_has_one_answer()
    ensures { OneAnswer }
{}
