//! What making a text safe does, in terms of bytes. Each function here is empty: its contract is the law.
ghost use Rattle.std.specs.Prelude.{◌≡◌, ◌↔◌, ◌<◌, ℕ, length};
ghost use Rattle.text_bytes.specs.Text.{Text};
ghost use Rattle.text_bytes.specs.Safe.{attribute_marks, link_marks, safe};
ghost use Rattle.eval_laws.specs.SafeTexts.{IsMadeSafe, IsSafe};

/// A text that was made safe has only ASCII letters and digits, marks, spaces, backslashes with an `x`
/// after them, and bytes over 127 that are part of a UTF-8 sequence.
pub fn safe_texts_are_safe()
    ensures link { (text : Text) → IsSafe link_marks (safe link_marks text) }
    ensures attribute { (text : Text) → IsSafe attribute_marks (safe attribute_marks text) }
{}

/// Exactly the texts of such bytes are left as they are, so that making safe twice is making safe once.
pub fn safe_bytes_stay()
    ensures same { (marks text : Text) → IsSafe marks text → safe marks text ≡ text }
    ensures link { (text : Text) → (safe link_marks text ≡ text) ↔ IsSafe link_marks text }
    ensures attribute { (text : Text) → (safe attribute_marks text ≡ text) ↔ IsSafe attribute_marks text }
    ensures link_twice { (text : Text) → safe link_marks (safe link_marks text) ≡ safe link_marks text }
    ensures attribute_twice { (text : Text) → safe attribute_marks (safe attribute_marks text) ≡ safe attribute_marks text }
{}

/// A text made safe keeps its length. Byte by byte, what is safe where it is stays, other whitespace becomes a
/// space, and any other byte `_`.
pub fn other_bytes_are_replaced()
    ensures as_long { (marks text : Text) → length (safe marks text) ≡ length text }
    ensures bytes { (marks text : Text) (place : ℕ) → place < length text → IsMadeSafe marks text (safe marks text) place }
{}
