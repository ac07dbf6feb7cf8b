//! Laws that show the definitions of udev's reading to be right.
//!
//! Each function here is empty: its contract is a law of the definitions.
ghost use Rattle.std.specs.Prelude.{◌≡◌, ◌≢◌, ◌↔◌, ◌∷◌, ◌++◌, [], ℕ, pos, false, List, Ok, Some, None, codes};
ghost use Rattle.text_bytes.specs.Text.{Text};
ghost use Rattle.text_bytes.specs.Names.{dollar, percent};
ghost use Rattle.text_bytes.specs.declared.profile.Profile.TheVariants.{Udev};
ghost use Rattle.rule_tokens.specs.TemplateGrammar.{HasName};
ghost use Rattle.rule_tokens.specs.Integers.{integer_of, natural_of};
ghost use Rattle.rule_tokens.specs.Names.{long_names_as, short_names_as};
ghost use Rattle.rule_tokens.specs.Number.{udev_word_of};
ghost use Rattle.rule_tokens.specs.TemplateReading.{is_faulty, left_of, udev_pieces};
ghost use Rattle.rule_tokens.specs.declared.names.Substitution.{Substitution};
ghost use Rattle.rule_tokens.specs.declared.piece.Piece.{Piece};
ghost use Rattle.rule_tokens.specs.declared.piece.Piece.TheVariants as piece;

/// udev reports no fault if and only if each piece of a text can be read, and then takes all of them.
pub fn a_text_without_a_fault_has_its_pieces()
    ensures faultless { (text : Text) → (is_faulty text ≡ false) ↔ ((pieces : List Piece) × (udev_pieces text ≡ Ok pieces)) }
    ensures whole { (text : Text) (pieces : List Piece) → udev_pieces text ≡ Ok pieces → left_of text ≡ pieces }
{}

/// A text writes a natural number if and only if the integer that it writes is not below zero.
pub fn natural_numbers_are_integers()
    ensures { (text : Text) (n : ℕ) → (natural_of text ≡ Some n) ↔ (integer_of text ≡ Some (pos n)) }
{}

/// A sign that no name follows stands for itself, and what follows it is read on.
pub fn an_unknown_sign_is_a_byte()
    ensures dollar { (text : Text) → ((n : Text) (s : Substitution) (rest : Text) → HasName (long_names_as Udev) n s → text ≢ n ++ rest)
        → left_of (dollar ∷ text) ≡ piece.Plain (dollar ∷ []) ∷ left_of text }
    ensures percent { (text : Text) → ((n : Text) (s : Substitution) (rest : Text) → HasName (short_names_as Udev) n s → text ≢ n ++ rest)
        → left_of (percent ∷ text) ≡ piece.Plain (percent ∷ []) ∷ left_of text }
{}

/// What udev takes from some texts, and what it reads between the braces of `$result`.
pub fn texts_are_taken_as_udev_takes_them()
    ensures braces { left_of (codes "x$kernel{foo}y") ≡ piece.Plain (codes "x") ∷ piece.Kernel ∷ piece.Plain (codes "y") ∷ [] }
    ensures ends { left_of (codes "q$attr r") ≡ piece.Plain (codes "q") ∷ [] }
    ensures names { left_of (codes "$tempnode %D $sysfs{model}")
        ≡ piece.Devnode ∷ piece.Plain (codes " ") ∷ piece.Name ∷ piece.Plain (codes " ") ∷ piece.Attr (codes "model") ∷ [] }
    ensures octal { udev_word_of (codes "010") ≡ Some (piece.Word 8) }
    ensures hexadecimal { udev_word_of (codes "0x10+") ≡ Some (piece.From 16) }
    ensures zero { udev_word_of (codes "-0+") ≡ Some piece.Result }
    ensures great { udev_word_of (codes "4294967296") ≡ None }
{}
