//! Laws of patterns that show the definitions to be right.
//!
//! A definition in `specs/` is what a contract means, and so has to be believed. Each function here has an empty
//! body, and its contract says again, in other words and without the order of a computation, what the definitions
//! mean.
ghost use Rattle.std.specs.Prelude.{◌≡◌, ◌≢◌, ◌↔◌, ℕ, ◌<◌, Bool, true, false, List, [], ◌∷◌, ◌++◌, IsTrue, Ok};
ghost use Rattle.std.specs.Char.{eq_ignore_ascii_case};
ghost use Rattle.std.specs.List.{list_any};
ghost use Rattle.text_bytes.specs.Text.{Text};
ghost use Rattle.rule_laws.specs.ChoiceGrammar.{ReadsParts};
ghost use Rattle.text_core.specs.Choices.{choice, choice_blind};
ghost use Rattle.text_core.specs.Fits.{fits, SameButCase, Splits};
ghost use Rattle.rule_laws.specs.Grammar.{FollowsGrammar};
ghost use Rattle.text_core.specs.Items.{set_has, takes};
ghost use Rattle.text_core.specs.Sets.{member_has, members_have, set_of, set_takes, AreMembers, HasInSomeCase, Member};
ghost use Rattle.text_core.specs.Spell.{itself, spell, spell_blind};
ghost use Rattle.text_core.specs.declared.item.Item.{Item};
ghost use Rattle.text_core.specs.declared.item.Item.TheVariants.{Many};
ghost use Rattle.text_core.specs.declared.reading.Reading.TheVariants.{Exact, Blind};

/// Both readings of a text give what the grammar of patterns says, and nothing else.
pub fn spelling_follows_the_grammar()
    ensures exact { FollowsGrammar Exact spell }
    ensures blind { FollowsGrammar Blind spell_blind }
{}

/// Both readings of a choice give the patterns of the texts between its bars, or the fault of the first of these
/// that has one, with its place in the whole text.
pub fn choices_are_read_part_by_part()
    ensures exact { ReadsParts spell choice }
    ensures blind { ReadsParts spell_blind choice_blind }
{}

/// The texts that fit: of no item the empty one, of an item that takes a byte those of such a byte, of `Many` all,
/// and of items after items those that can be cut so that each part fits its own.
pub fn texts_fit_item_by_item()
    ensures none { (t : Text) → IsTrue (fits [] t) ↔ (t ≡ []) }
    ensures one { (x : Item) (t : Text) → x ≢ Many → IsTrue (fits (x ∷ []) t) ↔ ((b : ℕ) × (t ≡ b ∷ []) × IsTrue (takes x b)) }
    ensures many { (t : Text) → IsTrue (fits (Many ∷ []) t) }
    ensures joined { (p q : List Item) (t : Text) → IsTrue (fits (p ++ q) t) ↔ Splits (fits p) (fits q) t }
{}

/// `Many` before items fits if and only if the items fit what follows some cut of the text.
pub fn many_fits_where_some_split_does()
    ensures { (p : List Item) (t : Text) → IsTrue (fits (Many ∷ p) t) ↔ Splits (λ _. true) (fits p) t }
{}

/// Members are ranges and single bytes, and have the bytes that one of these has.
pub fn members_are_ranges_and_bytes()
    ensures written { (m : Text) → (members : List Member) × AreMembers members m }
    ensures had { (members : List Member) (m : Text) (b : ℕ) → AreMembers members m → members_have m b ≡ list_any (λ member. member_has member b) members }
{}

/// A set has just the bytes that pass its test.
pub fn set_has_what_passes()
    ensures { (p : ℕ → Bool) (b : ℕ) → b < 256 → set_has (set_of p) b ≡ p b }
{}

/// A set that is read blind has the bytes that are a member except for their case; a negated one has the others, so
/// that it has neither case of a member.
pub fn blind_set_is_joined_before_it_is_negated()
    ensures joined { (members : Text) (b : ℕ) → b < 256 → IsTrue (set_has (set_of (set_takes Blind false members)) b) ↔ HasInSomeCase members b }
    ensures negated { (members : Text) (b : ℕ) → b < 256 → IsTrue (set_has (set_of (set_takes Blind true members)) b) ↔ (HasInSomeCase members b → ⊥) }
{}

/// A byte that means itself takes, read blind, the bytes that are equal to it except for their case.
pub fn blind_byte_takes_both_cases()
    ensures { (b c : ℕ) → c < 256 → takes (itself Blind b) c ≡ eq_ignore_ascii_case b c }
{}

/// What is read blind fits, of two texts that are equal except for the case of ASCII letters, both or neither.
pub fn blind_patterns_ignore_case()
    ensures { (t u v : Text) (items : List Item) → spell_blind t ≡ Ok items → SameButCase u v → fits items u ≡ fits items v }
{}
