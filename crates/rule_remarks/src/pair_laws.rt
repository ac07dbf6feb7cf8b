//! Laws of pairs of tokens, each the contract of a function with an empty body.
ghost use Rattle.std.specs.Prelude.{◌≡◌, ◌≤◌, ◌↔◌, ◌&&◌, [], if◌then◌else◌, not, true, false, nat_eq, List, filter, length, option_map};
ghost use Rattle.std.specs.List.{find, slice_split, starts_with};
ghost use Rattle.text_core.specs.Choices.{is_bar};
ghost use Rattle.text_bytes.specs.Text.{Text};
ghost use Rattle.text_tables.specs.Texts.{is_among};
ghost use Rattle.text_bytes.specs.Texts.{is_empty};
ghost use Rattle.file_messages.specs.declared.message.MessageKind.TheVariants.{MatchesExclude, SaidTwice};
ghost use Rattle.rule_remarks.specs.Pairs.{Pair, are_related, finding, is_of_kind, message_of, reported_for, same_kind};
ghost use Rattle.rule_remarks.specs.Relations.{are_alike, is_against, is_same, part_ways, same_words};
ghost use Rattle.rule_remarks.specs.Said.{Said};
ghost use Rattle.rule_remarks.specs.Words.{parts_of};
ghost use Rattle.rule_remarks.specs.declared.pair_finding.PairKind.{PairKind};
ghost use Rattle.rule_remarks.specs.declared.pair_finding.PairKind.TheVariants.{Same, Against};

/// Whether two tokens are alike does not depend on which is written first.
#[tactic(auto, using(crate::proofs::Likeness::alike_reversed))]
pub fn likeness_has_no_order()
    ensures { (a b : Said) → are_alike a b ≡ are_alike b a }
{}

/// Two tokens that say the same do not exclude each other.
#[tactic(auto, using(crate::proofs::Likeness::never_both))]
pub fn no_pair_is_of_both_kinds()
    ensures { (a b : Said) → is_same a b ≡ true → is_against a b ≡ false }
{}

/// The message about a pair says that it is said twice if both tokens say the same, and otherwise that they exclude each other.
#[tactic(auto, using(crate::proofs::Likeness::message_is))]
pub fn what_two_tokens_say_makes_the_message()
    ensures { (kind : PairKind) (a b : Said) → are_related kind a b ≡ true → message_of kind ≡ (if is_same a b then SaidTwice else MatchesExclude) }
{}

/// The first pair of each kind is reported, and no other.
pub fn the_first_pair_of_a_kind_is_reported()
    ensures first { (kind : PairKind) (pairs : List Pair) → find (λ f. same_kind kind f.kind) (reported_for [] pairs)
        ≡ option_map (finding kind) (find (is_of_kind kind) pairs) }
    ensures once { (kind : PairKind) (pairs : List Pair) → length (filter (λ f. same_kind kind f.kind) (reported_for [] pairs)) ≤ 1 }
{}

/// The words of a text with bars are just the texts between its bars that are not empty.
#[tactic(auto, using(crate::proofs::WordSets::words_between))]
pub fn words_are_the_parts_between_bars()
    ensures { (text word : Text) → is_among (parts_of text) word ≡ (not (is_empty word) && is_among (slice_split is_bar text) word) }
{}

/// Two lists have the same words if and only if the same words are among them.
#[tactic(auto, using(crate::proofs::WordSets::one_set))]
pub fn same_words_are_one_set()
    ensures { (words others : List Text) → (same_words words others ≡ true) ↔ ((word : Text) → is_among words word ≡ is_among others word) }
{}

/// A text that begins with one of two texts that part ways does not begin with the other.
#[tactic(auto, using(crate::proofs::Beginnings::no_text_has_both))]
pub fn no_text_begins_with_both()
    ensures { (x y text : Text) → part_ways x y ≡ true → starts_with nat_eq text x ≡ true → starts_with nat_eq text y ≡ false }
{}
