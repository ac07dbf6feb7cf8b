//! Laws of the language of lines, each the contract of a function with an empty body.

ghost use Rattle.rule_tokens.specs.Grammar.{SomeAnswer, OneAnswer};
ghost use Rattle.rule_tokens.specs.Values.{OneMeaning, NoNul};
ghost use Rattle.rule_tokens.specs.Places.{AllLie, AllRise};
ghost use Rattle.rule_tokens.specs.Lines.{ItemsAreLexed, ValuesAreMeant};

/// Each line has one list of tokens and one end.
#[tactic(auto, using(rule_tokens::proofs::Lines::some_answer, rule_tokens::proofs::Lines::one_answer))]
pub fn line_has_one_answer()
    ensures some { SomeAnswer }
    ensures one { OneAnswer }
{}

/// A value has at most one meaning.
pub fn value_has_one_meaning()
    ensures { OneMeaning }
{}

/// No value has a NUL, and none means one.
pub fn value_has_no_nul()
    ensures { NoNul }
{}

/// The parts of a line's tokens are in the line at their places, and each token begins where the
/// one before it ends, or after that; so does the fault.
#[tactic(auto, using(rule_tokens::proofs::PlaceLemmas::all_lie, rule_tokens::proofs::PlaceLemmas::all_rise))]
pub fn parts_lie_in_line()
    ensures within { AllLie }
    ensures rising { AllRise }
{}

/// Rules are defined by `items_of` and `unquoted`, and these agree with the grammar: the items of a line are its
/// tokens and its end, and the value of each token means what is unquoted from it.
#[tactic(auto, using(crate::proofs::Placement::items_are_lexed))]
pub fn rules_follow_the_grammar()
    ensures items { ItemsAreLexed }
    ensures values { ValuesAreMeant }
{}
