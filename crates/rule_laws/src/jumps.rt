//! What is true of jumps and labels, in terms of the places of rules and not of how they are found.
//!
//! Each function here is empty: its contract is the law.
ghost use Rattle.std.specs.Prelude.{◌≡◌, ◌↔◌, List, Some};
ghost use Rattle.text_bytes.specs.Text.{Text};
ghost use Rattle.rule_types.specs.Jumps.{Names, landings};
ghost use Rattle.rule_laws.specs.Landings.{AreLandings, HasLabel, Reaches};
ghost use Rattle.rule_types.specs.declared.jumps.Landing.{Landing};

/// What becomes of each rule is at its place in the list, and no other list is so. A jump is lost if no later rule
/// has the label, and a label is unused if no earlier rule jumps to it over rules that don't have the label.
pub fn each_rule_has_its_landing()
    ensures { (rules : List Names) (found : List Landing) → AreLandings rules found ↔ (found ≡ landings rules) }
{}

/// If later rules have the label of a rule's GOTO, the rule jumps to one of them: the first.
pub fn a_jump_that_is_not_lost_reaches_a_rule()
    ensures { (rule : Names) (following : List Names) (name : Text) → rule.goto ≡ Some name → HasLabel name following → Reaches rule following }
{}
