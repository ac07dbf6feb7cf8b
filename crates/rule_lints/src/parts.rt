//! What the lints look at in a part of a rule.
ghost use Rattle.std.specs.Prelude.{◌≡◌, option_map};
ghost use Rattle.rule_lints.specs.Parts.{change_of, comparison_of, is_equal};

use rule_types::{Change, Comparison, MatchOperator, Part};

/// What a part changes, if it is an assignment.
pub(crate) fn change_of(part: &Part) -> Option<&Change>
    ensures { option_map (λ change. change.now) result ≡ change_of part.now }
{
    match part {
        Part::Set(assignment) => Some(&assignment.change),
        _ => None,
    }
}

/// What a part compares with, if it is a match.
pub(crate) fn comparison_of(part: &Part) -> Option<&Comparison>
    ensures { option_map (λ wanted. wanted.now) result ≡ comparison_of part.now }
{
    match part {
        Part::Plain(asked) => Some(&asked.wanted),
        Part::Up(asked) => Some(&asked.wanted),
        Part::Result(wanted) => Some(wanted),
        _ => None,
    }
}

/// Whether an operator is `==`.
pub(crate) fn is_equal(operator: MatchOperator) -> bool
    ensures { result ≡ is_equal operator }
{
    matches!(operator, MatchOperator::Equal)
}
