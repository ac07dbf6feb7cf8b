//! Parts of rules that are matches.
ghost use Rattle.std.specs.List.{list_any};
ghost use Rattle.std.specs.Prelude.{◌≡◌};
ghost use Rattle.rule_file_lints.specs.Matches.{is_match, may_end_at};

use rule_core::WrittenPart;
use rule_types::Part;

/// Whether a part of a rule is a match of the event, of one device of the chain or of the result.
pub(crate) fn is_match(part: &Part) -> bool
    ensures { result ≡ is_match part.now }
{
    match part {
        Part::Plain(_) | Part::Up(_) | Part::Result(_) => true,
        _ => false,
    }
}

/// Whether a rule may end at a part: it is a match, or something that is done while the rule is matched.
fn may_end_at(part: &Part) -> bool
    ensures { result ≡ may_end_at part.now }
{
    match part {
        Part::Act(_) => true,
        _ => is_match(part),
    }
}

/// Whether a rule may end at one of these tokens.
pub(crate) fn may_end(tokens: &[WrittenPart<'_>]) -> bool
    ensures { result ≡ list_any (λ w. may_end_at w.part) tokens.now }
{
    tokens.iter().any(|token| may_end_at(&token.part))
}
