//! What comes before a token's value: its key, its attribute and its operator.

ghost use Rattle.std.specs.Prelude.{option_map};
ghost use Rattle.rule_tokens.specs.Reading.{Gives, key_at, attribute_at, operator_at};

use crate::kinds::{Operator, TokenFaultKind};
use crate::runs::{attribute_length, closed_of, key_length};

/// The key at the front, and what follows it.
#[tactic(auto, unfolding(crate::specs::Reading::key_at))]
pub(crate) fn key_of(text: &[u8]) -> Result<(&[u8], &[u8]), TokenFaultKind>
    ensures { Gives (λ x. (x.0.now, x.1.now)) result (key_at text.now) }
{
    let n = key_length(text);
    if n == 0 {
        return Err(TokenFaultKind::Syntax);
    }
    Ok(text.split_at(n))
}

/// The name in braces at the front, if there is an open brace, and what follows it.
#[tactic(auto, unfolding(crate::specs::Reading::attribute_at))]
pub(crate) fn attribute_of(text: &[u8]) -> Result<(Option<&[u8]>, &[u8]), TokenFaultKind>
    ensures { Gives (λ x. (option_map (λ a. a.now) x.0, x.1.now)) result (attribute_at text.now) }
{
    match text {
        [b'{', rest @ ..] => {
            let (name, rest) = closed_of(rest, attribute_length(rest), b'}')?;
            Ok((Some(name), rest))
        }
        _ => Ok((None, text)),
    }
}

/// The operator at the front, and what follows it.
#[tactic(auto, unfolding(crate::specs::Reading::operator_at))]
pub(crate) fn operator_of(text: &[u8]) -> Result<(Operator, &[u8]), TokenFaultKind>
    ensures { Gives (λ x. (x.0, x.1.now)) result (operator_at text.now) }
{
    match text {
        [b'=', b'=', rest @ ..] => Ok((Operator::Equal, rest)),
        [b'!', b'=', rest @ ..] => Ok((Operator::NotEqual, rest)),
        [b'+', b'=', rest @ ..] => Ok((Operator::Add, rest)),
        [b'-', b'=', rest @ ..] => Ok((Operator::Remove, rest)),
        [b':', b'=', rest @ ..] => Ok((Operator::AssignFinal, rest)),
        [b'=', rest @ ..] => Ok((Operator::Assign, rest)),
        _ => Err(TokenFaultKind::Syntax),
    }
}
