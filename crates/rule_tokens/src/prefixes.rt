//! The letters before a value's first quote.

ghost use Rattle.std.specs.Prelude.{◌≡◌};
ghost use Rattle.rule_tokens.specs.Values.{has_escapes};
ghost use Rattle.rule_tokens.specs.Grammar.{prefix_quote};
ghost use Rattle.rule_tokens.specs.Reading.{Gives, quote_at};

use crate::kinds::{Operator, Quote, TokenFaultKind};
use crate::runs::{closed_of, letter_length};

/// The quoting that letters ask for after this operator, if they are a prefix.
#[tactic(auto, unfolding(crate::specs::Grammar::prefix_quote))]
fn prefix_quote(operator: Operator, letters: &[u8]) -> Option<Quote>
    ensures { result ≡ prefix_quote operator letters.now }
{
    let blind = operator.compares();
    match letters {
        [] => Some(Quote::Plain),
        [b'e'] => Some(Quote::Escaped),
        [b'i'] if blind => Some(Quote::Blind),
        [b'i', b'e'] | [b'e', b'i'] if blind => Some(Quote::BlindEscaped),
        _ => None,
    }
}

/// The letters and the quote at the front, and what follows the quote.
#[tactic(auto, unfolding(crate::specs::Reading::quote_at))]
pub(crate) fn quote_of(operator: Operator, text: &[u8]) -> Result<(Quote, &[u8]), TokenFaultKind>
    ensures { Gives (λ x. (x.0, x.1.now)) result (quote_at operator text.now) }
{
    let (letters, rest) = closed_of(text, letter_length(text), b'"')?;
    match prefix_quote(operator, letters) {
        Some(quote) => Ok((quote, rest)),
        None => Err(TokenFaultKind::Prefix),
    }
}

/// Whether a value has escapes as in C.
pub(crate) fn has_escapes(quote: Quote) -> bool
    ensures { result ≡ has_escapes quote }
{
    match quote {
        Quote::Plain | Quote::Blind => false,
        Quote::Escaped | Quote::BlindEscaped => true,
    }
}
