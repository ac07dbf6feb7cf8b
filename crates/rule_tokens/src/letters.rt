//! The letters before the quote of a token, for a message about a wrong prefix.

ghost use Rattle.std.specs.Prelude.{◌≡◌, Ok};
ghost use Rattle.rule_tokens.specs.Prefixes.{AreWrongLetters, letters_at, quoted_at};
ghost use Rattle.rule_tokens.specs.Reading.{Gives};

use crate::heads::{attribute_of, key_of, operator_of};
use crate::kinds::TokenFaultKind;
use crate::runs::letter_length;
use text_bytes::unindented;

/// What follows the head that a text begins with, and after its blanks.
#[tactic(auto, unfolding(crate::specs::Reading::head_at, crate::specs::Prefixes::quoted_at))]
fn quoted_of(text: &[u8]) -> Result<&[u8], TokenFaultKind>
    ensures { Gives (λ x. x.now) result (quoted_at text.now) }
{
    let (_, rest) = key_of(text)?;
    let (_, rest) = attribute_of(rest)?;
    let (_, rest) = operator_of(unindented(rest))?;
    Ok(unindented(rest))
}

/// The letters directly before the quote of the token that a text begins with, as they are reported with a wrong
/// prefix. A text that does not begin like a token has none.
pub fn letters_before_quote(text: &[u8]) -> &[u8]
    // If there is a wrong prefix, these are its letters.
    ensures letters { AreWrongLetters text.now result.now }
    // The same as a function of the text, for definitions above.
    ensures value { result.now ≡ letters_at text.now }
{
    match quoted_of(text) {
        Ok(quoted) => {
            let (letters, _) = quoted.split_at(letter_length(quoted));
            letters
        }
        Err(_) => &[],
    }
}
