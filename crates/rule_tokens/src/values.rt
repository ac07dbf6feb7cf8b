//! What is between the quotes, piece by piece: a piece is a byte or an escape.

ghost use Rattle.std.specs.Prelude.{◌≡◌, ◌≤◌, length, option_map, true, false};
ghost use Rattle.std.specs.List.{prefix_len};
ghost use Rattle.rule_tokens.specs.Reading.{is_single, meaning_at, meant, value_length};

use crate::escapes::{Meaning, escape_of};

/// The piece of a plain value at the front, and what follows it.
#[tactic(auto, unfolding(crate::specs::Reading::piece_at, crate::specs::Values::letter_means))]
fn plain_piece(text: &[u8]) -> Option<(Meaning, &[u8])>
    ensures { meaning_at false text.now ≡ option_map (λ x. (meant x.0, x.1.now)) result }
{
    match text {
        [b'\\', b'"', rest @ ..] => Some((Meaning::Byte(b'"'), rest)),
        [b'"', ..] => None,
        [0, ..] => None,
        [b, rest @ ..] => Some((Meaning::Byte(*b), rest)),
        [] => None,
    }
}

/// The piece of an `e` value at the front, and what follows it.
#[tactic(auto, using(crate::proofs::EscapeLemmas::backslash_means), unfolding(crate::specs::Reading::piece_at))]
fn escaped_piece(text: &[u8]) -> Option<(Meaning, &[u8])>
    ensures { meaning_at true text.now ≡ option_map (λ x. (meant x.0, x.1.now)) result }
{
    match text {
        [b'\\', ..] => escape_of(&text[1..]),
        [b'"', ..] => None,
        [0, ..] => None,
        [b, rest @ ..] => Some((Meaning::Byte(*b), rest)),
        [] => None,
    }
}

/// The piece of a value at the front, and what follows it.
pub(crate) fn piece_of(escaped: bool, text: &[u8]) -> Option<(Meaning, &[u8])>
    ensures { meaning_at escaped text.now ≡ option_map (λ x. (meant x.0, x.1.now)) result }
{
    if escaped {
        escaped_piece(text)
    } else {
        plain_piece(text)
    }
}

/// Whether a byte is a piece of its own in each value: any but a backslash, a quote and NUL.
fn is_single(b: u8) -> bool
    ensures { result ≡ is_single b }
{
    b != b'\\' && b != b'"' && b != 0
}

/// How many bytes at the front are pieces of their own.
pub(crate) fn single_length(text: &[u8]) -> usize
    ensures within { result ≤ length text.now }
    ensures value { result ≡ prefix_len is_single text.now }
{
    text.iter().take_while(|b| is_single(**b)).count()
}

/// How long the value at the front is.
#[tactic(auto, using(crate::proofs::Loops::value_run, crate::proofs::Loops::value_step, crate::proofs::Loops::value_done))]
pub(crate) fn value_length(escaped: bool, text: &[u8]) -> usize
    ensures within { result ≤ length text.now }
    ensures value { result ≡ value_length escaped text.now }
{
    let (_, mut rest) = text.split_at(single_length(text));
    while let Some((_, after)) = piece_of(escaped, rest) {
        rest = after;
    }
    text.len() - rest.len()
}
