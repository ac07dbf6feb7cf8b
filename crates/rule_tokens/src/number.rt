//! The number in the braces after `$result` and `%c`.
ghost use Rattle.std.specs.Prelude.{◌≡◌, ◌≤◌, ◌<◌, ◌^◌};
ghost use Rattle.rule_tokens.specs.Number.{number_of, numbered_word, udev_word_of, without_plus, word_number, word_of};

use crate::integers::natural_of;
use crate::piece::Piece;
use text_bytes::{decimal_below, ends_in};

/// The number from 1 to 65535 that a text writes in decimal digits.
fn number_of(text: &[u8]) -> Option<u16>
    ensures { result ≡ number_of text.now }
{
    match decimal_below(65_536, text) {
        None | Some(0) => None,
        Some(number) => Some(number as u16),
    }
}

/// The word, or the words from one on, that the content of the braces asks for.
#[tactic(auto, unfolding(crate::specs::Number::word_of))]
pub(crate) fn word_of(content: &[u8]) -> Option<Piece>
    ensures { result ≡ word_of content.now }
{
    if ends_in(b'+', content) {
        let (prefix, _) = content.split_at(content.len().saturating_sub(1));
        number_of(prefix).map(|number| Piece::From(number))
    } else {
        number_of(content).map(|number| Piece::Word(number))
    }
}

/// A text without the plus that it ends in, if it does.
fn without_plus(content: &[u8]) -> &[u8]
    ensures { result.now ≡ without_plus content.now }
{
    if ends_in(b'+', content) {
        let (prefix, _) = content.split_at(content.len().saturating_sub(1));
        prefix
    } else {
        content
    }
}

/// The number of a word, 65535 if it is greater than that: no result has so many words.
fn word_number(number: u64) -> u16
    ensures { result ≡ word_number number }
{
    if number < 65_535 {
        number as u16
    } else {
        65_535
    }
}

/// What udev gives for a number in the braces, with a plus after it or without one.
fn numbered_word(has_plus: bool, number: u64) -> Piece
    ensures { result ≡ numbered_word has_plus number }
{
    if number == 0 {
        Piece::Result
    } else if has_plus {
        Piece::From(word_number(number))
    } else {
        Piece::Word(word_number(number))
    }
}

/// The result, a word of it, or the words from one on, that the content of the braces asks for by udev.
#[tactic(auto, unfolding(crate::specs::Number::udev_word_of))]
pub(crate) fn udev_word_of(content: &[u8]) -> Option<Piece>
    ensures { result ≡ udev_word_of content.now }
{
    let number = natural_of(without_plus(content))?;
    Some(numbered_word(ends_in(b'+', content), number))
}
