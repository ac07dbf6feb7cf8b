//! Runs of bytes of a class at the front of a text, and what closes them.

ghost use Rattle.std.specs.Prelude.{◌≡◌, ◌≤◌, ◌<◌, length};
ghost use Rattle.std.specs.List.{prefix_len};
ghost use Rattle.text_bytes.specs.Texts.{skip_while};
ghost use Rattle.rule_tokens.specs.Grammar.{is_key_byte, is_gap_byte, is_letter, is_attribute_byte};
ghost use Rattle.rule_tokens.specs.Reading.{Gives, closed_at};

use crate::kinds::TokenFaultKind;
use text_bytes::is_blank;

/// Whether a byte may be in a key: a letter, a digit or `_`.
fn is_key_byte(b: u8) -> bool
    ensures { result ≡ is_key_byte b }
{
    b.is_ascii_alphanumeric() || b == b'_'
}

/// Whether a byte may be in the gap between tokens: a blank or a comma.
fn is_gap_byte(b: u8) -> bool
    ensures { result ≡ is_gap_byte b }
{
    is_blank(b) || b == b','
}

/// Whether a byte may be in an attribute: any but `}` and NUL.
fn is_attribute_byte(b: u8) -> bool
    ensures { result ≡ is_attribute_byte b }
{
    b != b'}' && b != 0
}

/// How many bytes of a key are at the front.
pub(crate) fn key_length(text: &[u8]) -> usize
    ensures within { result ≤ length text.now }
    ensures value { result ≡ prefix_len is_key_byte text.now }
{
    text.iter().take_while(|b| is_key_byte(**b)).count()
}

/// How many blanks and commas are at the front.
fn gap_length(text: &[u8]) -> usize
    ensures within { result ≤ length text.now }
    ensures value { result ≡ prefix_len is_gap_byte text.now }
{
    text.iter().take_while(|b| is_gap_byte(**b)).count()
}

/// How many bytes of an attribute are at the front.
pub(crate) fn attribute_length(text: &[u8]) -> usize
    ensures within { result ≤ length text.now }
    ensures value { result ≡ prefix_len is_attribute_byte text.now }
{
    text.iter().take_while(|b| is_attribute_byte(**b)).count()
}

/// How many letters are at the front.
pub(crate) fn letter_length(text: &[u8]) -> usize
    ensures within { result ≤ length text.now }
    ensures value { result ≡ prefix_len is_letter text.now }
{
    text.iter().take_while(|b| b.is_ascii_alphabetic()).count()
}

/// What follows the blanks and commas at the front.
pub(crate) fn after_gap(text: &[u8]) -> &[u8]
    ensures shorter { length result.now ≤ length text.now }
    ensures value { result.now ≡ skip_while is_gap_byte text.now }
{
    &text[gap_length(text)..]
}

/// The first `n` bytes, if `close` directly follows them, and what follows it.
#[tactic(auto, unfolding(crate::specs::Reading::closed_at))]
pub(crate) fn closed_of(text: &[u8], n: usize, close: u8) -> Result<(&[u8], &[u8]), TokenFaultKind>
    requires { 0 < close }
    ensures { Gives (λ x. (x.0.now, x.1.now)) result (closed_at close n text.now) }
{
    if n < text.len() && text[n] == close {
        Ok((&text[..n], &text[n + 1..]))
    } else {
        Err(TokenFaultKind::Syntax)
    }
}
