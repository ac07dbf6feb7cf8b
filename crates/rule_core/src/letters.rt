//! Where the letters of a wrong prefix are.
ghost use Rattle.std.specs.Prelude.{◌≡◌, ◌==◌, ◌≤◌, ◌-◌, length};
ghost use Rattle.std.specs.List.{after_first, prefix_len};
ghost use Rattle.rule_tokens.specs.Grammar.{is_key_byte};
ghost use Rattle.rule_core.specs.Letters.{after_braces, start_before_quote};

use text_bytes::{begins_with, split_once};

/// The place in a line of the letters directly before the first quote after the key, and the braces, with which the
/// text at the line's end begins.
pub(crate) fn letters_start(line: &[u8], text: &[u8], letters: &[u8]) -> usize
    ensures { result ≡ start_before_quote line.now text.now letters.now }
{
    line.len()
        .saturating_sub(after_byte(b'"', after_braces(text)).len())
        .saturating_sub(1)
        .saturating_sub(letters.len())
}

/// What follows the key that a text begins with, and after its braces if it has them.
fn after_braces(text: &[u8]) -> &[u8]
    ensures { result.now ≡ after_braces text.now }
{
    let (_, rest) = text.split_at(key_length(text));
    if begins_with(b'{', rest) {
        after_byte(b'}', rest)
    } else {
        rest
    }
}

/// How many bytes of a key a text begins with.
fn key_length(text: &[u8]) -> usize
    ensures value { result ≡ prefix_len is_key_byte text.now }
    ensures within { result ≤ length text.now }
{
    text.iter().take_while(|byte| is_key_byte(**byte)).count()
}

/// Whether a byte may be in a key.
fn is_key_byte(byte: u8) -> bool
    ensures { result ≡ is_key_byte byte }
{
    byte.is_ascii_alphanumeric() || byte == b'_'
}

/// What follows the first such byte of a text, nothing if it has none.
#[tactic(auto, using(crate::proofs::Cuts::rest_of_cut))]
fn after_byte(byte: u8, text: &[u8]) -> &[u8]
    ensures { result.now ≡ after_first (λ b. b == byte) text.now }
{
    match split_once(byte, text) {
        Some((_, rest)) => rest,
        None => &[],
    }
}
