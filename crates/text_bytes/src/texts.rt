//! What a text begins with and ends with, its blanks, and what is reported of it.
ghost use Rattle.std.specs.Prelude.{◌≡◌, ◌≤◌, ◌<◌, ◌+◌, length, option_map, IfSome};
ghost use Rattle.std.specs.List.{prefix_len, suffix_len};
ghost use Rattle.text_bytes.specs.Names.{is_blank, is_whitespace};
ghost use Rattle.text_bytes.specs.Texts.{begins_with, ends_in, following, split_once, trimmed, unindented, up_to, without_last, word_of};

use crate::search::find;

/// How many bytes of a text are reported.
const MAX_WORD: usize = 32;

/// Whether a byte is a space or a tab.
pub fn is_blank(byte: u8) -> bool
    ensures { result ≡ is_blank byte }
{
    byte == b' ' || byte == b'\t'
}

/// Whether a byte is a space or one of the controls from tab to carriage return.
pub fn is_whitespace(byte: u8) -> bool
    ensures { result ≡ is_whitespace byte }
{
    byte == b' ' || (b'\t' <= byte && byte <= b'\r')
}

/// What follows the front of a text, if it begins with that.
pub fn following<'a>(prefix: &[u8], text: &'a [u8]) -> Option<&'a [u8]>
    ensures value { option_map (λ t. t.now) result ≡ following prefix.now text.now }
    ensures within { IfSome result (λ t. length t.now ≤ length text.now) }
{
    text.strip_prefix(prefix)
}

/// Whether a text begins with a byte.
pub fn begins_with(byte: u8, text: &[u8]) -> bool
    ensures { result ≡ begins_with byte text.now }
{
    match text.first() {
        None => false,
        Some(first) => *first == byte,
    }
}

/// Whether a text ends in a byte.
pub fn ends_in(byte: u8, text: &[u8]) -> bool
    ensures { result ≡ ends_in byte text.now }
{
    match text.last() {
        None => false,
        Some(last) => *last == byte,
    }
}

/// A text without its last byte.
pub fn without_last(text: &[u8]) -> &[u8]
    ensures { result.now ≡ without_last text.now }
{
    text.split_at(text.len().saturating_sub(1)).0
}

/// A text without the spaces and tabs at its start.
pub fn unindented(text: &[u8]) -> &[u8]
    ensures { result.now ≡ unindented text.now }
{
    let (_, following) = text.split_at(leading_blanks(text));
    following
}

/// How many spaces and tabs a text begins with.
fn leading_blanks(text: &[u8]) -> usize
    ensures value { result ≡ prefix_len is_blank text.now }
    ensures within { result ≤ length text.now }
{
    text.iter().take_while(|byte| is_blank(**byte)).count()
}

/// A text without the whitespace at its end.
pub fn trimmed(text: &[u8]) -> &[u8]
    ensures { result.now ≡ trimmed text.now }
{
    text.split_at(text.len() - trailing_whitespace(text)).0
}

/// How many bytes of whitespace a text ends in.
fn trailing_whitespace(text: &[u8]) -> usize
    ensures value { result ≡ suffix_len is_whitespace text.now }
    ensures within { result ≤ length text.now }
{
    text.iter()
        .rev()
        .take_while(|byte| is_whitespace(**byte))
        .count()
}

/// A text up to the first such byte, all of it if it has none.
pub fn up_to(byte: u8, text: &[u8]) -> &[u8]
    ensures { result.now ≡ up_to byte text.now }
{
    match find(byte, text) {
        None => text,
        Some(at) => &text[..at],
    }
}

/// What comes before the first such byte of a text, and what comes after it.
#[tactic(auto, unfolding(crate::specs::Texts::split_once))]
pub fn split_once(byte: u8, text: &[u8]) -> Option<(&[u8], &[u8])>
    ensures value { option_map (λ p. (p.0.now, p.1.now)) result ≡ split_once byte text.now }
    ensures shorter { IfSome result (λ p. length p.0.now + length p.1.now < length text.now) }
{
    match find(byte, text) {
        Some(at) => Some((&text[..at], &text[at + 1..])),
        None => None,
    }
}

/// What messages and notes keep of a text: its first 32 bytes.
#[tactic(auto, using(std::proofs::lemmas::List::take_min))]
pub fn word_of(text: &[u8]) -> &[u8]
    ensures { result.now ≡ word_of text.now }
{
    &text[..MAX_WORD.min(text.len())]
}
