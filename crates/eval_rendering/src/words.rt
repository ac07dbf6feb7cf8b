//! Parts of texts that substitutions ask for.
ghost use Rattle.std.specs.Prelude.{◌≡◌, ◌≤◌, length};
ghost use Rattle.text_bytes.specs.Names.{is_whitespace};
ghost use Rattle.text_bytes.specs.Texts.{skip_while};
ghost use Rattle.eval_rendering.specs.Pieces.{number_as};
ghost use Rattle.eval_rendering.specs.Words.{from_word, word_at, word_len};

use rule_tokens::leading_whitespace;
use text_bytes::{Profile, is_whitespace, last_digits};

/// How many bytes the word at the start of a text has.
fn word_len(text: &[u8]) -> usize
    ensures value { result ≡ word_len text.now }
    ensures within { result ≤ length text.now }
{
    text.iter()
        .take_while(|byte| !is_whitespace(**byte))
        .count()
}

/// A text without the whitespace at its start.
fn from_first_word(text: &[u8]) -> &[u8]
    ensures { result.now ≡ skip_while is_whitespace text.now }
{
    text.split_at(leading_whitespace(text)).1
}

/// A text from its word with a number on; the first word has the number 0. No more words are skipped than the text
/// has.
pub(crate) fn from_word(number: u16, text: &[u8]) -> &[u8]
    ensures { result.now ≡ from_word number text.now }
{
    let mut rest = from_first_word(text);
    for passed in 0..number {
        if rest.is_empty() {
            return rest;
        }
        rest = from_first_word(rest.split_at(word_len(rest)).1);
    }
    rest
}

/// The word with a number.
pub(crate) fn word_at(number: u16, text: &[u8]) -> &[u8]
    ensures { result.now ≡ word_at number text.now }
{
    let rest = from_word(number, text);
    rest.split_at(word_len(rest)).0
}

/// The number that a kernel's name ends in; for udev a name of digits alone has none.
pub(crate) fn number_as(profile: Profile, kernel: &[u8]) -> &[u8]
    ensures { result.now ≡ number_as profile kernel.now }
{
    let digits = last_digits(kernel);
    match profile {
        Profile::Manual => digits,
        Profile::Udev => { if digits == kernel { b"" } else { digits } }
    }
}
