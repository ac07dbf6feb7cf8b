//! The words that a file of options may have.
ghost use Rattle.std.specs.List.{list_any};
ghost use Rattle.std.specs.Prelude.{◌≡◌, map};
ghost use Rattle.engine_sessions.specs.Words.{has_value_of, is_flag, is_name_with_value, is_option, is_word};

use crate::names::{flag_names, repeated_names, valued_names};
use text_bytes::{following, has_control, is_utf8, split_once};

/// Whether a word is the flag of this name: `--NAME`.
pub fn is_flag(word: &[u8], name: &str) -> bool
    ensures { result ≡ is_flag word.now name.now }
{
    match following(b"--", word) {
        Some(rest) => rest == name.as_bytes(),
        None => false,
    }
}

/// Whether what follows the minus signs of a word is this name, a sign `=`, and a value.
fn is_name_with_value(rest: &[u8], name: &str) -> bool
    ensures { result ≡ is_name_with_value rest.now name.now }
{
    match split_once(b'=', rest) {
        Some((before, _)) => before == name.as_bytes(),
        None => false,
    }
}

/// Whether a word gives the option of this name a value: `--NAME=VALUE`. The value may be empty.
pub fn has_value_of(word: &[u8], name: &str) -> bool
    ensures { result ≡ has_value_of word.now name.now }
{
    match following(b"--", word) {
        Some(rest) => is_name_with_value(rest, name),
        None => false,
    }
}

/// Whether a word is one of these flags, by the names as they are seen.
fn is_one_of(word: &[u8], names: &[&str]) -> bool
    ensures { result ≡ list_any (λ n. is_flag word.now n.now) names.now }
{
    names.iter().any(|name| is_flag(word, name))
}

/// Whether a word is one of these flags.
fn is_flag_of(word: &[u8], names: &[&str]) -> bool
    ensures { result ≡ list_any (is_flag word.now) (map (λ n. n.now) names.now) }
{
    is_one_of(word, names)
}

/// Whether a word gives one of these options a value, by the names as they are seen.
fn gives_value(word: &[u8], names: &[&str]) -> bool
    ensures { result ≡ list_any (λ n. has_value_of word.now n.now) names.now }
{
    names.iter().any(|name| has_value_of(word, name))
}

/// Whether a word gives one of these options a value.
fn has_value_of_one(word: &[u8], names: &[&str]) -> bool
    ensures { result ≡ list_any (has_value_of word.now) (map (λ n. n.now) names.now) }
{
    gives_value(word, names)
}

/// Whether a word is a flag, or gives an option with a value one.
fn is_option(word: &[u8]) -> bool
    ensures { result ≡ is_option word.now }
{
    is_flag_of(word, flag_names())
        || has_value_of_one(word, valued_names())
        || has_value_of_one(word, repeated_names())
}

/// Whether a file of options may have a word: it is an option, in UTF-8 and without control characters.
#[tactic(auto, unfolding(crate::specs::Words::is_word))]
pub fn is_word(word: &[u8]) -> bool
    ensures { result ≡ is_word word.now }
{
    is_option(word) && is_utf8(word) && !has_control(word)
}
