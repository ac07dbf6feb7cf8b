//! The words of the kernel's command line.
ghost use Rattle.std.specs.Prelude.{◌≡◌, IfOk, map, option_map};
ghost use Rattle.std.specs.List.{list_any};
ghost use Rattle.eval_commands.specs.Cmdline.{after_name, cmdline_value, folded, has_word, is_alone, is_asked, last_value, value_after};

use crate::words::udev_words;
use std::alloc::{AllocError, Global};
use text_bytes::{Bytes, begins_with, following, split_once};

/// A byte of a name as it is compared: `-` and `_` are the same.
fn folded(byte: u8) -> u8
    ensures { result ≡ folded byte }
{
    if byte == b'-' { b'_' } else { byte }
}

/// What follows a name in a word that begins with it.
fn after_name<'a>(name: &[u8], word: &'a [u8]) -> Option<&'a [u8]>
    ensures { option_map (λ rest. rest.now) result ≡ after_name name.now word.now }
{
    let mut left = name;
    let mut rest = word;
    while let Some((byte, names)) = left.split_first() {
        let (first, later) = rest.split_first()?;
        if folded(*byte) != folded(*first) {
            return None;
        }
        left = names;
        rest = later;
    }
    Some(rest)
}

/// The value that follows a name in a word.
fn value_in<'a>(name: &[u8], word: &'a [u8]) -> Option<&'a [u8]>
    ensures { option_map (λ value. value.now) result ≡ value_after (after_name name.now word.now) }
{
    let (first, value) = after_name(name, word)?.split_first()?;
    if *first == b'=' { Some(value) } else { None }
}

/// Whether a word is a name alone.
fn is_alone(name: &[u8], word: &[u8]) -> bool
    ensures { result ≡ is_alone (after_name name.now word.now) }
{
    match after_name(name, word) {
        Some(rest) => rest.is_empty(),
        None => false,
    }
}

/// The value that words give a name: the last one counts.
fn last_value<'a>(name: &[u8], words: &'a [Bytes]) -> Option<&'a [u8]>
    ensures { option_map (λ value. value.now) result ≡ last_value name.now words.now }
{
    let mut last = None;
    for word in words {
        last = value_in(name, word.as_slice()).or(last);
    }
    last
}

/// Whether one of these words is a name alone.
fn any_alone(name: &[u8], words: &[Bytes]) -> bool
    ensures { result ≡ list_any (λ word. is_alone (after_name name.now word)) words.now }
{
    words.iter().any(|word| is_alone(name, word.as_slice()))
}

/// What the kernel's command line gives a name, as udev looks it up: the line is split into words as the command of a
/// builtin is, and `-` and `_` in a name are the same. `NAME=VALUE` gives the value, the last of several, and without one
/// `NAME` alone gives `1`.
#[tactic(auto, unfolding(crate::specs::Cmdline::cmdline_value))]
pub fn cmdline_value(alloc: Global, name: &[u8], line: &[u8]) -> Result<Option<Bytes>, AllocError>
    ensures { IfOk result (λ found. found ≡ cmdline_value name.now line.now) }
{
    let words = udev_words(alloc, line)?;
    match last_value(name, &words) {
        Some(value) => Ok(Some(Bytes::copy_of(alloc, value)?)),
        None if any_alone(name, &words) => Ok(Some(Bytes::copy_of(alloc, b"1")?)),
        None => Ok(None),
    }
}

/// Whether a word is the one that is asked for.
fn is_asked(asked: &[u8], word: &[u8]) -> bool
    ensures { result ≡ is_asked asked.now word.now }
{
    if split_once(b'=', asked).is_some() {
        return word == asked;
    }
    match following(asked, word) {
        Some(rest) => rest.is_empty() || begins_with(b'=', rest),
        None => false,
    }
}

/// Whether the kernel's command line has a word, as KernelCommandLine of systemd.link(5) asks for it: `NAME=VALUE` is asked for as it
/// is, `NAME` with any value or without one. The line is split into words as the command of a builtin is.
#[tactic(auto, unfolding(crate::specs::Cmdline::has_word))]
pub fn has_word(alloc: Global, asked: &[u8], line: &[u8]) -> Result<bool, AllocError>
    ensures { IfOk result (λ has. has ≡ has_word asked.now line.now) }
{
    let words = udev_words(alloc, line)?;
    Ok(words.iter().any(|word| is_asked(asked, word.as_slice())))
}
