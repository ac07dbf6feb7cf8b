//! The options of the builtin `hwdb`.
ghost use Rattle.std.specs.Prelude.{◌≡◌, IfOk, Some, None, option_map, map, if◌then◌else◌};
ghost use Rattle.std.specs.List.{list_any};
ghost use Rattle.std.specs.Option.{option_and_then};
ghost use Rattle.text_bytes.specs.Texts.{first};
ghost use Rattle.eval_commands.specs.Hwdb.{hwdb_of, is_bad_filter, is_unknown, last_value, operands, pattern_of, value_in};

use std::alloc::{AllocError, Global};
use text_bytes::{Bytes, begins_with, split_once};
use text_core::{GlobFault, Pattern};

/// What the builtin `hwdb` is asked for.
#[derive(Drop)]
pub struct Hwdb {
    /// `--subsystem=NAME`: the subsystem of the devices that are looked up.
    pub subsystem: Option<Bytes>,
    /// `--lookup-prefix=TEXT`: what comes before each modalias; empty without the option.
    pub prefix: Bytes,
    /// `--filter=PATTERN`: which keys count; all of them without the option.
    pub filter: Option<Pattern>,
    /// The modalias that is looked up instead of those of devices.
    pub modalias: Option<Bytes>,
}

/// The name of the option for a subsystem.
pub(crate) const SUBSYSTEM: &[u8] = b"--subsystem";

/// The name of the option for a prefix.
pub(crate) const PREFIX: &[u8] = b"--lookup-prefix";

/// The name of the option for the keys that count.
const FILTER: &[u8] = b"--filter";

/// The value that a word gives an option.
fn value_in<'a>(name: &[u8], word: &'a [u8]) -> Option<&'a [u8]>
    ensures { option_map (λ v. v.now) result ≡ value_in name.now word.now }
{
    match split_once(b'=', word) {
        Some((head, value)) if head == name => Some(value),
        _ => None,
    }
}

/// The value that words give an option: the last one counts.
fn last_value<'a>(name: &[u8], words: &'a [Bytes]) -> Option<&'a [u8]>
    ensures { option_map (λ v. v.now) result ≡ last_value name.now words.now }
{
    let mut last = None;
    for word in words {
        last = value_in(name, word.as_slice()).or(last);
    }
    last
}

/// Whether a word is an unknown option.
fn is_unknown(word: &[u8]) -> bool
    ensures { result ≡ is_unknown word.now }
{
    begins_with(b'-', word)
        && !(value_in(SUBSYSTEM, word).is_some()
            || value_in(PREFIX, word).is_some()
            || value_in(FILTER, word).is_some())
}

/// Whether one of the words is an unknown option.
fn has_unknown(words: &[Bytes]) -> bool
    ensures { result ≡ list_any is_unknown words.now }
{
    words.iter().any(|word| is_unknown(word.as_slice()))
}

/// The words that are not options.
fn operands<'a>(alloc: Global, words: &'a [Bytes]) -> Result<Vec<&'a [u8]>, AllocError>
    ensures { IfOk result (λ found. map (λ m. m.now) found.items ≡ operands words.now) }
{
    let mut found = Vec::new(alloc);
    for word in words {
        if !begins_with(b'-', word.as_slice()) {
            found.push(word.as_slice())?;
        }
    }
    Ok(found)
}

/// The first of these words, if there is one.
fn first_of<'a>(words: &[&'a [u8]]) -> Option<&'a [u8]>
    ensures { option_map (λ t. t.now) result ≡ first (map (λ t. t.now) words.now) }
{
    match words.split_first() {
        Some((word, _)) => Some(*word),
        None => None,
    }
}

/// The pattern that a text is, if there is a text; `None` if it is not a pattern.
pub(crate) fn pattern_of(
    alloc: Global,
    text: Option<&[u8]>,
) -> Result<Option<Option<Pattern>>, AllocError>
    ensures { IfOk result (λ found. found
        ≡ (if is_bad_filter (option_map (λ t. t.now) text.entry) then None else Some (option_and_then pattern_of (option_map (λ t. t.now) text.entry)))) }
{
    let Some(text) = text else {
        return Ok(Some(None));
    };
    match Pattern::read(alloc, text) {
        Ok(pattern) => Ok(Some(Some(pattern))),
        Err(GlobFault::Memory) => Err(AllocError),
        Err(_) => Ok(None),
    }
}

/// A copy of a text, if there is one.
pub(crate) fn copy_of(alloc: Global, text: Option<&[u8]>) -> Result<Option<Bytes>, AllocError>
    ensures { IfOk result (λ copy. copy ≡ option_map (λ t. t.now) text.entry) }
{
    match text {
        Some(text) => Ok(Some(Bytes::copy_of(alloc, text)?)),
        None => Ok(None),
    }
}

/// The options that the words after `hwdb` mean, if they are valid.
#[tactic(auto, unfolding(crate::specs::Hwdb::hwdb_of))]
pub(crate) fn hwdb_of(alloc: Global, words: &[Bytes]) -> Result<Option<Hwdb>, AllocError>
    ensures { IfOk result (λ hwdb. hwdb ≡ hwdb_of words.now) }
{
    let others = operands(alloc, words)?;
    if has_unknown(words) || others.len() > 1 {
        return Ok(None);
    }
    let Some(filter) = pattern_of(alloc, last_value(FILTER, words))? else {
        return Ok(None);
    };
    let prefix = last_value(PREFIX, words).unwrap_or(b"");
    Ok(Some(Hwdb {
        subsystem: copy_of(alloc, last_value(SUBSYSTEM, words))?,
        prefix: Bytes::copy_of(alloc, prefix)?,
        filter,
        modalias: copy_of(alloc, first_of(&others))?,
    }))
}
