//! Which texts pass a list of patterns, some of them negated.
ghost use Rattle.std.specs.Prelude.{◌≡◌, IfOk, option_map};
ghost use Rattle.builtin_link.specs.Globs.{are_true_of, fits_glob, fits_some, has_plain, has_value, is_signed, is_true_of, passes_if, without_sign};

use std::alloc::{AllocError, Global};
use text_bytes::{Bytes, begins_with, split_once};
use text_core::{Pattern, Reading};
use text_tables::CowPairs;

/// Whether a word is negated.
fn is_signed(word: &[u8]) -> bool
    ensures { result ≡ is_signed word.now }
{
    begins_with(b'!', word)
}

/// A word without its sign.
fn without_sign(word: &[u8]) -> &[u8]
    ensures { result.now ≡ without_sign word.now }
{
    if is_signed(word) {
        word.get(1..).unwrap_or(b"")
    } else {
        word
    }
}

/// Whether a text fits a pattern of fnmatch(3).
pub(crate) fn fits_glob(alloc: Global, glob: &[u8], text: &[u8]) -> Result<bool, AllocError>
    ensures { IfOk result (λ fits. fits ≡ fits_glob glob.now text.now) }
{
    let pattern = Pattern::read_fnmatch(alloc, Reading::Exact, glob)?;
    Ok(pattern.fits(text))
}

/// Whether a text fits one of the negated words, or one of the others.
fn fits_some(alloc: Global, negated: bool, words: &[Bytes], text: &[u8]) -> Result<bool, AllocError>
    ensures { IfOk result (λ fits. fits ≡ fits_some negated words.now text.now) }
{
    for word in words {
        let word = word.as_slice();
        if is_signed(word) == negated && fits_glob(alloc, without_sign(word), text)? {
            return Ok(true);
        }
    }
    Ok(false)
}

/// Whether a word is there that is not negated.
fn has_plain(words: &[Bytes]) -> bool
    ensures { result ≡ has_plain words.now }
{
    words.iter().any(|word| !is_signed(word.as_slice()))
}

/// Whether a text fits no negated word, and one of the others if there are any; no text fits no word.
#[tactic(auto, unfolding(crate::specs::Globs::passes))]
pub(crate) fn passes_if(
    alloc: Global,
    words: &[Bytes],
    text: Option<&[u8]>,
) -> Result<bool, AllocError>
    ensures { IfOk result (λ passed. passed ≡ passes_if words.now (option_map (λ t. t.now) text.entry)) }
{
    let Some(text) = text else {
        return Ok(!has_plain(words));
    };
    if fits_some(alloc, true, words, text)? {
        return Ok(false);
    }
    if !has_plain(words) {
        return Ok(true);
    }
    fits_some(alloc, false, words, text)
}

/// Whether a property has a value that fits.
fn has_value(
    alloc: Global,
    env: &CowPairs<'_>,
    parts: Option<(&[u8], &[u8])>,
) -> Result<bool, AllocError>
    ensures { IfOk result (λ holds. holds ≡ has_value env.now (option_map (λ p. (p.0.now, p.1.now)) parts.entry)) }
{
    let Some((name, glob)) = parts else {
        return Ok(false);
    };
    match env.get(name) {
        Some(value) => fits_glob(alloc, glob, value),
        None => Ok(false),
    }
}

/// Whether a word `NAME=VALUE` is true of properties.
fn is_true_of(alloc: Global, env: &CowPairs<'_>, word: &[u8]) -> Result<bool, AllocError>
    ensures { IfOk result (λ holds. holds ≡ is_true_of env.now word.now) }
{
    let found = has_value(alloc, env, split_once(b'=', without_sign(word)))?;
    Ok(if is_signed(word) { !found } else { found })
}

/// Whether all such words are.
pub(crate) fn are_true_of(
    alloc: Global,
    env: &CowPairs<'_>,
    words: &[Bytes],
) -> Result<bool, AllocError>
    ensures { IfOk result (λ holds. holds ≡ are_true_of env.now words.now) }
{
    for word in words {
        if !is_true_of(alloc, env, word.as_slice())? {
            return Ok(false);
        }
    }
    Ok(true)
}
