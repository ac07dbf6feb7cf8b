//! How far a `[.` may reach, for all places of a text at once.
//!
//! Each place is asked for once, from the end of the text to its front, so that many `[.` cost no more than one.
ghost use Rattle.std.specs.Prelude.{◌≡◌, ◌+◌, ◌≤◌, ℕ, length, drop, IfOk, IfSome, Some};
ghost use Rattle.std.specs.List.{slice_get};
ghost use Rattle.text_core.specs.Elements.{symbol_len};

use crate::elements::is_ended;
use std::alloc::{AllocError, Global};

/// How many bytes come before the first `.]` of a text, whose `symbol_lens` are `lens`.
pub(crate) fn symbol_len(lens: &[Option<usize>], text: &[u8]) -> Option<usize>
    requires { (k : ℕ) → slice_get lens.now (length (drop k text.now)) ≡ Some (symbol_len (drop k text.now)) }
    ensures value { result ≡ symbol_len text.now }
    ensures within { IfSome result (λ n. n + 2 ≤ length text.now) }
{
    match lens.get(text.len()) {
        Some(len) => *len,
        None => None,
    }
}

/// The same, if `lens` are the `symbol_lens` of the text after the first byte.
fn next_len(lens: &[Option<usize>], text: &[u8]) -> Option<usize>
    requires { (k : ℕ) → slice_get lens.now (length (drop k (drop 1 text.now))) ≡ Some (symbol_len (drop k (drop 1 text.now))) }
    ensures { result ≡ symbol_len text.now }
{
    if is_ended(b'.', text) {
        return Some(0);
    }
    let (_, after) = text.split_first()?;
    let len = symbol_len(lens, after)?;
    Some(len + 1)
}

/// How many bytes come before the first `.]`, for each end of a text by its number of bytes. Fails if an allocation
/// fails.
pub(crate) fn symbol_lens(alloc: Global, text: &[u8]) -> Result<Vec<Option<usize>>, AllocError>
    ensures { IfOk result (λ lens. (k : ℕ) → slice_get lens.items (length (drop k text.now)) ≡ Some (symbol_len (drop k text.now))) }
{
    let mut lens = Vec::with_capacity(alloc, text.len() + 1)?;
    lens.push(None)?;
    for left in 0..text.len() {
        let (_, rest) = text.split_at(text.len() - left - 1);
        let len = next_len(lens.as_slice(), rest);
        lens.push(len)?;
    }
    Ok(lens)
}
