//! Whether a `]` closes the elements that begin at a place, for all places of a text at once.
//!
//! Each place is asked for once, from the end of the text to its front, so that many `[` that are not closed cost
//! no more than one.
ghost use Rattle.std.specs.Prelude.{◌≡◌, ℕ, ◌∷◌, false, length, drop, IfOk, Some};
ghost use Rattle.std.specs.List.{slice_get};
ghost use Rattle.std.specs.Option.{is_some};
ghost use Rattle.text_core.specs.Brackets.{elements_at, with_found};
ghost use Rattle.text_core.specs.Elements.{element_of, symbol_len};

use crate::elements::element_of;
use crate::reading::Reading;
use std::alloc::{AllocError, Global};

/// Whether the elements are closed of which a byte begins the first. `lens` and `closed` are the `symbol_lens` and
/// `closed_ends` of the text after the byte.
pub(crate) fn is_closed_after(
    reading: Reading,
    lens: &[Option<usize>],
    closed: &[bool],
    byte: u8,
    after: &[u8],
) -> bool
    requires symbols { (k : ℕ) → slice_get lens.now (length (drop k after.now)) ≡ Some (symbol_len (drop k after.now)) }
    requires closings { (k : ℕ) → slice_get closed.now (length (drop k after.now)) ≡ Some (is_some (elements_at reading false (drop k after.now) 0)) }
    ensures { result ≡ is_some (with_found (element_of reading byte after.now) (λ n. elements_at reading false after.now n)) }
{
    match element_of(reading, lens, byte, after) {
        Some(found) => closed[after.len() - found.following],
        None => false,
    }
}

/// Whether elements that go on at a byte are closed: here, or after the one that it begins. `lens` and `closed` are
/// as in `is_closed_after`.
fn is_closed_at(
    reading: Reading,
    lens: &[Option<usize>],
    closed: &[bool],
    byte: u8,
    after: &[u8],
) -> bool
    requires symbols { (k : ℕ) → slice_get lens.now (length (drop k after.now)) ≡ Some (symbol_len (drop k after.now)) }
    requires closings { (k : ℕ) → slice_get closed.now (length (drop k after.now)) ≡ Some (is_some (elements_at reading false (drop k after.now) 0)) }
    ensures { result ≡ is_some (elements_at reading false (byte ∷ after.now) 0) }
{
    byte == b']' || is_closed_after(reading, lens, closed, byte, after)
}

/// Whether elements that go on at an end of a text are closed, for each of its ends by its number of bytes. `lens`
/// is the `symbol_lens` of the text. Fails if an allocation fails.
pub(crate) fn closed_ends(
    alloc: Global,
    reading: Reading,
    lens: &[Option<usize>],
    text: &[u8],
) -> Result<Vec<bool>, AllocError>
    requires { (k : ℕ) → slice_get lens.now (length (drop k text.now)) ≡ Some (symbol_len (drop k text.now)) }
    ensures { IfOk result (λ closed. (k : ℕ) → slice_get closed.items (length (drop k text.now))
        ≡ Some (is_some (elements_at reading false (drop k text.now) 0))) }
{
    let mut closed = Vec::with_capacity(alloc, text.len() + 1)?;
    closed.push(false)?;
    for left in 0..text.len() {
        let (_, after) = text.split_at(text.len() - left);
        let byte = text[text.len() - left - 1];
        let is_closed = is_closed_at(reading, lens, closed.as_slice(), byte, after);
        closed.push(is_closed)?;
    }
    Ok(closed)
}
