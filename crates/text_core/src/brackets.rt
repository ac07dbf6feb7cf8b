//! What is between the brackets of a pattern of fnmatch(3).
ghost use Rattle.std.specs.Prelude.{◌≡◌, ◌≤◌, ℕ, length, drop, true, false, not, ◌&&◌, IfOk, IfSome, Some};
ghost use Rattle.std.specs.List.{slice_get};
ghost use Rattle.std.specs.Option.{is_some, option_map};
ghost use Rattle.text_core.specs.Spell.{closes};
ghost use Rattle.text_core.specs.Brackets.{closed_of, elements_at};
ghost use Rattle.text_core.specs.Elements.{symbol_len};

use crate::closings::is_closed_after;
use crate::elements::{Element, element_of};
use crate::reading::Reading;
use std::alloc::{AllocError, Global};

/// The elements up to the `]` that closes them.
#[derive(Drop)]
pub(crate) struct Expression {
    /// The elements, in order.
    pub elements: Vec<Element>,
    /// How many bytes follow the `]`.
    pub left: usize,
}

/// Reads the elements of a text after a `[` and its sign. The first byte begins one, and the first `]` that begins
/// another one closes them; if no such `]` comes there are none, and then only the first is read. `lens` and
/// `closed` are the `symbol_lens` and `closed_ends` of the text. Fails if an allocation fails.
pub(crate) fn read_elements(
    alloc: Global,
    reading: Reading,
    lens: &[Option<usize>],
    closed: &[bool],
    text: &[u8],
) -> Result<Option<Expression>, AllocError>
    requires symbols { (k : ℕ) → slice_get lens.now (length (drop k text.now)) ≡ Some (symbol_len (drop k text.now)) }
    requires closings { (k : ℕ) → slice_get closed.now (length (drop k text.now)) ≡ Some (is_some (elements_at reading false (drop k text.now) 0)) }
    ensures value { IfOk result (λ r. option_map closed_of r ≡ elements_at reading true text.now 0) }
    ensures within { IfOk result (λ r. IfSome r (λ expression. expression.left ≤ length text.now)) }
{
    let Some((byte, after)) = text.split_first() else {
        return Ok(None);
    };
    if !is_closed_after(reading, lens, closed, *byte, after) {
        return Ok(None);
    }
    read_to_end(alloc, reading, lens, text)
}

/// Reads the elements of a text up to the `]` that closes them, if one does. `lens` is the `symbol_lens` of the
/// text.
fn read_to_end(
    alloc: Global,
    reading: Reading,
    lens: &[Option<usize>],
    text: &[u8],
) -> Result<Option<Expression>, AllocError>
    requires { (k : ℕ) → slice_get lens.now (length (drop k text.now)) ≡ Some (symbol_len (drop k text.now)) }
    ensures value { IfOk result (λ r. option_map closed_of r ≡ elements_at reading true text.now 0) }
    ensures within { IfOk result (λ r. IfSome r (λ expression. expression.left ≤ length text.now)) }
{
    let mut elements = Vec::new(alloc);
    let mut rest = text;
    let mut is_first = true;
    while let Some((byte, after)) = rest.split_first() {
        if closes_set(is_first, *byte) {
            return Ok(Some(Expression {
                elements,
                left: after.len(),
            }));
        }
        let Some(found) = element_of(reading, lens, *byte, after) else {
            return Ok(None);
        };
        elements.push(found.element)?;
        (_, rest) = after.split_at(found.following);
        is_first = false;
    }
    Ok(None)
}

/// Whether a byte closes the elements: a `]` that does not begin the first of them.
fn closes_set(is_first: bool, byte: u8) -> bool
    ensures { result ≡ (closes byte && not is_first) }
{
    byte == b']' && !is_first
}
