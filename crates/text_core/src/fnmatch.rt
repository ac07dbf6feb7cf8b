//! Patterns as fnmatch(3) reads them in the C locale.
ghost use Rattle.std.specs.Prelude.{◌≡◌, ◌≤◌, ℕ, length, drop, false, map, IfOk, Some};
ghost use Rattle.std.specs.List.{list_any, slice_get};
ghost use Rattle.std.specs.Option.{is_some};
ghost use Rattle.text_core.specs.Brackets.{elements_at};
ghost use Rattle.text_core.specs.Elements.{symbol_len};
ghost use Rattle.text_core.specs.Fnmatch.{fnmatch_bracket, fnmatch_escaped, fnmatch_first, fnmatch_items, fnmatch_part, is_special};
ghost use Rattle.text_core.specs.Spell.{itself};

use crate::brackets::read_elements;
use crate::closings::closed_ends;
use crate::item::Item;
use crate::pattern::Pattern;
use crate::reading::Reading;
use crate::sets::{Between, set_of};
use crate::spell::{Head, alone, is_negated, itself, sign_len};
use crate::symbols::symbol_lens;
use std::alloc::{AllocError, Global};

/// What a `[` begins: a set, or the `[` itself if no `]` closes it. `lens` and `closed` are the `symbol_lens` and
/// `closed_ends` of the text after it.
fn bracket(
    alloc: Global,
    reading: Reading,
    lens: &[Option<usize>],
    closed: &[bool],
    after: &[u8],
) -> Result<Head, AllocError>
    requires symbols { (k : ℕ) → slice_get lens.now (length (drop k after.now)) ≡ Some (symbol_len (drop k after.now)) }
    requires closings { (k : ℕ) → slice_get closed.now (length (drop k after.now)) ≡ Some (is_some (elements_at reading false (drop k after.now) 0)) }
    ensures value { IfOk result (λ head. head ≡ fnmatch_bracket reading after.now) }
    ensures len { IfOk result (λ head. head.following ≤ length after.now) }
{
    let sign = sign_len(after);
    let (_, unsigned) = after.split_at(sign);
    let Some(expression) = read_elements(alloc, reading, lens, closed, unsigned)? else {
        return Ok(alone(Item::Byte(b'[')));
    };
    let between = Between::Elements(expression.elements.as_slice());
    Ok(Head {
        item: Item::Among(set_of(reading, is_negated(after), between)),
        following: after.len() - expression.left,
    })
}

/// What a backslash begins: the byte after it, or at the end of the text an item that nothing fits.
fn escaped(reading: Reading, after: &[u8]) -> Head
    ensures value { result ≡ fnmatch_escaped reading after.now }
    ensures len { result.following ≤ length after.now }
{
    match after.split_first() {
        Some((byte, _)) => Head {
            item: itself(reading, *byte),
            following: 1,
        },
        None => alone(Item::Among(set_of(Reading::Exact, false, Between::Members(&[])))),
    }
}

/// The item that a byte begins, and how many of the bytes after it belong to it. `lens` and `closed` are as in
/// `bracket`.
#[tactic(auto, unfolding(crate::specs::Fnmatch::fnmatch_first))]
fn first_item(
    alloc: Global,
    reading: Reading,
    lens: &[Option<usize>],
    closed: &[bool],
    byte: u8,
    after: &[u8],
) -> Result<Head, AllocError>
    requires symbols { (k : ℕ) → slice_get lens.now (length (drop k after.now)) ≡ Some (symbol_len (drop k after.now)) }
    requires closings { (k : ℕ) → slice_get closed.now (length (drop k after.now)) ≡ Some (is_some (elements_at reading false (drop k after.now) 0)) }
    ensures value { IfOk result (λ head. head ≡ fnmatch_first reading byte after.now) }
    ensures len { IfOk result (λ head. head.following ≤ length after.now) }
{
    match byte {
        b'*' => Ok(alone(Item::Many)),
        b'?' => Ok(alone(Item::One)),
        b'[' => bracket(alloc, reading, lens, closed, after),
        b'\\' => Ok(escaped(reading, after)),
        _ => Ok(alone(itself(reading, byte))),
    }
}

/// Reads a text as a pattern.
fn read_pattern(alloc: Global, reading: Reading, text: &[u8]) -> Result<Pattern, AllocError>
    ensures { IfOk result (λ p. p ≡ fnmatch_items reading text.now 0) }
{
    let lens = symbol_lens(alloc, text)?;
    let closed = closed_ends(alloc, reading, lens.as_slice(), text)?;
    let mut items = Vec::with_capacity(alloc, text.len())?;
    let mut rest = text;
    while let Some((byte, after)) = rest.split_first() {
        let head = first_item(
            alloc,
            reading,
            lens.as_slice(),
            closed.as_slice(),
            *byte,
            after,
        )?;
        items.push(head.item)?;
        (_, rest) = after.split_at(head.following);
    }
    Ok(Pattern::of_items(items))
}

/// Reads each byte of a text as itself.
fn read_bytes(alloc: Global, reading: Reading, text: &[u8]) -> Result<Pattern, AllocError>
    ensures { IfOk result (λ p. p ≡ map (itself reading) text.now) }
{
    let mut items = Vec::with_capacity(alloc, text.len())?;
    for byte in text {
        items.push(itself(reading, *byte))?;
    }
    Ok(Pattern::of_items(items))
}

/// Reads a part of a choice: as a pattern, or as its bytes if the choice has no special byte.
pub(crate) fn read_part(
    alloc: Global,
    reading: Reading,
    is_pattern: bool,
    part: &[u8],
) -> Result<Pattern, AllocError>
    ensures { IfOk result (λ p. p ≡ fnmatch_part reading is_pattern part.now) }
{
    if is_pattern {
        read_pattern(alloc, reading, part)
    } else {
        read_bytes(alloc, reading, part)
    }
}

/// Whether a byte makes a text a pattern: a star, a question mark or a `[`.
pub fn is_special(byte: u8) -> bool
    ensures { result ≡ is_special byte }
{
    byte == b'*' || byte == b'?' || byte == b'['
}

/// Whether a text has a byte that makes all its parts patterns.
pub(crate) fn has_special(text: &[u8]) -> bool
    ensures { result ≡ list_any is_special text.now }
{
    text.iter().any(|byte| is_special(*byte))
}
