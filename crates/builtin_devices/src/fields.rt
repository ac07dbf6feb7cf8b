//! The digits of addresses, field by field.
ghost use Rattle.std.specs.Prelude.{◌≡◌, ◌==◌, flat_map, map, option_map, IfOk};
ghost use Rattle.std.specs.List.{list_all, slice_split};
ghost use Rattle.builtin_devices.specs.Fields.{are_fields, field_digits, is_field, marked_digits};

use std::alloc::{AllocError, Global};
use text_bytes::{is_hexadecimal, small};

/// Whether a text is one hexadecimal digit or more, and at most so many.
#[tactic(auto, unfolding(crate::specs::Fields::is_field))]
fn is_field(width: usize, text: &[u8]) -> bool
    ensures { result ≡ is_field width text.now }
{
    !text.is_empty() && text.len() <= width && is_hexadecimal(text)
}

/// A field in so many lower case digits, with zeros before it.
#[tactic(auto, unfolding(crate::specs::Fields::field_digits))]
fn field_digits(alloc: Global, width: usize, field: &[u8]) -> Result<Vec<u8>, AllocError>
    ensures { IfOk result (λ digits. digits.items ≡ field_digits width field.now) }
{
    let mut digits = vec![in alloc; b'0'; width.saturating_sub(field.len())]?;
    digits.extend_from_slice(&small(alloc, field)?)?;
    Ok(digits)
}

/// The parts of a text that a mark separates.
fn parts(alloc: Global, mark: u8, text: &[u8]) -> Result<Vec<&[u8]>, AllocError>
    ensures { IfOk result (λ parts. map (λ t. t.now) parts.items ≡ slice_split (λ b. b == mark) text.now) }
{
    text.split(|byte| *byte == mark).collect(alloc)
}

/// Whether each of texts is a field.
fn all_fields(width: usize, texts: &[&[u8]]) -> bool
    ensures { result ≡ list_all (λ t. is_field width t.now) texts.now }
{
    texts.iter().all(|text| is_field(width, text))
}

/// Whether there are so many texts, each a field.
#[tactic(auto, using(crate::proofs::AllFields::fields_seen))]
fn are_fields(count: usize, width: usize, texts: &[&[u8]]) -> bool
    ensures { result ≡ are_fields count width (map (λ t. t.now) texts.now) }
{
    texts.len() == count && all_fields(width, texts)
}

/// The digits of all fields.
fn all_digits(alloc: Global, width: usize, fields: &[&[u8]]) -> Result<Vec<u8>, AllocError>
    ensures { IfOk result (λ digits. digits.items ≡ flat_map (field_digits width) (map (λ t. t.now) fields.now)) }
{
    let mut digits = Vec::new(alloc);
    for field in fields {
        digits.extend_from_slice(&field_digits(alloc, width, field)?)?;
    }
    Ok(digits)
}

/// The digits of so many fields with a mark in between.
#[tactic(auto, unfolding(crate::specs::Fields::marked_digits))]
pub fn marked_digits(
    alloc: Global,
    mark: u8,
    count: usize,
    width: usize,
    text: &[u8],
) -> Result<Option<Vec<u8>>, AllocError>
    ensures { IfOk result (λ digits. option_map (λ d. d.items) digits ≡ marked_digits mark count width text.now) }
{
    let parts = parts(alloc, mark, text)?;
    if !are_fields(count, width, &parts) {
        return Ok(None);
    }
    Ok(Some(all_digits(alloc, width, &parts)?))
}
