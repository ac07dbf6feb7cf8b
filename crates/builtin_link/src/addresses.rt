//! Addresses of hardware, and lists of them.
ghost use Rattle.std.specs.Prelude.{◌≡◌, IfOk, option_map};
ghost use Rattle.builtin_link.specs.Addresses.{are_addresses, bytes_digits, has_address, hardware_digits, is_address};

use builtin_devices::marked_digits;
use std::alloc::{AllocError, Global};
use text_bytes::Bytes;

/// The digits of so many bytes, or of half as many fields of two bytes each.
#[tactic(auto, unfolding(crate::specs::Addresses::bytes_digits))]
fn bytes_digits(
    alloc: Global,
    bytes: usize,
    half: usize,
    text: &[u8],
) -> Result<Option<Vec<u8>>, AllocError>
    ensures { IfOk result (λ digits. option_map (λ d. d.items) digits ≡ bytes_digits bytes half text.now) }
{
    if let Some(digits) = marked_digits(alloc, b':', bytes, 2, text)? {
        return Ok(Some(digits));
    }
    if let Some(digits) = marked_digits(alloc, b'-', bytes, 2, text)? {
        return Ok(Some(digits));
    }
    marked_digits(alloc, b'.', half, 4, text)
}

/// The digits of an address of six or twenty bytes.
#[tactic(auto, unfolding(crate::specs::Addresses::hardware_digits))]
fn hardware_digits(alloc: Global, text: &[u8]) -> Result<Option<Vec<u8>>, AllocError>
    ensures { IfOk result (λ digits. option_map (λ d. d.items) digits ≡ hardware_digits text.now) }
{
    match bytes_digits(alloc, 6, 3, text)? {
        Some(digits) => Ok(Some(digits)),
        None => bytes_digits(alloc, 20, 10, text),
    }
}

/// Whether a word is an address with these digits.
fn is_address(alloc: Global, digits: Option<&[u8]>, word: &[u8]) -> Result<bool, AllocError>
    ensures { IfOk result (λ is. is ≡ is_address (option_map (λ d. d.now) digits.entry) word.now) }
{
    let Some(digits) = digits else {
        return Ok(false);
    };
    match hardware_digits(alloc, word)? {
        Some(other) => Ok(digits == other.as_slice()),
        None => Ok(false),
    }
}

/// Whether one of these words is the address that a text is.
#[tactic(auto, unfolding(crate::specs::Addresses::has_address))]
pub(crate) fn has_address(alloc: Global, words: &[Bytes], text: &[u8]) -> Result<bool, AllocError>
    ensures { IfOk result (λ has. has ≡ has_address words.now text.now) }
{
    let digits = hardware_digits(alloc, text)?;
    let own = digits.as_ref().map(|digits| digits.as_slice());
    for word in words {
        if is_address(alloc, own, word.as_slice())? {
            return Ok(true);
        }
    }
    Ok(false)
}

/// Whether each word is such an address.
#[tactic(auto, unfolding(crate::specs::Addresses::are_addresses))]
pub(crate) fn are_addresses(alloc: Global, words: &[Bytes]) -> Result<bool, AllocError>
    ensures { IfOk result (λ are. are ≡ are_addresses words.now) }
{
    for word in words {
        if hardware_digits(alloc, word.as_slice())?.is_none() {
            return Ok(false);
        }
    }
    Ok(true)
}
