//! Numbers as udev reads them in what the kernel reports.
ghost use Rattle.std.specs.Prelude.{◌≡◌, ◌≤◌, ◌<◌, ◌^◌, IfOk, IfSome, length, option_map};
ghost use Rattle.std.specs.List.{prefix_len};
ghost use Rattle.text_bytes.specs.Names.{minus, is_whitespace};
ghost use Rattle.text_bytes.specs.Texts.{begins_with, skip_while};
ghost use Rattle.builtin_devices.specs.Numbers.{bytes_of, digit_value, digits_in, is_below_zero, is_marked, is_number};
ghost use Rattle.builtin_devices.specs.Numbers.{name_number, number_in, size_in, unsigned, written};

use hex::{FromHexError, decode};
use std::alloc::{AllocError, Global};
use text_bytes::{begins_with, is_whitespace, last_digits};

/// The base in which a number is written.
#[derive(Clone, Copy)]
pub enum Base {
    /// As the number itself says: `0x` for 16, `0b` for 2, `0o` or a zero for 8, else 10.
    AsWritten,
    /// Ten.
    Decimal,
    /// Sixteen; `0x` may come before the digits.
    Hexadecimal,
}

/// The number that a digit writes, and 16 for a byte that is not a digit.
fn digit_value(byte: u8) -> u8
    ensures value { result ≡ digit_value byte }
    ensures few { result ≤ 16 }
{
    match byte {
        b'0'..=b'9' => byte - b'0',
        b'a'..=b'f' => byte - b'a' + 10,
        b'A'..=b'F' => byte - b'A' + 10,
        _ => 16,
    }
}

/// The number that one digit of a base or more write, if it is at most `most`.
#[tactic(auto, unfolding(crate::specs::Numbers::digits_in))]
pub fn digits_in(base: u8, most: u64, text: &[u8]) -> Option<u64>
    requires some { 1 ≤ base }
    requires few { base ≤ 16 }
    ensures value { result ≡ digits_in base most text.now }
    ensures below { IfSome result (λ number. number ≤ most) }
{
    if text.is_empty() {
        return None;
    }
    let mut number = 0u64;
    for byte in text {
        let digit = digit_value(*byte);
        if digit >= base {
            return None;
        }
        let next = u128::from(base) * u128::from(number) + u128::from(digit);
        if next > u128::from(most) {
            return None;
        }
        number = next as u64;
    }
    Some(number)
}

/// Whether a text begins with `0` and one of two bytes.
fn is_marked(small: u8, large: u8, text: &[u8]) -> bool
    ensures { result ≡ is_marked small large text.now }
{
    match text {
        [b'0', mark, ..] => *mark == small || *mark == large,
        _ => false,
    }
}

/// The base of a number, and its digits.
#[tactic(auto, unfolding(crate::specs::Numbers::written))]
fn written(base: Base, text: &[u8]) -> (u8, &[u8])
    ensures base { result.0 ≡ (written base text.now).base }
    ensures digits { result.1.now ≡ (written base text.now).digits }
    ensures some { 1 ≤ result.0 }
    ensures few { result.0 ≤ 16 }
{
    match base {
        Base::AsWritten if is_marked(b'x', b'X', text) => (16, &text[2..]),
        Base::AsWritten if is_marked(b'b', b'B', text) => (2, &text[2..]),
        Base::AsWritten if is_marked(b'o', b'O', text) => (8, &text[2..]),
        Base::AsWritten if begins_with(b'0', text) => (8, text),
        Base::Hexadecimal if is_marked(b'x', b'X', text) => (16, &text[2..]),
        Base::Hexadecimal => (16, text),
        Base::AsWritten | Base::Decimal => (10, text),
    }
}

/// How many blanks a text begins with.
fn leading_blanks(text: &[u8]) -> usize
    ensures value { result ≡ prefix_len is_whitespace text.now }
    ensures within { result ≤ length text.now }
{
    text.iter().take_while(|byte| is_whitespace(**byte)).count()
}

/// A text without the blanks at its start.
fn bare(text: &[u8]) -> &[u8]
    ensures { result.now ≡ skip_while is_whitespace text.now }
{
    text.split_at(leading_blanks(text)).1
}

/// A text without the sign that it begins with, if it does.
fn unsigned(text: &[u8]) -> &[u8]
    ensures { result.now ≡ unsigned text.now }
{
    match text {
        [b'-' | b'+', digits @ ..] => digits,
        _ => text,
    }
}

/// The size of the number that a text is without blanks before it.
fn size_in(base: Base, most: u64, text: &[u8]) -> Option<u64>
    ensures { result ≡ size_in base most text.now }
{
    let (base, digits) = written(base, unsigned(text));
    digits_in(base, most, digits)
}

/// The number that a text is, if it is not below zero and at most `most`. Blanks may come before it, and a sign;
/// nothing may come after its digits. This is how udev of systemd 257 reads numbers in sysfs.
#[tactic(auto, unfolding(crate::specs::Numbers::number_in))]
pub fn number_in(base: Base, most: u64, text: &[u8]) -> Option<u64>
    ensures { result ≡ number_in base most text.now }
{
    let text = bare(text);
    let size = size_in(base, most, text)?;
    if begins_with(b'-', text) && size != 0 {
        return None;
    }
    Some(size)
}

/// Whether a number is there, and the same.
pub fn is_number(number: u64, held: Option<u64>) -> bool
    ensures { result ≡ is_number number held }
{
    match held {
        Some(other) => number == other,
        None => false,
    }
}

/// Whether a text is a number below zero, and not below `-most`.
#[tactic(auto, unfolding(crate::specs::Numbers::is_below_zero))]
pub fn is_below_zero(base: Base, most: u64, text: &[u8]) -> bool
    ensures { result ≡ is_below_zero base most text.now }
{
    let text = bare(text);
    match size_in(base, most, text) {
        Some(size) => begins_with(b'-', text) && size > 0,
        None => false,
    }
}

/// The digits that a kernel's name ends in; a name of digits alone has none.
#[tactic(auto, unfolding(crate::specs::Numbers::name_number))]
pub fn name_number(kernel: &[u8]) -> Option<&[u8]>
    ensures { option_map (λ t. t.now) result ≡ name_number kernel.now }
{
    let digits = last_digits(kernel);
    if digits.is_empty() || digits == kernel {
        return None;
    }
    Some(digits)
}

/// The bytes that hexadecimal digits write, two for each; `None` if another byte is among them, or a digit is
/// alone.
pub fn bytes_of(alloc: Global, text: &[u8]) -> Result<Option<Vec<u8>>, AllocError>
    ensures { IfOk result (λ bytes. option_map (λ b. b.items) bytes ≡ bytes_of text.now) }
{
    match decode(alloc, text) {
        Ok(bytes) => Ok(Some(bytes)),
        Err(FromHexError::OutOfMemory) => Err(AllocError),
        Err(_) => Ok(None),
    }
}
