//! Integers as udev reads them: in base 2, 8, 10 or 16, with a sign or without one.
ghost use Rattle.std.specs.Prelude.{◌≡◌, ◌≤◌, ◌<◌, ◌^◌, IfSome, length, option_map};
ghost use Rattle.std.specs.List.{prefix_len};
ghost use Rattle.text_bytes.specs.Names.{is_whitespace};
ghost use Rattle.text_bytes.specs.Texts.{skip_while};
ghost use Rattle.rule_tokens.specs.Integers.{integer_of, is_separator, marked, natural_of, rest_after_mark, signed, signed_size, size_in, size_of};

use text_bytes::{begins_with, is_blank, is_whitespace};

/// The numbers that are read are below this: none has more than 32 bits.
const LIMIT: u64 = 1 << 32;

/// The base of digits, as far as what comes before their sign determines it.
#[derive(Clone, Copy, PartialEq, Eq)]
pub(crate) enum Base {
    /// `0b`: in base 2.
    Binary,
    /// `0o`: in base 8.
    Octal,
    /// No mark: the beginning of the digits determines it.
    Open,
}

/// Whether a byte is a space, a tab, or one of the two that end lines.
pub fn is_separator(byte: u8) -> bool
    ensures { result ≡ is_separator byte }
{
    is_blank(byte) || byte == b'\n' || byte == b'\r'
}

/// A text without the spaces, tabs and ends of lines at its start.
pub fn after_separators(text: &[u8]) -> &[u8]
    ensures { result.now ≡ skip_while is_separator text.now }
{
    let (_, following) = text.split_at(leading_separators(text));
    following
}

/// How many spaces, tabs and ends of lines a text begins with.
fn leading_separators(text: &[u8]) -> usize
    ensures value { result ≡ prefix_len is_separator text.now }
    ensures within { result ≤ length text.now }
{
    text.iter().take_while(|byte| is_separator(**byte)).count()
}

/// A text without the white space at its start.
fn after_whitespace(text: &[u8]) -> &[u8]
    ensures { result.now ≡ skip_while is_whitespace text.now }
{
    let (_, following) = text.split_at(leading_whitespace(text));
    following
}

/// How many bytes of white space a text begins with.
pub fn leading_whitespace(text: &[u8]) -> usize
    ensures value { result ≡ prefix_len is_whitespace text.now }
    ensures within { result ≤ length text.now }
{
    text.iter().take_while(|byte| is_whitespace(**byte)).count()
}

/// The number that one digit or more of a base write, if it has at most 32 bits.
#[tactic(auto, unfolding(crate::specs::Integers::size_in))]
fn size_in(base: u32, digits: &[u8]) -> Option<u64>
    requires least { 2 ≤ base }
    requires most { base ≤ 16 }
    ensures value { result ≡ size_in base digits.now }
    ensures below { IfSome result (λ number. number < 2 ^ 32) }
{
    if digits.is_empty() {
        return None;
    }
    let mut number = 0u64;
    for byte in digits {
        let digit = match char::from(*byte).to_digit(base) {
            Some(digit) => digit,
            None => return None,
        };
        number = number * u64::from(base) + u64::from(digit);
        if number >= LIMIT {
            return None;
        }
    }
    Some(number)
}

/// What follows a `0` and a letter, in either case.
fn rest_after_mark(letter: u8, text: &[u8]) -> Option<&[u8]>
    ensures { option_map (λ rest. rest.now) result ≡ rest_after_mark letter text.now }
{
    match text {
        [first, second, rest @ ..] => {
            if *first == b'0' && second.eq_ignore_ascii_case(&letter) {
                Some(rest)
            } else {
                None
            }
        }
        _ => None,
    }
}

/// The number that digits write, in the base that their beginning determines.
fn open_size(text: &[u8]) -> Option<u64>
    ensures value { result ≡ size_of Base.Open text.now }
    ensures below { IfSome result (λ number. number < 2 ^ 32) }
{
    if let Some(digits) = rest_after_mark(b'x', text) {
        return size_in(16, digits);
    }
    if let Some(digits) = rest_after_mark(b'b', text) {
        return size_in(2, digits);
    }
    if begins_with(b'0', text) {
        size_in(8, text)
    } else {
        size_in(10, text)
    }
}

/// The number after a sign, by the mark of its base.
fn size_of(base: Base, text: &[u8]) -> Option<u64>
    ensures value { result ≡ size_of base text.now }
    ensures below { IfSome result (λ number. number < 2 ^ 32) }
{
    match base {
        Base::Binary => size_in(2, rest_after_mark(b'b', text).unwrap_or(text)),
        Base::Octal => size_in(8, text),
        Base::Open => open_size(text),
    }
}

/// The base that a mark in front determines, and what follows the mark.
#[tactic(auto, unfolding(crate::specs::Integers::marked))]
fn marked(text: &[u8]) -> (Base, &[u8])
    ensures { (result.0, result.1.now) ≡ marked text.now }
{
    if let Some(rest) = rest_after_mark(b'b', text) {
        return (Base::Binary, rest);
    }
    match rest_after_mark(b'o', text) {
        Some(rest) => (Base::Octal, rest),
        None => (Base::Open, text),
    }
}

/// Whether a minus is in front, and what follows the sign, if there is one.
#[tactic(auto, unfolding(crate::specs::Integers::signed))]
fn signed(text: &[u8]) -> (bool, &[u8])
    ensures { (result.0, result.1.now) ≡ signed text.now }
{
    match text {
        [b'-', rest @ ..] => (true, rest),
        [b'+', rest @ ..] => (false, rest),
        _ => (false, text),
    }
}

/// The sign, true for a minus, and the number that a text writes.
#[tactic(auto, unfolding(crate::specs::Integers::signed_size))]
fn signed_size(text: &[u8]) -> Option<(bool, u64)>
    ensures value { result ≡ signed_size text.now }
    ensures below { IfSome result (λ x. x.1 < 2 ^ 32) }
{
    let (base, rest) = marked(after_separators(text));
    let (negative, digits) = signed(after_whitespace(rest));
    let number = size_of(base, digits)?;
    Some((negative, number))
}

/// The integer that a text writes, as udev reads one, if it has at most 32 bits without its sign.
///
/// Spaces, tabs and ends of lines may be in front, and a sign. The digits are hexadecimal after `0x`, binary after
/// `0b`, octal after `0o` or from a `0` on, and otherwise decimal; `0b` and `0o` may also come before the sign.
/// Nothing may follow the digits.
#[tactic(auto, unfolding(crate::specs::Integers::integer_of))]
pub fn integer_of(text: &[u8]) -> Option<i64>
    ensures { result ≡ integer_of text.now }
{
    let (negative, number) = signed_size(text)?;
    if negative {
        Some(-(number as i64))
    } else {
        Some(number as i64)
    }
}

/// The integer that a text writes, as `integer_of` reads it, if it is not below zero.
#[tactic(auto, unfolding(crate::specs::Integers::natural_of))]
pub fn natural_of(text: &[u8]) -> Option<u64>
    ensures value { result ≡ natural_of text.now }
    ensures below { IfSome result (λ number. number < 2 ^ 32) }
{
    let (negative, number) = signed_size(text)?;
    if negative && number != 0 {
        None
    } else {
        Some(number)
    }
}
