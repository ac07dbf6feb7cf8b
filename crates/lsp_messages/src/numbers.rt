//! The whole numbers that JSON writes, with a point or an exponent, too: `1.0` and `1e0` are 1.
ghost use Rattle.std.specs.Prelude.{◌≡◌, ◌-◌, ◌^◌, drop, min, option_map};
ghost use Rattle.fast_float.specs.Text.{point_at};
ghost use Rattle.text_bytes.specs.Numbers.{capped};
ghost use Rattle.lsp_messages.specs.Numbers.{are_zeros, is_whole, unsigned, whole_number};

use fast_float::{Numeral, parse_u64};
use text_bytes::{begins_with, capped};

/// How many digits stand before the point once the exponent has moved it, at most 2^64 - 1.
fn point_at(number: &Numeral<'_>) -> usize
    ensures { result ≡ min (point_at number.now) (2 ^ 64 - 1) }
{
    let before = number.whole().len();
    let digits = number.exponent();
    if digits.is_empty() {
        return before;
    }
    let exponent = parse_u64(digits).unwrap_or(u64::MAX) as usize;
    if number.is_exponent_negative() {
        before.saturating_sub(exponent)
    } else {
        before.saturating_add(exponent)
    }
}

/// Whether digits are zeros alone.
fn are_zeros(digits: &[u8]) -> bool
    ensures { result ≡ are_zeros digits.now }
{
    digits.iter().all(|digit| *digit == b'0')
}

/// The digits that follow so many others.
fn after(digits: &[u8], count: usize) -> &[u8]
    ensures { result.now ≡ drop count digits.now }
{
    &digits[count.min(digits.len())..]
}

/// Whether a number is whole.
fn is_whole(number: &Numeral<'_>) -> bool
    ensures { result ≡ is_whole number.now }
{
    let point = point_at(number);
    let whole = number.whole();
    let rest = after(number.fraction(), point.saturating_sub(whole.len()));
    are_zeros(after(whole, point)) & are_zeros(rest)
}

/// The whole number that a text without a sign writes, if it writes one; 2^32 - 1 for a greater one.
#[tactic(auto, unfolding(crate::specs::Numbers::unsigned))]
fn unsigned(text: &[u8]) -> Option<u32>
    ensures { result ≡ option_map capped (unsigned text.now) }
{
    let number = Numeral::scan(text);
    if !is_whole(&number) {
        return None;
    }
    Some(capped(number.whole_u64().unwrap_or(u64::MAX) as usize))
}

/// The whole number that a text writes, if it writes one that is not below zero; 2^32 - 1 for a greater one.
pub(crate) fn whole_number(text: &[u8]) -> Option<u32>
    ensures { result ≡ option_map capped (whole_number text.now) }
{
    if begins_with(b'-', text) {
        return match unsigned(&text[1..]) {
            Some(0) => Some(0),
            _ => None,
        };
    }
    unsigned(text)
}
