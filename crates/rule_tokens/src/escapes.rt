//! One escape of an `e".."` value, after its backslash.

ghost use Rattle.std.specs.Prelude.{◌≡◌, ◌≤◌, ◌<◌, length, option_map, IfSome, nat_lt};
ghost use Rattle.std.specs.Char.{digit_value};
ghost use Rattle.rule_tokens.specs.Values.{letter_means};
ghost use Rattle.rule_tokens.specs.Reading.{meant, byte_at, character_at, escape_at, number_at, scan};

const BELL: u8 = 0x07;

const BACKSPACE: u8 = 0x08;

const VERTICAL_TAB: u8 = 0x0B;

const FORM_FEED: u8 = 0x0C;

/// What a piece of a value means.
#[derive(Clone, Copy)]
pub(crate) enum Meaning {
    /// This byte.
    Byte(u8),
    /// This character, in UTF-8.
    Character(char),
}

/// The byte that a letter means after a backslash, or 0.
#[tactic(auto, unfolding(crate::specs::Values::letter_means))]
fn letter_means(letter: u8) -> u8
    ensures { result ≡ letter_means letter }
{
    match letter {
        b'a' => BELL,
        b'b' => BACKSPACE,
        b'f' => FORM_FEED,
        b'n' => b'\n',
        b'r' => b'\r',
        b't' => b'\t',
        b'v' => VERTICAL_TAB,
        b'\\' => b'\\',
        b'"' => b'"',
        b'\'' => b'\'',
        b's' => b' ',
        _ => 0,
    }
}

/// The byte that so many digits write.
fn byte_of(text: &[u8], base: u32, count: usize) -> Option<(Meaning, &[u8])>
    requires least { 2 ≤ base }
    requires most { base ≤ 16 }
    requires few { count ≤ 8 }
    ensures { byte_at base count text.now ≡ option_map (λ x. (meant x.0, x.1.now)) result }
{
    let value = number_of(text, base, count)?;
    if value > 255 {
        return None;
    }
    Some((Meaning::Byte(value as u8), &text[count..]))
}

/// The character whose number so many digits write.
fn character_of(text: &[u8], count: usize) -> Option<(Meaning, &[u8])>
    requires few { count ≤ 8 }
    ensures { character_at count text.now ≡ option_map (λ x. (meant x.0, x.1.now)) result }
{
    let value = number_of(text, 16, count)?;
    let c = char::from_u32(value)?;
    Some((Meaning::Character(c), &text[count..]))
}

/// Whether a byte is an octal digit.
fn is_octal(c: u8) -> bool
    ensures { result ≡ nat_lt (digit_value c) 8 }
{
    char::from(c).is_digit(8)
}

/// An escape after its backslash, and what follows it.
#[tactic(auto, unfolding(crate::specs::Reading::escape_at))]
pub(crate) fn escape_of(text: &[u8]) -> Option<(Meaning, &[u8])>
    ensures { escape_at text.now ≡ option_map (λ x. (meant x.0, x.1.now)) result }
{
    match text {
        [b'x', rest @ ..] => byte_of(rest, 16, 2),
        [b'u', rest @ ..] => character_of(rest, 4),
        [b'U', rest @ ..] => character_of(rest, 8),
        [c, rest @ ..] => {
            if is_octal(*c) {
                return byte_of(text, 8, 3);
            }
            let b = letter_means(*c);
            if b == 0 {
                return None;
            }
            Some((Meaning::Byte(b), rest))
        }
        [] => None,
    }
}

/// The number that so many digits write, if it isn't 0 and is at most 10FFFF.
fn number_of(text: &[u8], base: u32, count: usize) -> Option<u32>
    requires least { 2 ≤ base }
    requires most { base ≤ 16 }
    requires few { count ≤ 8 }
    ensures within { IfSome result (λ n. (count ≤ length text.now) × (n < 1114112)) }
    ensures value { result ≡ number_at base count text.now }
{
    if text.len() < count {
        return None;
    }
    let value = scanned(&text[..count], base)?;
    if value == 0 {
        return None;
    }
    Some(value)
}

/// The number that the digits write, if it is at most 10FFFF.
#[tactic(auto, using(crate::proofs::Numbers::scan_steps))]
fn scanned(digits: &[u8], base: u32) -> Option<u32>
    requires least { 2 ≤ base }
    requires most { base ≤ 16 }
    ensures within { IfSome result (λ n. n < 1114112) }
    ensures value { result ≡ scan base 0 digits.now }
{
    let mut value: u32 = 0;
    for b in digits {
        let digit = match char::from(*b).to_digit(base) {
            Some(digit) => digit,
            None => return None,
        };
        value = value * base + digit;
        if value > 0x10_FFFF {
            return None;
        }
    }
    Some(value)
}
