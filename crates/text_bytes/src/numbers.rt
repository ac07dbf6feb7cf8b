//! Numbers in decimal digits, and the numbers of lines.
ghost use Rattle.std.specs.Prelude.{◌≡◌, ◌≤◌, ◌<◌, ◌^◌, IfSome};
ghost use Rattle.std.specs.Char.{is_ascii_hexdigit};
ghost use Rattle.std.specs.List.{list_all};
ghost use Rattle.text_bytes.specs.Numbers.{capped, decimal_below, is_decimal, is_digit};

/// Whether a byte is one of the digits `0` to `9`.
pub fn is_digit(byte: u8) -> bool
    ensures { result ≡ is_digit byte }
{
    b'0' <= byte && byte <= b'9'
}

/// Whether each byte of a text is a digit.
pub fn has_digits(text: &[u8]) -> bool
    ensures { result ≡ list_all is_digit text.now }
{
    text.iter().all(|byte| is_digit(*byte))
}

/// Whether a text is one digit or more, and nothing else.
pub fn is_decimal(text: &[u8]) -> bool
    ensures { result ≡ is_decimal text.now }
{
    !text.is_empty() && has_digits(text)
}

/// Whether each byte of a text is a hexadecimal digit.
pub fn is_hexadecimal(text: &[u8]) -> bool
    ensures { result ≡ list_all is_ascii_hexdigit text.now }
{
    text.iter().all(|byte| byte.is_ascii_hexdigit())
}

/// The number that a text of one decimal digit or more writes, if it is below a bound. Leading zeros count for
/// nothing, and with any other byte the text is not a number.
#[tactic(auto, unfolding(crate::specs::Numbers::decimal_below))]
pub fn decimal_below(bound: u64, text: &[u8]) -> Option<u64>
    requires { bound ≤ 2 ^ 32 }
    ensures value { result ≡ decimal_below bound text.now }
    ensures below { IfSome result (λ number. number < bound) }
{
    if text.is_empty() {
        return None;
    }
    let mut number = 0u64;
    for byte in text {
        if !is_digit(*byte) {
            return None;
        }
        number = 10 * number + u64::from(*byte - b'0');
        if number >= bound {
            return None;
        }
    }
    Some(number)
}

/// The number of a line as messages and entries of the database give it: at most 2^32 - 1.
pub fn capped(number: usize) -> u32
    ensures { result ≡ capped number }
{
    number.min(u32::MAX as usize) as u32
}
