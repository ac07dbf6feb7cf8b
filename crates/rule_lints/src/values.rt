//! W17, W19 and W22: blanks beside a `|`, what looks like a substitution, and names that are too long.
ghost use Rattle.std.specs.Prelude.{◌≡◌};
ghost use Rattle.rule_lints.specs.Values.{is_blank_beside_bar, is_compared, is_constant, is_long_name, is_no_substitution};

use crate::parts::comparison_of;
use crate::tables::{DOUBLED_SIGNS, MISTAKEN_SUBSTITUTIONS, SUBSTITUTIONS};
use crate::texts::has_byte;
use crate::value_texts::has_one;
use rule_tokens::Token;
use rule_types::Part;
use text_bytes::{begins_with, ends_in};

/// The most bytes that the name of a network interface has: the kernel's IFNAMSIZ is 16 with the byte that ends it.
const LONGEST_NAME: usize = 15;

/// A `|` before a blank.
const BLANK_AFTER: [&[u8]; 1] = [b"| "];

/// A `|` behind a blank.
const BLANK_BEFORE: [&[u8]; 1] = [b" |"];

/// Whether a part compares its value.
pub(crate) fn is_compared(part: &Part) -> bool
    ensures { result ≡ is_compared part.now }
{
    comparison_of(part).is_some()
}

/// Whether patterns have a blank beside a `|` that is not meant as a part of them.
pub(crate) fn is_blank_beside_bar(value: &[u8]) -> bool
    ensures { result ≡ is_blank_beside_bar value.now }
{
    (has_one(&BLANK_AFTER, value) && !begins_with(b' ', value))
        || (has_one(&BLANK_BEFORE, value) && !ends_in(b' ', value))
}

/// Whether W19 is reported for a value, which is compared or not: it has a substitution, or a mistaken one.
pub(crate) fn is_no_substitution(compared: bool, value: &[u8]) -> bool
    ensures { result ≡ is_no_substitution compared value.now }
{
    if compared {
        has_one(&SUBSTITUTIONS, value)
    } else {
        has_one(&MISTAKEN_SUBSTITUTIONS, value) && !has_one(&DOUBLED_SIGNS, value)
    }
}

/// Whether a value is the same for each device.
pub(crate) fn is_constant(value: &[u8]) -> bool
    ensures { result ≡ is_constant value.now }
{
    !value.is_empty() && !(has_byte(b'%', value) || has_byte(b'$', value))
}

/// Whether a token gives NAME a name that is longer than that of a network interface may be.
pub(crate) fn is_long_name(token: &Token<'_>) -> bool
    ensures { result ≡ is_long_name token.now }
{
    let value = token.value();
    token.key() == b"NAME".as_slice()
        && !token.operator().compares()
        && is_constant(value)
        && LONGEST_NAME < value.len()
}
