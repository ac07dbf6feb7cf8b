//! W16: patterns that fit nothing that the kernel writes.
ghost use Rattle.std.specs.Prelude.{◌≡◌, map, option_map};
ghost use Rattle.std.specs.List.{list_all, list_any, zip};
ghost use Rattle.rule_lints.specs.LetterCase.{is_many};
ghost use Rattle.rule_lints.specs.Never.{are_no_digits, are_other_case, fits_none, idle_value, impossible, is_idle, is_letter_of, is_no_digit, never_fits};

use crate::letter_case::{begin_with, is_many};
use crate::parts::comparison_of;
use crate::subjects::{Subject, subject_of};
use crate::tables::{ACTIONS, ARCHITECTURES, REMOVABLE_VALUES, SUBSYSTEMS};
use rule_types::{Comparison, Part};
use text_core::{Item, Pattern};

/// The value with which W16 is reported: one of its patterns fits nothing that the kernel writes.
pub(crate) fn impossible(part: &Part) -> Option<&[u8]>
    ensures { option_map (λ text. text.now) result ≡ impossible part.now }
{
    let subject = subject_of(part)?;
    idle_value(subject, comparison_of(part)?)
}

/// The value of a comparison, if one of its patterns fits nothing that the kernel writes.
fn idle_value(subject: Subject, wanted: &Comparison) -> Option<&[u8]>
    ensures { option_map (λ text. text.now) result ≡ idle_value subject wanted.now }
{
    if some_idle(subject, wanted.choice.parts()) {
        Some(wanted.written.as_slice())
    } else {
        None
    }
}

/// Whether one of the patterns fits nothing that the kernel writes.
fn some_idle(subject: Subject, patterns: &[Pattern]) -> bool
    ensures { result ≡ list_any (is_idle subject) patterns.now }
{
    patterns.iter().any(|pattern| is_idle(subject, pattern))
}

/// Whether a pattern that is not empty fits nothing that the kernel writes.
fn is_idle(subject: Subject, pattern: &Pattern) -> bool
    ensures { result ≡ is_idle subject pattern.now }
{
    !pattern.items().is_empty() && never_fits(subject, pattern)
}

/// Whether a pattern fits nothing that the kernel writes.
fn never_fits(subject: Subject, pattern: &Pattern) -> bool
    ensures { result ≡ never_fits subject pattern.now }
{
    let items = pattern.items();
    match subject {
        Subject::Action => fits_none(&ACTIONS, pattern),
        Subject::Kernel => begin_with(b"/", items),
        Subject::Devpath => begin_with(b"/sys/", items) || begin_with(b"/dev/", items),
        Subject::Subsystem => some_other_case(&SUBSYSTEMS, pattern),
        Subject::FourDigits => are_no_digits(4, items),
        Subject::TwoDigits => are_no_digits(2, items),
        Subject::Removable => fits_none(&REMOVABLE_VALUES, pattern),
        Subject::Architecture => fits_none(&ARCHITECTURES, pattern),
    }
}

/// Whether none of these texts fits a pattern.
fn fits_none(texts: &[&[u8]], pattern: &Pattern) -> bool
    ensures { result ≡ fits_none (map (λ text. text.now) texts.now) pattern.now }
{
    for text in texts {
        if pattern.fits(text) {
            return false;
        }
    }
    true
}

/// Whether a pattern is one of these names, but for the case of a letter.
fn some_other_case(names: &[&[u8]], pattern: &Pattern) -> bool
    ensures { result ≡ list_any (λ name. are_other_case name pattern.now) (map (λ name. name.now) names.now) }
{
    for name in names {
        if are_other_case(name, pattern) {
            return true;
        }
    }
    false
}

/// Whether a pattern is a name, but for the case of a letter.
fn are_other_case(name: &[u8], pattern: &Pattern) -> bool
    ensures { result ≡ are_other_case name.now pattern.now }
{
    let items = pattern.items();
    name.len() == items.len() && all_letters_of(name, items) && !pattern.fits(name)
}

/// Whether each item is the letter at its place in any case, as far as there are both.
fn all_letters_of(name: &[u8], items: &[Item]) -> bool
    ensures { result ≡ list_all (λ pair. is_letter_of pair.0 pair.1) (zip name.now items.now) }
{
    name.iter()
        .zip(items)
        .all(|(letter, item)| is_letter_of(*letter, item))
}

/// Whether an item is a letter, in any case.
fn is_letter_of(letter: u8, item: &Item) -> bool
    ensures { result ≡ is_letter_of letter item.now }
{
    match item {
        Item::Byte(byte) => letter.eq_ignore_ascii_case(byte),
        _ => false,
    }
}

/// Whether items are not so many hexadecimal digits.
fn are_no_digits(size: usize, items: &[Item]) -> bool
    ensures { result ≡ are_no_digits size items.now }
{
    some_no_digit(items) || (!some_many(items) && items.len() != size)
}

/// Whether a byte of items is no hexadecimal digit.
fn some_no_digit(items: &[Item]) -> bool
    ensures { result ≡ list_any is_no_digit items.now }
{
    items.iter().any(|item| is_no_digit(item))
}

/// Whether an item takes any bytes.
fn some_many(items: &[Item]) -> bool
    ensures { result ≡ list_any is_many items.now }
{
    items.iter().any(|item| is_many(item))
}

/// Whether an item is a byte, and it is no hexadecimal digit.
fn is_no_digit(item: &Item) -> bool
    ensures { result ≡ is_no_digit item.now }
{
    match item {
        Item::Byte(byte) => !byte.is_ascii_hexdigit(),
        _ => false,
    }
}
