//! W4: a letter has a case in which the kernel does not write it.
ghost use Rattle.std.specs.Prelude.{◌≡◌, ◌≤◌, length, not, option_map};
ghost use Rattle.std.specs.List.{list_all, list_any, prefix_len, zip};
ghost use Rattle.rule_lints.specs.LetterCase.{begin_with, has_small_digit, is_byte_in, is_capital, is_many, is_miswritten, is_small_alias, items_in_place};
ghost use Rattle.rule_lints.specs.LetterCase.{miswritten, writing_named, writing_of, wrong_case};

use crate::parts::comparison_of;
use rule_types::{Comparison, Part, PlainKey, UpKey};
use text_core::{Item, Pattern};
use text_tables::is_among;

/// How the kernel writes a value.
#[derive(Clone, Copy, PartialEq, Eq)]
pub(crate) enum Writing {
    /// Hexadecimal digits in lower case letters.
    Lower,
    /// The same if `0x` comes before them; otherwise any text.
    Prefixed,
    /// A device's alias, with the numbers of vendor and product in capital letters.
    Alias,
}

/// Attributes that are hexadecimal digits in lower case letters.
const LOWER_NAMES: [&[u8]; 18] = [
    b"idVendor",
    b"idProduct",
    b"bcdDevice",
    b"bDeviceClass",
    b"bDeviceSubClass",
    b"bDeviceProtocol",
    b"bInterfaceClass",
    b"bInterfaceSubClass",
    b"bInterfaceProtocol",
    b"bInterfaceNumber",
    b"bNumEndpoints",
    b"id/vendor",
    b"id/product",
    b"id/version",
    b"id/bustype",
    b"subsystem_vendor",
    b"subsystem_device",
    b"address",
];

/// Attributes that several subsystems have, and that are such digits if `0x` comes before them.
const PREFIXED_NAMES: [&[u8]; 3] = [b"vendor", b"device", b"class"];

/// The value with which W4 is reported.
pub(crate) fn wrong_case(part: &Part) -> Option<&[u8]>
    ensures { option_map (λ text. text.now) result ≡ wrong_case part.now }
{
    let writing = writing_of(part)?;
    miswritten(writing, comparison_of(part)?)
}

/// How the kernel writes what a part looks at, if that is known.
fn writing_of(part: &Part) -> Option<Writing>
    ensures { result ≡ writing_of part.now }
{
    match part {
        Part::Plain(asked) => match &asked.key {
            PlainKey::Attr(name) => writing_named(name.as_slice()),
            PlainKey::Env(name) if name.as_slice() == b"MODALIAS".as_slice() => {
                Some(Writing::Alias)
            }
            _ => None,
        },
        Part::Up(asked) => match &asked.key {
            UpKey::Attrs(name) => writing_named(name.as_slice()),
            _ => None,
        },
        _ => None,
    }
}

/// How the kernel writes an attribute.
fn writing_named(name: &[u8]) -> Option<Writing>
    ensures { result ≡ writing_named name.now }
{
    if is_among(&LOWER_NAMES, name) {
        Some(Writing::Lower)
    } else if is_among(&PREFIXED_NAMES, name) {
        Some(Writing::Prefixed)
    } else if name == b"modalias".as_slice() {
        Some(Writing::Alias)
    } else {
        None
    }
}

/// The value of a comparison in which case counts, and of which an alternative has a letter that the kernel does
/// not write so.
fn miswritten(writing: Writing, wanted: &Comparison) -> Option<&[u8]>
    ensures { option_map (λ text. text.now) result ≡ miswritten writing wanted.now }
{
    if !wanted.blind && some_miswritten(writing, wanted.choice.parts()) {
        Some(wanted.written.as_slice())
    } else {
        None
    }
}

/// Whether one of the alternatives has a letter that the kernel does not write so.
fn some_miswritten(writing: Writing, parts: &[Pattern]) -> bool
    ensures { result ≡ list_any (is_miswritten writing) parts.now }
{
    parts
        .iter()
        .any(|part| is_miswritten(writing, part.items()))
}

/// Whether an alternative has a letter that the kernel does not write so.
fn is_miswritten(writing: Writing, items: &[Item]) -> bool
    ensures { result ≡ is_miswritten writing items.now }
{
    match writing {
        Writing::Lower => has_capital(items),
        Writing::Prefixed => (begin_with(b"0x", items) || begin_with(b"0X", items))
            && has_capital(items),
        Writing::Alias => is_small_alias(items_in_place(items)),
    }
}

/// Whether an item is a letter `A` to `Z`.
fn has_capital(items: &[Item]) -> bool
    ensures { result ≡ list_any is_capital items.now }
{
    items.iter().any(|item| is_byte_in(b'A', b'Z', item))
}

/// Whether an item is a byte of this range.
fn is_byte_in(first: u8, last: u8, item: &Item) -> bool
    ensures { result ≡ is_byte_in first last item.now }
{
    match item {
        Item::Byte(byte) => first <= *byte && *byte <= last,
        _ => false,
    }
}

/// Whether items begin with bytes, one item for each.
pub(crate) fn begin_with(text: &[u8], items: &[Item]) -> bool
    ensures { result ≡ begin_with text.now items.now }
{
    text.len() <= items.len() && all_in_place(text, items)
}

/// Whether each item is the byte at its place, as far as there are both.
fn all_in_place(text: &[u8], items: &[Item]) -> bool
    ensures { result ≡ list_all (λ pair. is_byte_in pair.0 pair.0 pair.1) (zip text.now items.now) }
{
    text.iter()
        .zip(items)
        .all(|(byte, item)| is_byte_in(*byte, *byte, item))
}

/// The items up to the first that takes any bytes.
fn items_in_place(items: &[Item]) -> &[Item]
    ensures { result.now ≡ items_in_place items.now }
{
    let (prefix, _) = items.split_at(length_in_place(items));
    prefix
}

/// How many items come before the first that takes any bytes.
fn length_in_place(items: &[Item]) -> usize
    ensures value { result ≡ prefix_len (λ item. not (is_many item)) items.now }
    ensures within { result ≤ length items.now }
{
    items.iter().take_while(|item| !is_many(item)).count()
}

/// Whether an item takes any bytes.
pub(crate) fn is_many(item: &Item) -> bool
    ensures { result ≡ is_many item.now }
{
    matches!(item, Item::Many)
}

/// Whether an alias has a lower case digit where the kernel writes capital ones.
fn is_small_alias(items: &[Item]) -> bool
    ensures { result ≡ is_small_alias items.now }
{
    (begin_with(b"usb:v", items) && (has_small_digit(5, 4, items) || has_small_digit(10, 4, items)))
        || (begin_with(b"pci:v", items)
            && (has_small_digit(5, 8, items) || has_small_digit(14, 8, items)))
}

/// Whether a digit `a` to `f` is among so many items after the first so many.
fn has_small_digit(start: usize, size: usize, items: &[Item]) -> bool
    ensures { result ≡ has_small_digit start size items.now }
{
    items
        .iter()
        .skip(start)
        .take(size)
        .any(|item| is_byte_in(b'a', b'f', item))
}
