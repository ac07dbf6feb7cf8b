//! The elements between the brackets of a pattern of fnmatch(3), read one at a time.
ghost use Rattle.std.specs.Prelude.{◌≡◌, ◌+◌, ◌≤◌, ℕ, length, drop, IfSome, Some, nat_le, ◌&&◌, ◌^◌, ◌<◌};
ghost use Rattle.std.specs.Bool.{OnTrue};
ghost use Rattle.std.specs.List.{prefix_len, slice_get};
ghost use Rattle.text_core.specs.Classes.{class_of};
ghost use Rattle.text_core.specs.Elements.{class_element, class_or_equivalence, element_of, end_of, equivalence, element_has, escaped};
ghost use Rattle.text_core.specs.Elements.{folded, proceeds, is_ended, is_small_letter, is_unknown, named_class, point, range_between};
ghost use Rattle.text_core.specs.Elements.{ranged, single, symbol, symbol_element, symbol_len, symbol_or_bracket, takes_among};

use crate::byte_class::{ByteClass, class_of};
use crate::reading::Reading;
use crate::symbols::symbol_len;

/// An element between brackets.
#[derive(Clone, Copy)]
pub enum Element {
    /// A byte, perhaps after a backslash; read blind, a capital is its lower case letter.
    Single(u8),
    /// The bytes from the first to the last; none if the last is below the first.
    Range(u8, u8),
    /// `[=x=]` or `[.x.]`: the byte x, in its own case in both readings.
    AsIs(u8),
    /// `[:name:]`: the bytes of a class, in their own case in both readings.
    Class(ByteClass),
    /// A name that means nothing. A byte that no element before it has is not taken.
    Unknown,
}

/// An element found at a byte.
#[derive(Clone, Copy)]
pub struct Found {
    /// The element.
    pub element: Element,
    /// How many of the bytes after the first belong to it.
    pub following: usize,
}

/// A byte as a reading compares it: read blind, an ASCII capital is its lower case letter.
pub(crate) fn folded(reading: Reading, byte: u8) -> u8
    ensures { result ≡ folded reading byte }
{
    match reading {
        Reading::Exact => byte,
        Reading::Blind => byte.to_ascii_lowercase(),
    }
}

/// A byte that stands for itself.
fn single(reading: Reading, byte: u8) -> Found
    ensures { result ≡ single reading byte }
{
    Found {
        element: Element::Single(folded(reading, byte)),
        following: 0,
    }
}

/// The byte after a backslash, if there is one.
fn escaped(reading: Reading, after: &[u8]) -> Option<Found>
    ensures value { result ≡ escaped reading after.now }
    ensures within { IfSome result (λ found. found.following ≤ length after.now) }
{
    let (byte, _) = after.split_first()?;
    Some(Found {
        element: Element::Single(folded(reading, *byte)),
        following: 1,
    })
}

/// Whether a text begins with this byte and a `]`.
pub(crate) fn is_ended(mark: u8, text: &[u8]) -> bool
    ensures value { result ≡ is_ended mark text.now }
    ensures len { OnTrue result (2 ≤ length text.now) }
{
    text.len() >= 2 && text[0] == mark && text[1] == b']'
}

/// Whether a byte may be in the name of a class: a lower case letter other than z.
fn is_small_letter(byte: u8) -> bool
    ensures { result ≡ is_small_letter byte }
{
    b'a' <= byte && byte < b'z'
}

/// How many such letters a text begins with.
fn name_len(text: &[u8]) -> usize
    ensures value { result ≡ prefix_len is_small_letter text.now }
    ensures within { result ≤ length text.now }
{
    text.iter()
        .take_while(|byte| is_small_letter(**byte))
        .count()
}

/// The element of a class's name.
fn class_element(name: &[u8]) -> Element
    ensures { result ≡ class_element (class_of name.now) }
{
    match class_of(name) {
        Some(class) => Element::Class(class),
        None => Element::Unknown,
    }
}

/// The class that a text after `[:` names, if letters and `:]` come next.
#[tactic(auto, unfolding(crate::specs::Elements::named_class))]
fn named_class(text: &[u8]) -> Option<Found>
    ensures value { result ≡ named_class text.now }
    ensures within { IfSome result (λ found. found.following ≤ length text.now + 1) }
{
    let len = name_len(text);
    let (name, rest) = text.split_at(len);
    if !is_ended(b':', rest) {
        return None;
    }
    Some(Found {
        element: class_element(name),
        following: len + 3,
    })
}

/// The byte that a text after `[=` names, if it and `=]` come next.
fn equivalence(text: &[u8]) -> Option<Found>
    ensures value { result ≡ equivalence text.now }
    ensures within { IfSome result (λ found. found.following ≤ length text.now + 1) }
{
    let (byte, rest) = text.split_first()?;
    if !is_ended(b'=', rest) {
        return None;
    }
    Some(Found {
        element: Element::AsIs(*byte),
        following: 4,
    })
}

/// The class or the one byte that a `[` names, if it does.
fn class_or_equivalence(after: &[u8]) -> Option<Found>
    ensures value { result ≡ class_or_equivalence after.now }
    ensures within { IfSome result (λ found. found.following ≤ length after.now) }
{
    let (mark, text) = after.split_first()?;
    match *mark {
        b':' => named_class(text),
        b'=' => equivalence(text),
        _ => None,
    }
}

/// The element of a symbol: its byte, if it has just one.
fn symbol_element(first: u8, len: usize) -> Element
    ensures { result ≡ symbol_element first len }
{
    if len == 1 {
        Element::AsIs(first)
    } else {
        Element::Unknown
    }
}

/// The symbol after `[.`, if a `.]` ends it.
fn symbol(lens: &[Option<usize>], text: &[u8]) -> Option<Found>
    requires { (k : ℕ) → slice_get lens.now (length (drop k text.now)) ≡ Some (symbol_len (drop k text.now)) }
    ensures value { result ≡ symbol text.now }
    ensures within { IfSome result (λ found. found.following ≤ length text.now + 1) }
{
    let (first, _) = text.split_first()?;
    let len = symbol_len(lens, text)?;
    Some(Found {
        element: symbol_element(*first, len),
        following: len + 3,
    })
}

/// What a `[` that names no class is: the beginning of a symbol, or itself.
fn symbol_or_bracket(reading: Reading, lens: &[Option<usize>], after: &[u8]) -> Option<Found>
    requires { (k : ℕ) → slice_get lens.now (length (drop k after.now)) ≡ Some (symbol_len (drop k after.now)) }
    ensures value { result ≡ symbol_or_bracket reading after.now }
    ensures within { IfSome result (λ found. found.following ≤ length after.now) }
{
    match after.split_first() {
        Some((mark, text)) if *mark == b'.' => symbol(lens, text),
        _ => Some(single(reading, b'[')),
    }
}

/// What may stand alone or at an end of a range. `None` if the text ends within it.
#[tactic(auto, unfolding(crate::specs::Elements::point))]
fn point(reading: Reading, lens: &[Option<usize>], byte: u8, after: &[u8]) -> Option<Found>
    requires { (k : ℕ) → slice_get lens.now (length (drop k after.now)) ≡ Some (symbol_len (drop k after.now)) }
    ensures value { result ≡ point reading byte after.now }
    ensures within { IfSome result (λ found. found.following ≤ length after.now) }
{
    match byte {
        b'\\' => escaped(reading, after),
        b'[' => symbol_or_bracket(reading, lens, after),
        _ => Some(single(reading, byte)),
    }
}

/// Whether a range goes on: a minus comes next, and after it a byte that is no `]`.
fn proceeds(rest: &[u8]) -> bool
    ensures value { result ≡ proceeds rest.now }
    ensures len { OnTrue result (2 ≤ length rest.now) }
{
    rest.len() >= 2 && rest[0] == b'-' && rest[1] != b']'
}

/// The byte of an element that may be at an end of a range.
fn end_of(element: Element) -> Option<u8>
    ensures { result ≡ end_of element }
{
    match element {
        Element::Single(byte) => Some(byte),
        Element::AsIs(byte) => Some(byte),
        _ => None,
    }
}

/// The range between two ends.
fn range_between(first: Element, last: Element) -> Element
    ensures { result ≡ range_between (end_of first) (end_of last) }
{
    let Some(low) = end_of(first) else {
        return Element::Unknown;
    };
    let Some(high) = end_of(last) else {
        return Element::Unknown;
    };
    Element::Range(low, high)
}

/// The range that a first end begins before this text, or otherwise that end alone.
#[tactic(auto, unfolding(crate::specs::Elements::ranged))]
fn ranged(reading: Reading, lens: &[Option<usize>], first: Found, rest: &[u8]) -> Option<Found>
    requires symbols { (k : ℕ) → slice_get lens.now (length (drop k rest.now)) ≡ Some (symbol_len (drop k rest.now)) }
    requires sum { first.following + length rest.now < 2 ^ 63 }
    ensures value { result ≡ ranged reading first rest.now }
    ensures within { IfSome result (λ found. found.following ≤ first.following + length rest.now) }
{
    if !proceeds(rest) {
        return Some(first);
    }
    let (_, after) = rest.split_at(2);
    let last = point(reading, lens, rest[1], after)?;
    Some(Found {
        element: range_between(first.element, last.element),
        following: first.following + last.following + 2,
    })
}

/// The element that a byte begins, or `None` if the text ends within it. `lens` is the `symbol_lens` of the text
/// after the byte.
#[tactic(auto, unfolding(crate::specs::Elements::element_of))]
pub(crate) fn element_of(
    reading: Reading,
    lens: &[Option<usize>],
    byte: u8,
    after: &[u8],
) -> Option<Found>
    requires { (k : ℕ) → slice_get lens.now (length (drop k after.now)) ≡ Some (symbol_len (drop k after.now)) }
    ensures value { result ≡ element_of reading byte after.now }
    ensures within { IfSome result (λ found. found.following ≤ length after.now) }
{
    if byte == b'[' {
        if let Some(found) = class_or_equivalence(after) {
            return Some(found);
        }
    }
    let first = point(reading, lens, byte, after)?;
    let (_, rest) = after.split_at(first.following);
    ranged(reading, lens, first, rest)
}

/// Whether an element is a name that means nothing.
fn is_unknown(element: Element) -> bool
    ensures { result ≡ is_unknown element }
{
    match element {
        Element::Unknown => true,
        _ => false,
    }
}

/// Whether a byte, as a reading compares it, is in a range.
fn range_has(reading: Reading, first: u8, last: u8, byte: u8) -> bool
    ensures { result ≡ (nat_le first (folded reading byte) && nat_le (folded reading byte) last) }
{
    let own = folded(reading, byte);
    first <= own && own <= last
}

/// Whether an element has a byte.
fn element_has(reading: Reading, element: Element, byte: u8) -> bool
    ensures { result ≡ element_has reading element byte }
{
    match element {
        Element::Single(own) => own == folded(reading, byte),
        Element::Range(first, last) => range_has(reading, first, last, byte),
        Element::AsIs(own) => own == byte,
        Element::Class(class) => class.has(byte),
        Element::Unknown => false,
    }
}

/// Whether the set of the elements, or with a sign its complement, has a byte.
pub(crate) fn takes_among(reading: Reading, negated: bool, elements: &[Element], byte: u8) -> bool
    ensures { result ≡ takes_among reading negated elements.now byte }
{
    for element in elements {
        if is_unknown(*element) {
            return false;
        }
        if element_has(reading, *element, byte) {
            return !negated;
        }
    }
    negated
}
