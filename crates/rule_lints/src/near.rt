//! W18: names in braces that are not known, and near one that is.
ghost use Rattle.std.specs.Prelude.{◌≡◌, ◌==◌, drop, map, option_map};
ghost use Rattle.std.specs.Char.{eq_ignore_ascii_case};
ghost use Rattle.std.specs.List.{list_all, prefix_len, zip};
ghost use Rattle.rule_lints.specs.Kernel.{is_other_case};
ghost use Rattle.rule_lints.specs.Near.{differs_at_start, is_near, is_one_off, is_swapped, known_attribute, known_for, known_instead, known_property, near_one};

use crate::tables::{ATTRIBUTE_NAMES, PROPERTY_NAMES, USB_NAMES};
use rule_tokens::Token;
use text_bytes::begins_with;
use text_tables::is_among;

/// The least length of a name that others may be one byte off.
const LONG: usize = 8;

/// The keys with names of attributes.
const ATTRIBUTE_KEYS: [&[u8]; 2] = [b"ATTR", b"ATTRS"];

/// The text with which W18 is reported: what is known instead of the name in a token's braces.
pub(crate) fn known_instead(token: &Token<'_>) -> Option<&'static [u8]>
    ensures { option_map (λ known. known.now) result ≡ known_instead token.now }
{
    known_for(token.key(), token.attribute()?)
}

/// What is known instead of a name in the braces of a key.
fn known_for(key: &[u8], name: &[u8]) -> Option<&'static [u8]>
    ensures { option_map (λ known. known.now) result ≡ known_for key.now name.now }
{
    if is_among(&ATTRIBUTE_KEYS, key) {
        known_attribute(name)
    } else if key == b"ENV".as_slice() {
        known_property(name)
    } else {
        None
    }
}

/// What is known instead of the name of an attribute.
fn known_attribute(name: &[u8]) -> Option<&'static [u8]>
    ensures { option_map (λ known. known.now) result ≡ known_attribute name.now }
{
    if name.starts_with(b"ID_") {
        Some(b"ENV")
    } else {
        near_one(&ATTRIBUTE_NAMES, name)
    }
}

/// What is known instead of the name of a property.
fn known_property(name: &[u8]) -> Option<&'static [u8]>
    ensures { option_map (λ known. known.now) result ≡ known_property name.now }
{
    if is_among(&USB_NAMES, name) {
        Some(b"ATTRS")
    } else {
        near_one(&PROPERTY_NAMES, name)
    }
}

/// The first of these names that a name is near to, if it is none of them.
fn near_one<'n>(names: &[&'n [u8]], name: &[u8]) -> Option<&'n [u8]>
    ensures { option_map (λ known. known.now) result ≡ near_one (map (λ known. known.now) names.now) name.now }
{
    if is_among(names, name) {
        return None;
    }
    for known in names {
        if is_near(known, name) {
            return Some(*known);
        }
    }
    None
}

/// Whether a name is near a known one: its letters are in another case, or it is one off from one that is not short.
fn is_near(known: &[u8], name: &[u8]) -> bool
    ensures { result ≡ is_near known.now name.now }
{
    is_other_case(known, name) || (LONG <= known.len() && is_one_off(known, name))
}

/// Whether a text is another, but for the case of a letter.
fn is_other_case(name: &[u8], text: &[u8]) -> bool
    ensures { result ≡ is_other_case name.now text.now }
{
    name.len() == text.len() && all_same_letters(name, text) && name != text
}

/// Whether each byte of a name is the letter at its place in any case, as far as there are both.
fn all_same_letters(name: &[u8], text: &[u8]) -> bool
    ensures { result ≡ list_all (λ pair. eq_ignore_ascii_case pair.0 pair.1) (zip name.now text.now) }
{
    name.iter()
        .zip(text)
        .all(|(letter, byte)| letter.eq_ignore_ascii_case(byte))
}

/// Whether two texts differ in one byte, which is replaced, left out or added, or in two neighbours that are swapped.
fn is_one_off(name: &[u8], text: &[u8]) -> bool
    ensures { result ≡ is_one_off name.now text.now }
{
    let size = common(name, text);
    differs_at_start(after(size, name), after(size, text))
}

/// How many bytes two texts begin with alike.
fn common(name: &[u8], text: &[u8]) -> usize
    ensures { result ≡ prefix_len (λ pair. pair.0 == pair.1) (zip name.now text.now) }
{
    name.iter()
        .zip(text)
        .take_while(|(a, b)| **a == **b)
        .count()
}

/// A text without so many bytes at its start.
#[tactic(auto, using(std::proofs::lemmas::List::drop_min))]
fn after(count: usize, text: &[u8]) -> &[u8]
    ensures { result.now ≡ drop count text.now }
{
    let (_, following) = text.split_at(count.min(text.len()));
    following
}

/// Whether a byte at the start is replaced, left out or added, or the two there are swapped.
fn differs_at_start(name: &[u8], text: &[u8]) -> bool
    ensures { result ≡ differs_at_start name.now text.now }
{
    (!name.is_empty() && (after(1, name) == after(1, text) || after(1, name) == text))
        || (!text.is_empty() && name == after(1, text))
        || is_swapped(name, text)
}

/// Whether two texts that begin with different bytes are the same but for these two neighbours.
fn is_swapped(name: &[u8], text: &[u8]) -> bool
    ensures { result ≡ is_swapped name.now text.now }
{
    match (name.split_first(), text.split_first()) {
        (Some((a, name)), Some((b, text))) => {
            begins_with(*b, name) && begins_with(*a, text) && after(1, name) == after(1, text)
        }
        _ => false,
    }
}
