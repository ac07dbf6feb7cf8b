//! How udev of systemd 257 compares, where this differs from the manual.
ghost use Rattle.std.specs.Prelude.{◌≡◌, ◌≤◌, length, map, not, option_map};
ghost use Rattle.std.specs.Char.{to_ascii_lowercase};
ghost use Rattle.std.specs.List.{prefix_len, suffix_len};
ghost use Rattle.text_tables.specs.Texts.{same_text};
ghost use Rattle.text_core.specs.Choices.{choice_fits, is_bar};
ghost use Rattle.rule_tokens.specs.Integers.{is_separator};
ghost use Rattle.eval_rendering.specs.Holding.{holds, udev_attribute, udev_members, udev_subsystem};
ghost use Rattle.eval_rendering.specs.Members.{listed};
ghost use Rattle.eval_rendering.specs.Udev.{capped, compared_with, first_part, means_each, members_fit, subsystem_fits, trims, without_end};

use crate::bounds::MAX_VALUE_BYTES;
use crate::holding::{Members, agrees, some_fits};
use rule_tokens::is_separator;
use rule_types::Comparison;
use text_bytes::is_whitespace;

/// Whether a value is one of the three words each of which udev takes for all three.
fn means_each(value: &[u8]) -> bool
    ensures { result ≡ means_each value.now }
{
    value == b"subsystem".as_slice() || value == b"bus".as_slice() || value == b"class".as_slice()
}

/// Whether two texts have the same bytes, ignoring the case of ASCII letters.
fn same_in_any_case(text: &[u8], other: &[u8]) -> bool
    ensures { result ≡ same_text (map to_ascii_lowercase text.now) (map to_ascii_lowercase other.now) }
{
    text.eq_ignore_ascii_case(other)
}

/// Whether a subsystem fits: each of the three words, alone in a value, fits each of the three.
fn subsystem_fits(wanted: &Comparison, text: &[u8]) -> bool
    ensures { result ≡ subsystem_fits wanted.now text.now }
{
    if !means_each(wanted.written.as_slice()) {
        return wanted.choice.fits(text);
    }
    if !wanted.blind {
        return means_each(text);
    }
    same_in_any_case(text, b"subsystem")
        || same_in_any_case(text, b"bus")
        || same_in_any_case(text, b"class")
}

/// Whether a comparison holds for a subsystem.
#[tactic(auto, unfolding(crate::specs::Holding::holds))]
pub(crate) fn subsystem_holds(wanted: &Comparison, text: &[u8]) -> bool
    ensures { result ≡ holds (udev_subsystem text.now) wanted.now }
{
    agrees(wanted.operator, subsystem_fits(wanted, text))
}

/// Whether texts fit: `?*` fits whatever they are.
fn members_fit(wanted: &Comparison, texts: &Members<'_>) -> bool
    ensures { result ≡ members_fit wanted.now (listed texts.now) }
{
    wanted.written.as_slice() == b"?*".as_slice() || some_fits(&wanted.choice, texts)
}

/// Whether a comparison holds for texts.
#[tactic(auto, unfolding(crate::specs::Holding::holds))]
pub(crate) fn members_hold(wanted: &Comparison, texts: &Members<'_>) -> bool
    ensures { result ≡ holds (udev_members (listed texts.now)) wanted.now }
{
    agrees(wanted.operator, members_fit(wanted, texts))
}

/// How many bars a text begins with.
fn leading_bars(text: &[u8]) -> usize
    ensures value { result ≡ prefix_len is_bar text.now }
    ensures within { result ≤ length text.now }
{
    text.iter().take_while(|byte| **byte == b'|').count()
}

/// How many bytes come before the first bar of a text.
fn before_bar(text: &[u8]) -> usize
    ensures value { result ≡ prefix_len (λ b. not (is_bar b)) text.now }
    ensures within { result ≤ length text.now }
{
    text.iter().take_while(|byte| **byte != b'|').count()
}

/// The first of the texts between bars that is not empty; the empty text if there is none.
fn first_part(value: &[u8]) -> &[u8]
    ensures { result.now ≡ first_part value.now }
{
    let (_, following) = value.split_at(leading_bars(value));
    following.split_at(before_bar(following)).0
}

/// Whether an attribute is compared without the white space at its end.
fn trims(value: &[u8]) -> bool
    ensures { result ≡ trims value.now }
{
    match first_part(value).last() {
        Some(byte) => !is_whitespace(*byte),
        None => false,
    }
}

/// How many spaces, tabs and ends of lines a text ends in.
fn end_len(text: &[u8]) -> usize
    ensures value { result ≡ suffix_len is_separator text.now }
    ensures within { result ≤ length text.now }
{
    text.iter()
        .rev()
        .take_while(|byte| is_separator(**byte))
        .count()
}

/// A text without the spaces, tabs and ends of lines at its end.
fn without_end(text: &[u8]) -> &[u8]
    ensures { result.now ≡ without_end text.now }
{
    text.split_at(text.len() - end_len(text)).0
}

/// The first bytes of an attribute, as many as are compared if it is compared without its end.
pub(crate) fn capped(text: &[u8]) -> &[u8]
    ensures { result.now ≡ capped text.now }
{
    text.split_at(MAX_VALUE_BYTES.min(text.len())).0
}

/// An attribute as it is compared with a value.
fn compared_with<'a>(value: &[u8], text: &'a [u8]) -> &'a [u8]
    ensures { result.now ≡ compared_with value.now text.now }
{
    if trims(value) {
        without_end(capped(text))
    } else {
        text
    }
}

/// Whether an attribute fits, as it is compared.
fn value_fits(wanted: &Comparison, text: &[u8]) -> bool
    ensures { result ≡ choice_fits wanted.now.choice (compared_with wanted.now.written text.now) }
{
    wanted
        .choice
        .fits(compared_with(wanted.written.as_slice(), text))
}

/// Whether a comparison holds for an attribute, which may be absent.
#[tactic(auto, unfolding(crate::specs::Holding::holds))]
pub(crate) fn attribute_holds(wanted: &Comparison, value: Option<&[u8]>) -> bool
    ensures { result ≡ holds (udev_attribute (option_map (λ t. t.now) value.entry)) wanted.now }
{
    match value {
        Some(text) => agrees(wanted.operator, value_fits(wanted, text)),
        None => false,
    }
}
