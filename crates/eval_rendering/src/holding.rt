//! How a comparison holds, by what it looks at.
ghost use Rattle.std.specs.Prelude.{◌≡◌, option_map, false};
ghost use Rattle.std.specs.List.{list_any};
ghost use Rattle.text_core.specs.Choices.{choice_fits};
ghost use Rattle.text_core.specs.Fits.{fits};
ghost use Rattle.eval_rendering.specs.Beginnings.{is_other_byte};
ghost use Rattle.eval_rendering.specs.Holding.{agrees, as_compared, attribute, holds, is_whitespace_item, members, one, unread};
ghost use Rattle.eval_rendering.specs.Members.{listed};

use rule_types::{Comparison, MatchOperator};
use text_bytes::{is_whitespace, trimmed};
use text_core::{Choice, Item, Pattern};

/// An answer, by an operator: `==` leaves it as it is, and `!=` negates it.
pub fn agrees(operator: MatchOperator, fits: bool) -> bool
    ensures { result ≡ agrees operator fits }
{
    match operator {
        MatchOperator::Equal => fits,
        MatchOperator::NotEqual => !fits,
    }
}

/// Whether an item of a pattern is a byte of whitespace.
fn is_whitespace_item(item: &Item) -> bool
    ensures { result ≡ is_whitespace_item item.now }
{
    match item {
        Item::Byte(byte) => is_whitespace(*byte),
        _ => false,
    }
}

/// An attribute as it is compared with a choice: whitespace at its end counts only if the last part of the choice has some there.
fn as_compared<'a>(choice: &Choice, text: &'a [u8]) -> &'a [u8]
    ensures { result.now ≡ as_compared choice.now text.now }
{
    let Some(pattern) = choice.parts().last() else {
        return trimmed(text);
    };
    match pattern.items().last() {
        Some(item) if is_whitespace_item(item) => text,
        _ => trimmed(text),
    }
}

/// Whether an item is a byte with which a text does not begin.
fn is_other_byte(item: &Item, text: &[u8]) -> bool
    ensures { result ≡ is_other_byte item.now text.now }
{
    match item {
        Item::Byte(byte) => text.first() != Some(byte),
        _ => false,
    }
}

/// Whether a pattern fits a text. Most patterns begin with a byte, and most texts do not begin with it.
#[inline(always)]
fn pattern_fits(pattern: &Pattern, text: &[u8]) -> bool
    ensures { result ≡ fits pattern.now text.now }
{
    match pattern.items().first() {
        Some(item) if is_other_byte(item, text) => false,
        _ => pattern.fits(text),
    }
}

/// Whether one of the patterns of a choice fits a text.
#[inline(always)]
fn choice_fits(choice: &Choice, text: &[u8]) -> bool
    ensures { result ≡ choice_fits choice.now text.now }
{
    choice.parts().iter().any(|part| pattern_fits(part, text))
}

/// Whether a comparison holds for a text.
#[inline(always)]
#[tactic(auto, unfolding(crate::specs::Holding::holds))]
pub(crate) fn text_holds(wanted: &Comparison, text: &[u8]) -> bool
    ensures { result ≡ holds (one text.now) wanted.now }
{
    agrees(wanted.operator, choice_fits(&wanted.choice, text))
}

/// Whether a comparison holds for an attribute, which may be absent.
#[tactic(auto, unfolding(crate::specs::Holding::holds))]
pub(crate) fn attribute_holds(wanted: &Comparison, value: Option<&[u8]>) -> bool
    ensures { result ≡ holds (attribute (option_map (λ t. t.now) value.entry)) wanted.now }
{
    match value {
        Some(text) => agrees(
            wanted.operator,
            wanted.choice.fits(as_compared(&wanted.choice, text)),
        ),
        None => agrees(wanted.operator, false),
    }
}

/// Texts of which some may fit.
#[derive(Drop)]
pub(crate) enum Members<'s> {
    /// As rules left them.
    Kept(&'s [Vec<u8>]),
    /// As the event gave them.
    Given(&'s [&'s [u8]]),
}

/// Whether one of the texts that rules left fits.
fn some_kept_fits(choice: &Choice, texts: &[Vec<u8>]) -> bool
    ensures { result ≡ list_any (λ t. choice_fits choice.now t.items) texts.now }
{
    texts.iter().any(|text| choice.fits(text))
}

/// Whether one of the texts that the event gave fits.
fn some_given_fits(choice: &Choice, texts: &[&[u8]]) -> bool
    ensures { result ≡ list_any (λ t. choice_fits choice.now t.now) texts.now }
{
    texts.iter().any(|text| choice.fits(text))
}

/// Whether one of the texts fits.
pub(crate) fn some_fits(choice: &Choice, texts: &Members<'_>) -> bool
    ensures { result ≡ list_any (choice_fits choice.now) (listed texts.now) }
{
    match texts {
        Members::Kept(texts) => some_kept_fits(choice, texts),
        Members::Given(texts) => some_given_fits(choice, texts),
    }
}

/// Whether a comparison holds for texts.
#[tactic(auto, unfolding(crate::specs::Holding::holds))]
pub(crate) fn members_hold(wanted: &Comparison, texts: &Members<'_>) -> bool
    ensures { result ≡ holds (members (listed texts.now)) wanted.now }
{
    agrees(wanted.operator, some_fits(&wanted.choice, texts))
}

/// Whether a comparison holds for what is not read.
#[tactic(auto, unfolding(crate::specs::Holding::holds))]
pub(crate) fn unread_holds(wanted: &Comparison) -> bool
    ensures { result ≡ holds unread wanted.now }
{
    agrees(wanted.operator, false)
}
