//! W11, W12 and W14: patterns that are written as regular expressions, matches that always hold, and what is no pattern
//! for udev.
ghost use Rattle.std.specs.Prelude.{◌≡◌, option_map};
ghost use Rattle.std.specs.List.{list_all, list_any, slice_split};
ghost use Rattle.rule_lints.specs.LetterCase.{is_many};
ghost use Rattle.text_core.specs.Choices.{is_bar};
ghost use Rattle.rule_lints.specs.Patterns.{always_holds, expression, has_close_parenthesis, has_open_parenthesis, is_always_there};
ghost use Rattle.rule_lints.specs.Patterns.{is_expression, is_no_pattern, take_all, value_of_act, value_taken};

use crate::letter_case::is_many;
use crate::parts::{comparison_of, is_equal};
use crate::texts::{has_byte, rest_after_first, rest_after_last};
use crate::value_texts::has_one;
use rule_types::{ActKind, Import, Part, PlainKey, UpKey};
use text_bytes::{Profile, begins_with, ends_in, up_to};
use text_core::{Item, Pattern};

/// Signs that are in regular expressions alone: classes of characters, and a set that is repeated.
const EXPRESSION_SIGNS: [&[u8]; 4] = [b"\\d", b"\\w", b"\\s", b"]+"];

/// The value with which W11 is reported: that of a comparison, if its alternatives, as texts between bars, are written as
/// regular expressions or with braces.
pub(crate) fn expression(part: &Part) -> Option<&[u8]>
    ensures { option_map (λ text. text.now) result ≡ expression part.now }
{
    let wanted = comparison_of(part)?;
    let written = wanted.written.as_slice();
    let reported = has_expression(written) || (opens_group(written) && closes_group(written));
    reported.then_some(written)
}

/// Whether a text between bars opens a group in parentheses.
fn opens_group(written: &[u8]) -> bool
    ensures { result ≡ list_any has_open_parenthesis (slice_split is_bar written.now) }
{
    written
        .split(|byte| *byte == b'|')
        .any(|text| has_byte(b'(', rest_after_last(b')', text)))
}

/// Whether a text between bars closes a group in parentheses.
fn closes_group(written: &[u8]) -> bool
    ensures { result ≡ list_any has_close_parenthesis (slice_split is_bar written.now) }
{
    written
        .split(|byte| *byte == b'|')
        .any(|text| has_byte(b')', up_to(b'(', text)))
}

/// Whether a text between bars is written as a regular expression or with braces.
fn has_expression(written: &[u8]) -> bool
    ensures { result ≡ list_any is_expression (slice_split is_bar written.now) }
{
    written
        .split(|byte| *byte == b'|')
        .any(|text| is_expression(text))
}

/// Whether a text is written as a regular expression or with braces: it has a `{`, after it a `,`, and after that a `}`.
fn is_expression(text: &[u8]) -> bool
    ensures { result ≡ is_expression text.now }
{
    begins_with(b'^', text)
        || text.starts_with(b".*")
        || ends_in(b'$', text)
        || has_one(&EXPRESSION_SIGNS, text)
        || has_byte(b'}', rest_after_first(b',', rest_after_first(b'{', text)))
}

/// Whether W12 is reported for a part: a match of the event that holds for any text.
pub(crate) fn always_holds(part: &Part) -> bool
    ensures { result ≡ always_holds part.now }
{
    match part {
        Part::Plain(asked) => {
            is_always_there(&asked.key)
                && is_equal(asked.wanted.operator)
                && some_take_all(asked.wanted.choice.parts())
        }
        _ => false,
    }
}

/// Whether what a match of the event looks at is there for each event.
fn is_always_there(key: &PlainKey) -> bool
    ensures { result ≡ is_always_there key.now }
{
    matches!(
        key,
        PlainKey::Action
            | PlainKey::Devpath
            | PlainKey::Kernel
            | PlainKey::Subsystem
            | PlainKey::Driver
            | PlainKey::Env(_)
    )
}

/// Whether one of the patterns takes any text.
fn some_take_all(patterns: &[Pattern]) -> bool
    ensures { result ≡ list_any take_all patterns.now }
{
    patterns.iter().any(|pattern| take_all(pattern.items()))
}

/// Whether items take any text.
fn take_all(items: &[Item]) -> bool
    ensures { result ≡ take_all items.now }
{
    !items.is_empty() && all_many(items)
}

/// Whether each item takes any bytes.
fn all_many(items: &[Item]) -> bool
    ensures { result ≡ list_all is_many items.now }
{
    items.iter().all(|item| is_many(item))
}

/// Whether W14 is reported for a part: it has the value `?*` where udev does not take that as a pattern. By the manual
/// it is one everywhere.
pub(crate) fn is_no_pattern(profile: Profile, part: &Part) -> bool
    ensures { result ≡ is_no_pattern profile part.now }
{
    match profile {
        Profile::Manual => false,
        Profile::Udev => value_taken(part).is_some_and(|value| value == b"?*".as_slice()),
    }
}

/// The value that udev does not take as a pattern, if it is `?*`: after a key of several texts or none it always holds, and
/// after TEST and IMPORT{parent} it reverses the operator.
fn value_taken(part: &Part) -> Option<&[u8]>
    ensures { option_map (λ value. value.now) result ≡ value_taken part.now }
{
    match part {
        Part::Plain(asked) => matches!(asked.key, PlainKey::Symlink | PlainKey::Tag).then_some(
            asked.wanted.written.as_slice(),
        ),
        Part::Up(asked) => {
            matches!(asked.key, UpKey::Tags).then_some(asked.wanted.written.as_slice())
        }
        Part::Act(act) => value_of_act(&act.kind),
        _ => None,
    }
}

/// The value of what acts that a pattern, or a file, may be meant by.
fn value_of_act(act_kind: &ActKind) -> Option<&[u8]>
    ensures { option_map (λ value. value.now) result ≡ value_of_act act_kind.now }
{
    match act_kind {
        ActKind::Test(_, template) => Some(template.written()),
        ActKind::Import(Import::Parent(_, value)) => Some(value.as_slice()),
        _ => None,
    }
}
