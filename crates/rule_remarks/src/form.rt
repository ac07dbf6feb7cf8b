//! How a token compares its value, by what the value is.
ghost use Rattle.std.specs.Prelude.{◌≡◌};
ghost use Rattle.std.specs.List.{list_any};
ghost use Rattle.text_core.specs.Fnmatch.{is_special};
ghost use Rattle.rule_remarks.specs.Forms.{any_subsystem, form_of, has_empty_part, is_act_kind, parts_form};

use rule_parts::is_something;
use rule_types::{Key, Operator};
use text_core::is_special;

/// How a token compares its value.
#[derive(Clone, Copy, PartialEq, Eq)]
pub(crate) enum Form {
    /// SUBSYSTEM with `subsystem`, `bus` or `class`, of which each means all three.
    AnySubsystem,
    /// With the empty text, or with the pattern that every text but this fits.
    Empty,
    /// With texts between bars.
    Plain,
    /// With patterns between bars.
    Pattern,
    /// With texts between bars, of which one is empty.
    PlainOrEmpty,
    /// With patterns between bars, of which one is empty.
    PatternOrEmpty,
    /// With one text, bars and signs included, or not at all, as for an assignment.
    Whole,
}

/// The form of a token of a key and an operator with a value.
#[tactic(auto, unfolding(crate::specs::Forms::form_of))]
pub(crate) fn form_of(key: Key, operator: Operator, text: &[u8]) -> Form
    ensures { result ≡ form_of key operator text.now }
{
    if !operator.compares() {
        Form::Whole
    } else if any_subsystem(key, text) {
        Form::AnySubsystem
    } else if text.is_empty() || is_something(text) {
        Form::Empty
    } else if is_act_kind(key) {
        Form::Whole
    } else {
        parts_form(text)
    }
}

/// Whether a key does something while its rule is matched.
pub(crate) fn is_act_kind(key: Key) -> bool
    ensures { result ≡ is_act_kind key }
{
    matches!(key, Key::Test | Key::Program | Key::Import)
}

/// Whether a key is SUBSYSTEM, and its value one of the words that each mean all three of them.
fn any_subsystem(key: Key, text: &[u8]) -> bool
    ensures { result ≡ any_subsystem key text.now }
{
    matches!(key, Key::Subsystem)
        && (text == b"subsystem".as_slice()
            || text == b"bus".as_slice()
            || text == b"class".as_slice())
}

/// The form of texts between bars, by whether they are patterns and whether one of them is empty.
fn parts_form(text: &[u8]) -> Form
    ensures { result ≡ parts_form (list_any is_special text.now) (has_empty_part text.now) }
{
    let are_patterns = text.iter().any(|byte| is_special(*byte));
    match (are_patterns, has_empty_part(text)) {
        (true, true) => Form::PatternOrEmpty,
        (true, false) => Form::Pattern,
        (false, true) => Form::PlainOrEmpty,
        (false, false) => Form::Plain,
    }
}

/// Whether one of the texts between bars is empty.
fn has_empty_part(text: &[u8]) -> bool
    ensures { result ≡ has_empty_part text.now }
{
    text.split(|byte| *byte == b'|').any(|part| part.is_empty())
}
