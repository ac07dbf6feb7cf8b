//! The properties that an IMPORT{program} of udev's takes from what a program printed, one for each line.
ghost use Rattle.std.specs.Prelude.{◌≡◌, ◌≤◌, ◌∷◌, [], filter_map, length, map, option_map, IfOk, OnOk};
ghost use Rattle.std.specs.List.{slice_split, suffix_len};
ghost use Rattle.text_bytes.specs.Names.{is_blank};
ghost use Rattle.eval_state.specs.Properties.{properties_set};
ghost use Rattle.eval_rendering.specs.Pieces.{ends_line};
ghost use Rattle.eval_acts.specs.Printed.{bare, before_end, line_property, property_of, printed_properties, unquoted};

use eval_commands::is_quote;
use eval_rendering::ends_line;
use eval_state::set_property;
use std::alloc::{AllocError, Global};
use text_bytes::{begins_with, ends_in, is_blank, split_once, unindented};
use text_tables::CowPairs;

/// How many spaces and tabs a text ends in.
fn trailing_blanks(text: &[u8]) -> usize
    ensures value { result ≡ suffix_len is_blank text.now }
    ensures within { result ≤ length text.now }
{
    text.iter()
        .rev()
        .take_while(|byte| is_blank(**byte))
        .count()
}

/// A text without the blanks at its start and at its end.
fn bare(text: &[u8]) -> &[u8]
    ensures { result.now ≡ bare text.now }
{
    let text = unindented(text);
    text.split_at(text.len() - trailing_blanks(text)).0
}

/// What comes before the last byte of a text, if that byte is this one.
fn before_end(byte: u8, text: &[u8]) -> Option<&[u8]>
    ensures { option_map (λ t. t.now) result ≡ before_end byte text.now }
{
    if ends_in(byte, text) {
        Some(text.split_at(text.len() - 1).0)
    } else {
        None
    }
}

/// A value without the quotes around it; `None` if it begins with a quote and does not end with the same one after
/// it.
fn unquoted(value: &[u8]) -> Option<&[u8]>
    ensures { option_map (λ t. t.now) result ≡ unquoted value.now }
{
    let Some((first, rest)) = value.split_first() else {
        return Some(value);
    };
    if is_quote(*first) {
        before_end(*first, rest)
    } else {
        Some(value)
    }
}

/// The property of a name and a value: `None` if one of them is empty, or if a quote stays open.
fn property_of<'a>(name: &'a [u8], value: &'a [u8]) -> Option<(&'a [u8], &'a [u8])>
    ensures { option_map (λ p. (p.0.now, p.1.now)) result ≡ property_of name.now value.now }
{
    if name.is_empty() || value.is_empty() {
        return None;
    }
    let value = unquoted(value)?;
    Some((name, value))
}

/// The property that a line gives: a comment gives none, and neither does a line without `=`.
#[tactic(auto, unfolding(crate::specs::Printed::line_property))]
fn line_property(line: &[u8]) -> Option<(&[u8], &[u8])>
    ensures { option_map (λ p. (p.0.now, p.1.now)) result ≡ line_property line.now }
{
    if begins_with(b'#', unindented(line)) {
        return None;
    }
    let (name, value) = split_once(b'=', line)?;
    property_of(bare(name), bare(value))
}

/// The lines of a text.
fn lines(alloc: Global, text: &[u8]) -> Result<Vec<&[u8]>, AllocError>
    ensures { IfOk result (λ lines. map (λ line. line.now) lines.items ≡ slice_split ends_line text.now) }
{
    text.split(|byte| ends_line(*byte)).collect(alloc)
}

/// Sets the property that a line gives, if it gives one.
fn set_line(alloc: Global, line: &[u8], env: &mut CowPairs<'_>) -> Result<(), AllocError>
    ensures { OnOk result (env.new ≡ properties_set env.old (filter_map line_property (line.now ∷ []))) }
{
    match line_property(line) {
        Some((name, value)) => set_property(alloc, name, value, env),
        None => Ok(()),
    }
}

/// Sets the properties that lines give, in their order.
#[tactic(auto, using(crate::proofs::Lines::set_more))]
pub(crate) fn set_lines(
    alloc: Global,
    lines: &[&[u8]],
    env: &mut CowPairs<'_>,
) -> Result<(), AllocError>
    ensures { OnOk result (env.new ≡ properties_set env.old (filter_map line_property (map (λ line. line.now) lines.now))) }
{
    for line in lines {
        set_line(alloc, line, env)?;
    }
    Ok(())
}

/// Sets the properties that a printed text gives, in the order of its lines.
#[tactic(auto, unfolding(crate::specs::Printed::printed_properties))]
pub(crate) fn set_printed(
    alloc: Global,
    text: &[u8],
    env: &mut CowPairs<'_>,
) -> Result<(), AllocError>
    ensures { OnOk result (env.new ≡ properties_set env.old (printed_properties text.now)) }
{
    let lines = lines(alloc, text)?;
    set_lines(alloc, &lines, env)
}
