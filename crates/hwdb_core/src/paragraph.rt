//! The parts of a paragraph, and what a property says.

ghost use Rattle.std.specs.Prelude.{◌≡◌, ◌≤◌, MatchResult, length};
ghost use Rattle.std.specs.List.{prefix_len};
ghost use Rattle.hwdb_core.specs.Paragraphs.{cut, is_match, is_property};
ghost use Rattle.hwdb_core.specs.Properties.{pair_of};

use crate::lines::{is_property, property_text};
use file_messages::MessageKind;
use text_bytes::{Line, find};

/// A key and its value, both of a line.
#[derive(Drop)]
pub(crate) struct Pair<'a> {
    pub key: &'a [u8],
    pub value: &'a [u8],
}

/// What a property says, or what is wrong with it.
pub(crate) fn pair_of<'a>(line: &Line<'a>) -> Result<Pair<'a>, MessageKind>
    ensures { MatchResult result (λ p. pair_of line.now ≡ Ok (record { key = p.key.now; value = p.value.now })) (λ kind. pair_of line.now ≡ Err kind) }
{
    let text = property_text(line);
    match find(b'=', text) {
        None => Err(MessageKind::NoEquals),
        Some(0) => Err(MessageKind::EmptyKey),
        Some(at) => Ok(Pair {
            key: &text[..at],
            value: &text[at + 1..],
        }),
    }
}

/// How many lines at the front are properties.
pub(crate) fn property_run(lines: &[Line<'_>]) -> usize
    ensures value { result ≡ prefix_len is_property lines.now }
    ensures within { result ≤ length lines.now }
{
    lines.iter().take_while(|line| is_property(line)).count()
}

/// How many lines at the front are matches.
pub(crate) fn match_run(lines: &[Line<'_>]) -> usize
    ensures value { result ≡ prefix_len is_match lines.now }
    ensures within { result ≤ length lines.now }
{
    lines.iter().take_while(|line| !is_property(line)).count()
}

/// The four parts of a paragraph, in order.
#[derive(Drop)]
pub(crate) struct Parts<'l, 'a> {
    pub early: &'l [Line<'a>],
    pub matches: &'l [Line<'a>],
    pub properties: &'l [Line<'a>],
    pub rest: &'l [Line<'a>],
}

/// Cuts a paragraph.
pub(crate) fn parts_of<'l, 'a>(lines: &'l [Line<'a>]) -> Parts<'l, 'a>
    ensures { record { early = result.early.now; matches = result.matches.now; properties = result.properties.now; rest = result.rest.now } ≡ cut lines.now }
{
    let (early, following) = lines.split_at(property_run(lines));
    let (matches, following) = following.split_at(match_run(following));
    let (properties, rest) = following.split_at(property_run(following));
    Parts {
        early,
        matches,
        properties,
        rest,
    }
}
