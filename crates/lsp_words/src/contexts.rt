//! Where in a row of a rules file a place is, by the bytes before it.
ghost use Rattle.std.specs.Prelude.{◌≡◌, ◌≤◌, ◌<◌, ◌+◌, length, slice_index, drop, take};
ghost use Rattle.lsp_words.specs.Contexts.{braces_after, key_after, name_after, next_move, operator_after, prefix_after, step, turned};
ghost use Rattle.lsp_words.specs.Contexts.{bounds_for, context_of, ended, seen};

use crate::classes::{Class, class_of};
use crate::moves::{
    Bounds, Move, Place, Turn, go, in_braces, in_escape, in_indent, in_inner, in_later, in_name,
    in_value, outside,
};
use crate::values::{is_split, substitutes};
use text_bytes::begins_with;

/// How far a row is read: where its end is, and what stands before that. The word that is begun there begins at `start`.
#[derive(Clone, Copy)]
pub(crate) struct Scan<'r> {
    pub(crate) place: Place,
    /// The key of the token.
    pub(crate) key: &'r [u8],
    /// What is in the key's braces.
    pub(crate) braces: &'r [u8],
    pub(crate) operator: &'r [u8],
    /// The letters before the value's quote.
    pub(crate) prefix: &'r [u8],
    /// The substitution in whose braces the end is.
    pub(crate) name: &'r [u8],
    pub(crate) start: usize,
}

/// What decides where the value of a token goes on to.
#[tactic(auto, unfolding(crate::specs::Contexts::bounds_for))]
fn bounds_for(key: &[u8], braces: &[u8], operator: &[u8], prefix: &[u8]) -> Bounds
    ensures { result ≡ bounds_for key.now braces.now operator.now prefix.now }
{
    Bounds {
        substitutes: substitutes(key, braces, operator),
        splits: is_split(key),
        escapes: prefix.contains(&b'e'),
    }
}

/// Where a row goes on to at a byte.
#[tactic(auto, unfolding(crate::specs::Contexts::next_move))]
fn next_move(place: Place, bounds: Bounds, word: &[u8], byte: u8, class: Class) -> Move
    ensures { result ≡ next_move place bounds word.now byte class }
{
    match place {
        Place::Indent => in_indent(class),
        Place::Comment => go(Place::Comment, Turn::Longer),
        Place::Gap => outside(Place::Gap, go(Place::Key, Turn::Fresh), Turn::Fresh, class),
        Place::Key => outside(
            Place::Head,
            go(Place::Key, Turn::Longer),
            Turn::Fresh,
            class,
        ),
        Place::Braces => in_braces(class),
        Place::Head => outside(Place::Head, go(Place::Key, Turn::Fresh), Turn::Fresh, class),
        Place::Operator => outside(
            Place::Prefix,
            go(Place::Prefix, Turn::Fresh),
            Turn::Longer,
            class,
        ),
        Place::Prefix => outside(
            Place::Prefix,
            go(Place::Prefix, Turn::Longer),
            Turn::Fresh,
            class,
        ),
        Place::Value => in_value(bounds, word.is_empty(), class),
        Place::Later => in_later(bounds, class),
        Place::Escape => in_escape(bounds, class),
        Place::Name => in_name(
            bounds,
            word.len() == 1 && begins_with(byte, word),
            begins_with(b'$', word) || word.len() == 1,
            1 < word.len(),
            class,
        ),
        Place::Inner => in_inner(class),
    }
}

/// What is kept of a part of a token: a text, if the word before a byte ends there.
fn ended<'r>(turn: Turn, text: &'r [u8], kept: &'r [u8]) -> &'r [u8]
    ensures { result.now ≡ ended turn text.now kept.now }
{
    match turn {
        Turn::Longer => kept,
        Turn::Fresh | Turn::Empty => text,
    }
}

/// The key after a byte.
fn key_after<'r>(place: Place, turn: Turn, word: &'r [u8], key: &'r [u8]) -> &'r [u8]
    ensures { result.now ≡ key_after place turn word.now key.now }
{
    match place {
        Place::Key => ended(turn, word, key),
        _ => key,
    }
}

/// What is in the braces of the key, after a byte.
fn braces_after<'r>(place: Place, turn: Turn, word: &'r [u8], braces: &'r [u8]) -> &'r [u8]
    ensures { result.now ≡ braces_after place turn word.now braces.now }
{
    match place {
        Place::Key => ended(turn, &[], braces),
        Place::Braces => ended(turn, word, braces),
        _ => braces,
    }
}

/// The operator after a byte.
fn operator_after<'r>(place: Place, turn: Turn, word: &'r [u8], operator: &'r [u8]) -> &'r [u8]
    ensures { result.now ≡ operator_after place turn word.now operator.now }
{
    match place {
        Place::Key => ended(turn, &[], operator),
        Place::Operator => ended(turn, word, operator),
        _ => operator,
    }
}

/// The letters before the quote, after a byte.
fn prefix_after<'r>(place: Place, turn: Turn, word: &'r [u8], prefix: &'r [u8]) -> &'r [u8]
    ensures { result.now ≡ prefix_after place turn word.now prefix.now }
{
    match place {
        Place::Operator => ended(turn, &[], prefix),
        Place::Prefix => ended(turn, word, prefix),
        _ => prefix,
    }
}

/// The last substitution after a byte.
fn name_after<'r>(place: Place, turn: Turn, word: &'r [u8], name: &'r [u8]) -> &'r [u8]
    ensures { result.now ≡ name_after place turn word.now name.now }
{
    match place {
        Place::Name => ended(turn, word, name),
        _ => name,
    }
}

/// Where a word begins after a turn at a place of a row, if it began there before.
fn start_after(turn: Turn, row: &[u8], start: usize, at: usize) -> usize
    requires begun { start ≤ at }
    requires within { at < length row.now }
    ensures word { drop result (take (at + 1) row.now) ≡ turned turn (drop start (take at row.now)) (slice_index row.now at) }
    ensures begun { result ≤ at + 1 }
{
    match turn {
        Turn::Longer => start,
        Turn::Fresh => at,
        Turn::Empty => at + 1,
    }
}

impl<'r> Scan<'r> {
    /// The row read a byte further.
    #[tactic(auto, unfolding(crate::specs::Contexts::step))]
    fn step(&self, row: &'r [u8], at: usize) -> Scan<'r>
        requires begun { self.now.start ≤ at }
        requires within { at < length row.now }
        ensures step { seen (take (at + 1) row.now) result ≡ step (seen (take at row.now) self.now) (slice_index row.now at) }
        ensures begun { result.start ≤ at + 1 }
    {
        let (before, _) = row.split_at(at);
        let (_, word) = before.split_at(self.start);
        let byte = row[at];
        let bounds = bounds_for(self.key, self.braces, self.operator, self.prefix);
        let next = next_move(self.place, bounds, word, byte, class_of(byte));
        Scan {
            place: next.place,
            key: key_after(self.place, next.turn, word, self.key),
            braces: braces_after(self.place, next.turn, word, self.braces),
            operator: operator_after(self.place, next.turn, word, self.operator),
            prefix: prefix_after(self.place, next.turn, word, self.prefix),
            name: name_after(self.place, next.turn, word, self.name),
            start: start_after(next.turn, row, self.start, at),
        }
    }
}

/// The end of these bytes of a row.
pub(crate) fn scanned(row: &[u8]) -> Scan<'_>
    ensures context { seen row.now result ≡ context_of row.now }
    ensures begun { result.start ≤ length row.now }
{
    let mut scan = Scan {
        place: Place::Indent,
        key: &[],
        braces: &[],
        operator: &[],
        prefix: &[],
        name: &[],
        start: 0,
    };
    for at in 0..row.len() {
        scan = scan.step(row, at);
    }
    scan
}
