//! The place that is nearest to the line that a text asks for.
ghost use Rattle.std.specs.Prelude.{◌≡◌, Some, option_map};
ghost use Rattle.engine_courses.specs.Inner.{nearer};
ghost use Rattle.engine_courses.specs.Nearest.{candidate_of, is_nearer, line_number, nearest};

use crate::named::alike;
use crate::places::Place;
use std::marker::Model;
use text_bytes::{decimal_below, following, is_decimal};

/// A place, and how far it is from the line that a text asks for.
#[derive(Drop)]
struct Candidate<'a> {
    distance: u32,
    place: &'a Place<'a>,
}

impl<'a> Model for Candidate<'a> {
    ghost use Rattle.engine_courses.specs.Nearest as nearest;

    ghost Value = { nearest.Candidate };

    ghost view = { λ c. (c.distance, c.place.now) };
}

/// The number of a line that decimal digits write.
fn line_number(digits: &[u8]) -> Option<u32>
    ensures { result ≡ line_number digits.now }
{
    if !is_decimal(digits) {
        return None;
    }
    match decimal_below(1 << 32, digits) {
        Some(number) => Some(number as u32),
        None => Some(u32::MAX),
    }
}

/// A place with how far it is from the line of its file that a text asks for.
fn candidate_of<'a>(text: &[u8], place: &'a Place<'a>) -> Option<Candidate<'a>>
    ensures { result ≡ candidate_of text.now place.now }
{
    let both = alike(text, place.file);
    let line = line_number(following(b":", following(both.file, both.text)?)?)?;
    Some(Candidate {
        distance: line.abs_diff(place.line),
        place,
    })
}

/// Whether one place is nearer than another.
fn is_nearer(a: &Candidate<'_>, b: &Candidate<'_>) -> bool
    ensures { result ≡ is_nearer a.now b.now }
{
    let (place, other) = (a.place, b.place);
    a.distance < b.distance || (a.distance == b.distance && place.line < other.line)
}

/// The nearer of the nearest so far and one more; the nearest so far if that one is not nearer.
fn nearer<'a>(best: Option<Candidate<'a>>, found: Candidate<'a>) -> Candidate<'a>
    ensures { Some result ≡ nearer best.entry found.entry }
{
    match best {
        Some(best) if !is_nearer(&found, &best) => best,
        _ => found,
    }
}

/// Of the places in the file of a text `FILE:N`, the one nearest to that line.
pub(crate) fn nearest<'a>(text: &[u8], places: &'a [Place<'a>]) -> Option<&'a Place<'a>>
    ensures { option_map (λ place. place.now) result ≡ nearest text.now places.now }
{
    let mut best = None;
    for place in places {
        if let Some(found) = candidate_of(text, place) {
            best = Some(nearer(best, found));
        }
    }
    match best {
        Some(found) => Some(found.place),
        None => None,
    }
}
