//! The file that a text of `--why` may mean, if it names none of those that were read.
ghost use Rattle.std.specs.Prelude.{◌≡◌, IfOk, option_map};
ghost use Rattle.engine_courses.specs.Meant.{meant_file, place_called, place_near};

use crate::named::file_in;
use crate::places::Place;
use engine_formats::nearest;
use std::alloc::{AllocError, Global};
use text_bytes::last_component;

/// The most bytes that the name of a file has.
const MOST_NAME: usize = 255;

/// The first place of a file with this name, in whatever folder it is.
fn place_called<'a>(places: &'a [Place<'a>], name: &[u8]) -> Option<&'a Place<'a>>
    ensures { option_map (λ place. place.now) result ≡ place_called places.now name.now }
{
    for place in places {
        if last_component(place.file) == name {
            return Some(place);
        }
    }
    None
}

/// The first place of the file whose name is nearest to a name, if one is near it.
fn place_near<'a>(
    alloc: Global,
    places: &'a [Place<'a>],
    name: &[u8],
) -> Result<Option<&'a Place<'a>>, AllocError>
    ensures { IfOk result (λ found. option_map (λ place. place.now) found ≡ place_near places.now name.now) }
{
    let mut names = Vec::new(alloc);
    for place in places {
        names.push(last_component(place.file))?;
    }
    match nearest(alloc, &names, name)? {
        Some(near) => Ok(place_called(places, near)),
        None => Ok(None),
    }
}

/// The first place of the file that a text may mean.
#[tactic(auto, unfolding(crate::specs::Meant::meant_file))]
pub(crate) fn meant_file<'a>(
    alloc: Global,
    text: &[u8],
    places: &'a [Place<'a>],
) -> Result<Option<&'a Place<'a>>, AllocError>
    ensures { IfOk result (λ found. option_map (λ place. place.now) found ≡ meant_file text.now places.now) }
{
    let name = last_component(file_in(text));
    if MOST_NAME < name.len() {
        return Ok(None);
    }
    match place_called(places, name) {
        Some(place) => Ok(Some(place)),
        None => place_near(alloc, places, name),
    }
}
