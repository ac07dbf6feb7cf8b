//! The places of rules and messages.
ghost use Rattle.std.specs.Prelude.{◌≡◌, ◌++◌, IfOk, OnOk, map};
ghost use Rattle.engine_courses.specs.Asked.{places_of};

use file_messages::Message;
use rule_types::Rule;
use std::alloc::{AllocError, Global};
use std::marker::Model;

/// A line of a file.
#[derive(Drop)]
pub(crate) struct Place<'a> {
    /// The name of the file.
    pub(crate) file: &'a [u8],
    /// The number of the line.
    pub(crate) line: u32,
}

impl<'a> Model for Place<'a> {
    ghost use Rattle.engine_courses.specs.Nearest as nearest;

    ghost Value = { nearest.Place };

    ghost view = { λ p. (p.file.now, p.line) };
}

/// Adds the places of messages.
fn push_messages<'a>(places: &mut Vec<Place<'a>>, messages: &'a [Message]) -> Result<(), AllocError>
    ensures { OnOk result (places.new.items ≡ places.old.items ++ map (λ m. (m.file, m.line)) messages.now) }
{
    for message in messages {
        places.push(Place {
            file: message.file.as_slice(),
            line: message.line,
        })?;
    }
    Ok(())
}

/// The places of rules and of messages.
pub(crate) fn places_of<'a>(
    alloc: Global,
    messages: &'a [Message],
    rules: &'a [Rule],
) -> Result<Vec<Place<'a>>, AllocError>
    ensures { IfOk result (λ places. places.items ≡ places_of messages.now rules.now) }
{
    let mut places = Vec::new(alloc);
    for rule in rules {
        places.push(Place {
            file: rule.file(),
            line: rule.line,
        })?;
    }
    push_messages(&mut places, messages)?;
    Ok(places)
}
