//! Properties found for a device, and which of them count.
//!
//! They are gathered in the order in which they are listed, then sorted stably by key, so that one pass more leaves
//! for each key the one that counts.
ghost use Rattle.std.specs.Prelude.{◌≡◌, [], IfOk, OnOk, fold};
ghost use Rattle.trie_nodes.specs.Found.{found_entries, found_entry, stripped};
ghost use Rattle.trie_nodes.specs.Places.{NoneAfter};
ghost use Rattle.trie_nodes.specs.Query.{put};
ghost use Rattle.trie_nodes.specs.Winning.{KeysRise};

use crate::entry::Entry;
use std::alloc::{AllocError, Global};

/// A property, with the order of its entry, and where it comes from.
#[derive(Clone, Copy)]
pub struct Found<'a> {
    /// Its name.
    pub key: &'a [u8],
    /// Its value.
    pub value: &'a [u8],
    /// Of two with one key the greater counts.
    pub order: u32,
    /// The name of its file; empty if unknown.
    pub file: &'a [u8],
    /// The number of its line there; 0 if unknown.
    pub line: u32,
}

impl<'a> Found<'a> {
    /// The property that an entry gives.
    pub fn of(entry: &'a Entry) -> Found<'a>
        ensures { found_entry result ≡ stripped entry.now }
    {
        Found {
            key: entry.key.as_slice(),
            value: entry.value.as_slice(),
            order: entry.order,
            file: entry.file.as_slice(),
            line: entry.line,
        }
    }
}

/// Of the properties that were found, in the order in which they are listed, keeps those that count, sorted by key:
/// of several with one key that of the greatest order, and of equal orders the one listed last.
///
/// Fails only if there is no memory for the answer.
pub(crate) fn settle<'a>(
    alloc: Global,
    mut found: Vec<Found<'a>>,
) -> Result<Vec<Found<'a>>, AllocError>
    ensures { IfOk result (λ won. found_entries won.items ≡ fold put [] (found_entries found.entry.items)) }
{
    found.sort_by(|property, other| property.key.cmp(other.key))?;
    let mut won = Vec::new(alloc);
    for property in &found {
        put_last(&mut won, *property)?;
    }
    Ok(won)
}

/// Adds a property to those that count, none of whose keys comes after its own: it replaces the last one if that
/// has its key, unless that is of a greater order.
fn put_last<'a>(won: &mut Vec<Found<'a>>, found: Found<'a>) -> Result<(), AllocError>
    requires rise { KeysRise (found_entries won.old.items) }
    requires last { NoneAfter (found_entries won.old.items) found.key.now }
    ensures { OnOk result (found_entries won.new.items ≡ put (found_entries won.old.items) (found_entry found.entry)) }
{
    match won.last() {
        Some(last) if last.key == found.key => {
            if last.order <= found.order {
                let place = won.len() - 1;
                won[place] = found;
            }
        }
        _ => won.push(found)?,
    }
    Ok(())
}
