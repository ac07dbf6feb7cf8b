//! The entries that count for a device.
//!
//! One pass over all entries gathers those that fit; of these, those that count are kept.
ghost use Rattle.std.specs.Prelude.{◌≡◌, [], IfOk, fold, map};
ghost use Rattle.trie_nodes.specs.Found.{found_entries, stripped};
ghost use Rattle.trie_nodes.specs.Query.{fitting, put};

use crate::entry::Entry;
use crate::found::{Found, settle};
use std::alloc::{AllocError, Global};

/// The properties of the entries that fit, for each key the one that counts, sorted by key.
pub(crate) fn winners<'a>(
    alloc: Global,
    entries: &'a [Entry],
    modalias: &[u8],
) -> Result<Vec<Found<'a>>, AllocError>
    ensures { IfOk result (λ won. found_entries won.items ≡ fold put [] (map stripped (fitting entries.now modalias.now))) }
{
    let mut found = Vec::new(alloc);
    for entry in entries {
        if entry.pattern.fits(modalias) {
            found.push(Found::of(entry))?;
        }
    }
    settle(alloc, found)
}
