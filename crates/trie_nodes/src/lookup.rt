//! A database, by what it answers for a device.
//!
//! A trait, so that rules and the program take the entries in whatever form they come: as a list, as a trie or as
//! an index file. Each of them answers as the list of its entries does.
ghost use Rattle.std.specs.Prelude.{◌≡◌, List, map, IfOk};
ghost use Rattle.trie_nodes.specs.Query.{query, shown, sourced, shown_origin};
ghost use Rattle.trie_nodes.specs.declared.entry.Entry.{Entry};

use std::alloc::{AllocError, Global};

/// A property that applies to a device, and where it comes from.
#[derive(Clone, Copy, PartialEq, Eq)]
pub struct Sourced<'a> {
    /// The property's name.
    pub key: &'a [u8],
    /// Its value, perhaps empty.
    pub value: &'a [u8],
    /// The name of the file that has it; empty if unknown.
    pub file: &'a [u8],
    /// The number of its line there, counted from 1; 0 if unknown.
    pub line: u32,
}

/// A hardware database.
///
/// For a device it answers as hwdb(7) says: the properties of all entries whose pattern fits the
/// modalias, of several with one key that of the greatest order, and of equal orders, which only an
/// index file of another origin can have, the last listed.
pub trait Lookup {
    /// The entries that it answers from, in order.
    ghost entries: { Self → List Entry };

    /// The keys and values of the properties for a modalias, sorted by key, byte by byte.
    ///
    /// Fails only if there is no memory for the answer.
    fn query(&self, alloc: Global, modalias: &[u8]) -> Result<Vec<(&[u8], &[u8])>, AllocError>
        ensures { IfOk result (λ found. shown found.items ≡ query (entries self.now) modalias.now) };

    /// The same properties, each with the file and line of its entry.
    ///
    /// Fails only if there is no memory for the answer.
    fn query_sources(&self, alloc: Global, modalias: &[u8]) -> Result<Vec<Sourced<'_>>, AllocError>
        ensures { IfOk result (λ found. map shown_origin found.items ≡ sourced (entries self.now) modalias.now) };
}
