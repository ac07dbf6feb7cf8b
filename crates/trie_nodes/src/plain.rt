//! The database as a plain list of entries.
//!
//! A query goes through all of them, so it needs no building and no memory of its own: this is right for one query,
//! and the reference for the other forms.
ghost use Rattle.std.specs.Prelude.{◌≡◌};
ghost use Rattle.trie_nodes.specs.Orders.{Rising};

use crate::entry::Entry;
use crate::lookup::{Lookup, Sourced};
use crate::winners::winners;
use std::alloc::{AllocError, Global};
use std::marker::Model;

/// A database that holds its entries as they are listed.
#[derive(Drop)]
pub struct PlainDb {
    listed: Vec<Entry>,
}

impl Model for PlainDb {
    ghost use Rattle.std.specs.Prelude.{List};
    ghost use Rattle.trie_nodes.specs.declared.entry.Entry.{Entry};

    ghost Value = { List Entry };

    ghost view = { λ d. d.listed.items };
}

impl PlainDb {
    /// The database of these entries, without a copy and without allocating. Their orders have to rise strictly,
    /// and no key may be empty: that is so for entries read from files, and [`rising`](crate::rising) checks it for
    /// others.
    pub fn new(listed: Vec<Entry>) -> PlainDb
        requires { Rising listed.items }
        ensures { result ≡ listed.items }
    {
        PlainDb { listed }
    }

    /// Returns the entries, in order, without allocating.
    pub fn into_entries(self) -> Vec<Entry>
        ensures { result.items ≡ self }
    {
        let PlainDb { listed } = self;
        listed
    }
}

impl Lookup for PlainDb {
    ghost entries = { λ d. d };

    fn query(&self, alloc: Global, modalias: &[u8]) -> Result<Vec<(&[u8], &[u8])>, AllocError> {
        let won = winners(alloc, &self.listed, modalias)?;
        let mut found = Vec::with_capacity(alloc, won.len())?;
        for winner in &won {
            found.push((winner.key, winner.value))?;
        }
        Ok(found)
    }

    fn query_sources(
        &self,
        alloc: Global,
        modalias: &[u8],
    ) -> Result<Vec<Sourced<'_>>, AllocError> {
        let won = winners(alloc, &self.listed, modalias)?;
        let mut found = Vec::with_capacity(alloc, won.len())?;
        for winner in &won {
            found.push(Sourced {
                key: winner.key,
                value: winner.value,
                file: winner.file,
                line: winner.line,
            })?;
        }
        Ok(found)
    }
}
