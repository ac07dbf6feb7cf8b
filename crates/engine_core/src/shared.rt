//! One database that several programs query.
ghost use Rattle.std.specs.Prelude.{◌≡◌};

use std::alloc::{AllocError, Global};
use std::marker::Model;
use trie_nodes::{Lookup, Sourced};

/// A borrowed database, so that more than one program can query it.
#[derive(Drop)]
pub(crate) struct Shared<'b, L: Lookup> {
    lookup: &'b L,
}

impl<'b, L: Lookup> Model for Shared<'b, L> {
    ghost Value = { L };

    ghost view = { λ s. s.lookup.now };
}

impl<'b, L: Lookup> Shared<'b, L> {
    /// The borrowed database.
    pub(crate) fn new(lookup: &'b L) -> Shared<'b, L>
        ensures { result ≡ lookup.entry.now }
    {
        Shared { lookup }
    }
}

impl<'b, L: Lookup> Lookup for Shared<'b, L> {
    ghost entries = { λ lookup. L.entries lookup };

    fn query(&self, alloc: Global, modalias: &[u8]) -> Result<Vec<(&[u8], &[u8])>, AllocError> {
        self.lookup.query(alloc, modalias)
    }

    fn query_sources(
        &self,
        alloc: Global,
        modalias: &[u8],
    ) -> Result<Vec<Sourced<'_>>, AllocError> {
        self.lookup.query_sources(alloc, modalias)
    }
}
