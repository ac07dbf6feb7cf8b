//! The trie of entries that are not too large.
ghost use Rattle.std.specs.Prelude.{◌≡◌, IfOk};
ghost use Rattle.trie_nodes.specs.Orders.{Rising};
ghost use Rattle.trie_build.specs.Sizes.{KeepsBounds};

use crate::fault::TrieFault;
use crate::trie::Trie;
use std::alloc::{AllocError, Global};
use trie_nodes::Entry;

/// The trie of entries that are not too large, as entries read from files are.
///
/// Fails only if there is no memory for it; the entries are dropped then.
pub fn trie_of(alloc: Global, entries: Vec<Entry>) -> Result<Trie, AllocError>
    requires rising { Rising entries.items }
    requires bounds { KeepsBounds entries.items }
    ensures { IfOk result (λ t. t.entries ≡ entries.items) }
{
    match Trie::build(alloc, entries) {
        Ok(trie) => Ok(trie),
        Err(TrieFault::Memory) => Err(AllocError),
        Err(TrieFault::TooLarge) => unreachable!(),
    }
}
