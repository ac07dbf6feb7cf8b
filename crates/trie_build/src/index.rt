//! A checked index file.
ghost use Rattle.std.specs.Prelude.{◌≡◌, ◌*◌, ◌+◌, ◌≤◌, IfOk, MatchResult, length};
ghost use Rattle.trie_nodes.specs.Tree.{active_after, count};
ghost use Rattle.trie_build.specs.Accepted.{Accepted, FailsFirst};
ghost use Rattle.trie_build.specs.Contents.{contents};

use crate::checked_records::Records;
use crate::checks::check;
use crate::index_fault::IndexFault;
use std::alloc::{AllocError, Global};
use std::marker::Model;

/// A database in the bytes of an index file.
#[derive(Drop)]
pub struct Index<'a> {
    pub(crate) records: Records<'a>,
}

impl<'a> Model for Index<'a> {
    ghost use Rattle.trie_build.specs.Accepted.{Accepted};
    ghost use Rattle.trie_build.specs.Contents.{Contents, contents};

    ghost Value = { Contents };

    ghost view = { λ a. contents a.records };

    ghost invariant = { λ a. Accepted a.records };
}

impl<'a> Index<'a> {
    /// Opens an index of version 1 or 2, or returns the first check that its bytes fail. It allocates nothing, and
    /// takes time that grows with the file.
    pub fn open(bytes: &'a [u8]) -> Result<Index<'a>, IndexFault>
        ensures accepted { MatchResult result (λ _. Accepted bytes.now) (λ fault. FailsFirst bytes.now fault) }
        ensures value { IfOk result (λ index. index ≡ contents bytes.now) }
    {
        let records = check(bytes)?;
        Ok(Index { records })
    }

    /// The nodes that are active at the end of a modalias, rising, and how many are active after each length of it
    /// from 0 on, summed. Fails only if there is no memory for the lists.
    pub fn visits(&self, alloc: Global, modalias: &[u8]) -> Result<(Vec<u32>, u128), AllocError>
        ensures nodes { IfOk result (λ r. r.0.items ≡ active_after self.now.nodes modalias.now) }
        ensures count { IfOk result (λ r. r.1 ≡ count self.now.nodes modalias.now) }
        ensures bound { IfOk result (λ r. r.1 ≤ length self.now.nodes * (length modalias.now + 1)) }
    {
        trie_nodes::visits(alloc, self, modalias)
    }
}
