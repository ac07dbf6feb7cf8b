//! A database as a trie.
//!
//! The entries stay as they were given. The nodes know their values as a range of the numbers of the
//! entries, sorted by pattern, so that nothing of an entry is held twice.
ghost use Rattle.std.specs.Prelude.{◌≡◌, ◌*◌, ◌+◌, ◌<◌, ◌≤◌, IfOk, MatchResult, length};
ghost use Rattle.trie_nodes.specs.Bounds.{max_entries, max_nodes};
ghost use Rattle.trie_nodes.specs.Orders.{Rising};
ghost use Rattle.trie_nodes.specs.Tree.{active_after, count};
ghost use Rattle.trie_build.specs.Content.{IsTrie, all_values, shown};
ghost use Rattle.trie_build.specs.Held.{IsHeld};
ghost use Rattle.trie_build.specs.declared.fault.TrieFault.TheVariants.{TooLarge};
ghost use Rattle.trie_build.specs.Paths.{paths_of};
ghost use Rattle.trie_build.specs.Sizes.{KeepsBounds, names_of, sets_of};

use crate::build::nodes_of;
use crate::fault::TrieFault;
use crate::rows::{Sorted, numbers_of, shared_prefixes, sorted_rows};
use crate::size::{index_fits, names_of, sets_of};
use std::alloc::{AllocError, Global};
use std::marker::Model;
use std::ops::Range;
use text_core::Item;
use trie_nodes::{Database, Entry, Found, Lookup, MAX_ENTRIES, Node, Nodes, Sourced};

/// A database whose patterns are a trie: the cost of a query is that of the nodes that the modalias reaches.
#[derive(Drop)]
pub struct Trie {
    // The entries are the last field, as fields are dropped in order: a large piece of memory that is returned
    // after very many small ones makes the C library look at each of these again.
    numbers: Vec<u32>,
    nodes: Vec<Node>,
    entries: Vec<Entry>,
}

impl Model for Trie {
    ghost use Rattle.std.specs.Prelude.{◌≤◌, length};
    ghost use Rattle.trie_nodes.specs.Bounds.{max_entries, max_nodes};
    ghost use Rattle.trie_build.specs.Content.{Content};
    ghost use Rattle.trie_build.specs.Held.{IsHeld};
    ghost use Rattle.trie_build.specs.Sizes.{KeepsBounds};

    ghost Value = { Content };

    ghost view = { λ t. record { entries = t.entries.items; numbers = t.numbers.items; nodes = t.nodes.items } };

    ghost invariant = { λ t. IsHeld (record { entries = t.entries.items; numbers = t.numbers.items; nodes = t.nodes.items })
        × (length t.nodes.items ≤ max_nodes) × (length t.numbers.items ≤ max_entries) × KeepsBounds t.entries.items };
}

/// What is made from entries for their trie.
#[derive(Drop)]
struct Made {
    numbers: Vec<u32>,
    nodes: Vec<Node>,
}

/// The nodes for some entries, and the entries' numbers, sorted by pattern.
fn made_from(alloc: Global, entries: &[Entry]) -> Result<Made, TrieFault>
    requires rising { Rising entries.now }
    requires few { length entries.now ≤ max_entries }
    ensures trie { IfOk result (λ made. IsHeld (record { entries = entries.now; numbers = made.numbers.items; nodes = made.nodes.items })) }
    ensures fits { MatchResult result (λ _. length (paths_of entries.now) ≤ max_nodes) (λ fault. fault ≡ TooLarge → max_nodes < length (paths_of entries.now)) }
{
    let rows = sorted_rows(alloc, entries)?;
    let shared = shared_prefixes(alloc, &rows)?;
    let sorted = Sorted {
        rows: &rows,
        shared: &shared,
    };
    let nodes = nodes_of(alloc, sorted)?;
    let numbers = numbers_of(alloc, &rows)?;
    Ok(Made { numbers, nodes })
}

/// What is made from some entries, unless it is too large.
fn small_made_from(alloc: Global, entries: &[Entry]) -> Result<Made, TrieFault>
    requires rising { Rising entries.now }
    requires few { length entries.now ≤ max_entries }
    ensures trie { IfOk result (λ made. IsHeld (record { entries = entries.now; numbers = made.numbers.items; nodes = made.nodes.items })) }
    ensures fits { MatchResult result (λ _. KeepsBounds entries.now) (λ fault. fault ≡ TooLarge → KeepsBounds entries.now → ⊥) }
{
    let made = made_from(alloc, entries)?;
    if !index_fits(alloc, entries, &made.nodes)? {
        return Err(TrieFault::TooLarge);
    }
    Ok(made)
}

impl Trie {
    /// The trie of entries whose orders strictly rise and whose keys are not empty, which
    /// [`rising`](trie_nodes::rising) checks.
    ///
    /// `TooLarge` means that it would have more than 2^26 nodes, that there are more than 2^24 entries, or that its
    /// index file would have more than 2^32 - 1 bytes; `Memory` means that an allocation failed. The entries are
    /// then dropped.
    pub fn build(alloc: Global, entries: Vec<Entry>) -> Result<Trie, TrieFault>
        requires { Rising entries.items }
        ensures entries { IfOk result (λ t. t.entries ≡ entries.items) }
        ensures trie { IfOk result (λ t. IsTrie t) }
        ensures fits { MatchResult result (λ _. KeepsBounds entries.items) (λ fault. fault ≡ TooLarge → KeepsBounds entries.items → ⊥) }
    {
        if entries.len() > MAX_ENTRIES {
            return Err(TrieFault::TooLarge);
        }
        let Made { numbers, nodes } = small_made_from(alloc, &entries)?;
        Ok(Trie {
            entries,
            numbers,
            nodes,
        })
    }

    /// What holds for every trie. It is called only for the proofs, which learn it from the look at a field.
    fn known(&self)
        ensures trie { IsTrie self.now }
        ensures held { IsHeld self.now }
    {
        let _ = &self.nodes;
    }

    /// Returns the entries, in order.
    pub fn entries(&self) -> &[Entry]
        ensures value { result.now ≡ self.now.entries }
        ensures trie { IsTrie self.now }
        ensures held { IsHeld self.now }
        ensures bounds { KeepsBounds self.now.entries }
    {
        self.known();
        &self.entries
    }

    /// Returns the numbers of the entries that the values of the nodes are, in the order of the values.
    pub fn numbers(&self) -> &[u32]
        ensures { result.now ≡ self.now.numbers }
    {
        &self.numbers
    }

    /// Returns the nodes, by number.
    pub fn nodes(&self) -> &[Node]
        ensures { result.now ≡ self.now.nodes }
    {
        &self.nodes
    }

    /// The bytes of the sets in its patterns, each set once, sorted. Fails only if there is no memory for the list.
    pub fn sets(&self, alloc: Global) -> Result<Vec<&[u8]>, AllocError>
        ensures { IfOk result (λ sets. shown sets.items ≡ sets_of self.now.entries) }
    {
        let sets = sets_of(alloc, &self.nodes)?;
        Ok(sets)
    }

    /// The names of the files that its entries come from, each once, sorted. Fails only if there is no memory for
    /// the list.
    pub fn names(&self, alloc: Global) -> Result<Vec<&[u8]>, AllocError>
        ensures { IfOk result (λ names. shown names.items ≡ names_of self.now.entries) }
    {
        names_of(alloc, &self.entries)
    }

    /// The nodes that are active at the end of a modalias, rising, and how many are active after each length of it
    /// from 0 on, summed. Fails only if there is no memory for the lists.
    pub fn visits(&self, alloc: Global, modalias: &[u8]) -> Result<(Vec<u32>, u128), AllocError>
        ensures trie { IsTrie self.now }
        ensures nodes { IfOk result (λ r. r.0.items ≡ active_after self.now.nodes modalias.now) }
        ensures count { IfOk result (λ r. r.1 ≡ count self.now.nodes modalias.now) }
        ensures bound { IfOk result (λ r. r.1 ≤ length (paths_of self.now.entries) * (length modalias.now + 1)) }
    {
        self.known();
        trie_nodes::visits(alloc, self, modalias)
    }
}

impl Nodes for Trie {
    ghost nodes = { λ t. t.nodes };

    fn len(&self) -> u32 {
        self.nodes.len() as u32
    }

    fn root(&self) -> u32 {
        self.known();
        0
    }

    fn children(&self, i: u32) -> Range<u32> {
        let node = &self.nodes[i as usize];
        node.first..node.first + node.count
    }

    fn is_star(&self, i: u32) -> bool {
        match self.nodes[i as usize].label {
            Item::Many => true,
            _ => false,
        }
    }

    fn takes(&self, i: u32, byte: u8) -> bool {
        self.nodes[i as usize].label.takes(byte)
    }
}

impl Database for Trie {
    ghost values = { λ t. all_values t };

    fn values_of(&self, i: u32) -> Range<u32> {
        let node = &self.nodes[i as usize];
        node.first_value..node.first_value + node.values
    }

    fn value(&self, j: u32) -> Found<'_> {
        let entry = &self.entries[self.numbers[j as usize] as usize];
        Found::of(entry)
    }
}

impl Lookup for Trie {
    ghost entries = { λ t. t.entries };

    fn query(&self, alloc: Global, modalias: &[u8]) -> Result<Vec<(&[u8], &[u8])>, AllocError> {
        self.known();
        trie_nodes::query(alloc, self, modalias)
    }

    fn query_sources(
        &self,
        alloc: Global,
        modalias: &[u8],
    ) -> Result<Vec<Sourced<'_>>, AllocError> {
        self.known();
        trie_nodes::query_sources(alloc, self, modalias)
    }
}
