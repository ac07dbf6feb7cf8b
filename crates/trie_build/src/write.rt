//! Writing an index from a trie.
//!
//! The parts are written one after another into one text, whose length is known beforehand: apart from it only the
//! numbers of the entries, in the order of the values, and the places where the names of the files begin are held.
ghost use Rattle.std.specs.Prelude.{◌≡◌, IfOk};
ghost use Rattle.trie_nodes.specs.Bounds.{second_version};
ghost use Rattle.trie_build.specs.Numbers.{IsSmall};
ghost use Rattle.trie_build.specs.Image.{image};

use crate::file_order::by_nodes;
use crate::header::{Header, VERSION};
use crate::nodes::push_nodes;
use crate::texts::push_all;
use crate::trie::Trie;
use crate::values::{places_of, push_texts, push_values, texts_len};
use std::alloc::{AllocError, Global};

/// The header of an index with so many nodes, values, sets and bytes of text.
fn header_of(nodes: usize, values: usize, sets: usize, text: u32) -> Header
    requires nodes { IsSmall nodes }
    requires values { IsSmall values }
    requires sets { IsSmall sets }
    ensures { result ≡ record { version = second_version; nodes = nodes; values = values; sets = sets; text = text; reserved = 0 } }
{
    Header {
        version: VERSION,
        nodes: nodes as u32,
        values: values as u32,
        sets: sets as u32,
        text,
        reserved: 0,
    }
}

/// The index file of a trie, in version 2. Fails only if there is no memory for it.
pub fn write_index(alloc: Global, trie: &Trie) -> Result<Vec<u8>, AllocError>
    ensures { IfOk result (λ out. out.items ≡ image trie.now.entries) }
{
    let entries = trie.entries();
    let nodes = trie.nodes();
    let all_sets = trie.sets(alloc)?;
    let sets = all_sets.as_slice();
    let all_names = trie.names(alloc)?;
    let names = all_names.as_slice();
    let numbers = by_nodes(alloc, nodes, trie.numbers())?;
    let order = numbers.as_slice();
    let name_places = places_of(alloc, texts_len(entries, order), names)?;
    let places = name_places.as_slice();
    let header = header_of(nodes.len(), order.len(), sets.len(), places[names.len()]);
    let mut out = Vec::with_capacity(alloc, header.places().end)?;
    header.write(&mut out)?;
    push_nodes(&mut out, nodes, sets)?;
    push_values(&mut out, entries, order, names, places)?;
    push_all(&mut out, sets)?;
    push_texts(&mut out, entries, order)?;
    push_all(&mut out, names)?;
    Ok(out)
}
