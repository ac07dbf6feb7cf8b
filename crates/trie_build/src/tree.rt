//! An index as the nodes of a database, and so as a database.
ghost use Rattle.trie_nodes.specs.Values.{listed};

use crate::index::Index;
use crate::kinds::{AMONG, BYTE, MANY};
use std::alloc::{AllocError, Global};
use std::ops::Range;
use trie_nodes::{Database, Found, Lookup, Nodes, Sourced};

impl<'a> Nodes for Index<'a> {
    ghost nodes = { λ index. index.nodes };

    fn len(&self) -> u32 {
        self.records.header().nodes
    }

    fn root(&self) -> u32 {
        // From the look at the field the proof learns what holds for an index.
        let _ = &self.records;
        0
    }

    fn children(&self, i: u32) -> Range<u32> {
        let node = self.records.node(i);
        node.first..node.first + node.count
    }

    fn is_star(&self, i: u32) -> bool {
        self.records.node(i).kind == MANY
    }

    fn takes(&self, i: u32, byte: u8) -> bool {
        let node = self.records.node(i);
        if node.kind == BYTE {
            node.byte == byte
        } else if node.kind == MANY {
            false
        } else if node.kind == AMONG {
            self.records.set_has(node.set, byte)
        } else {
            true
        }
    }
}

impl<'a> Database for Index<'a> {
    ghost values = { λ index. index.values };

    fn values_of(&self, i: u32) -> Range<u32> {
        let node = self.records.node(i);
        node.first_value..node.first_value + node.values
    }

    fn value(&self, j: u32) -> Found<'_> {
        let value = self.records.value(j);
        Found {
            key: self.records.text_of(value.key),
            value: self.records.text_of(value.value),
            order: value.order,
            file: self.records.text_of(value.file),
            line: value.line,
        }
    }
}

impl<'a> Lookup for Index<'a> {
    ghost entries = { λ index. listed index.nodes index.values };

    fn query(&self, alloc: Global, modalias: &[u8]) -> Result<Vec<(&[u8], &[u8])>, AllocError> {
        trie_nodes::query(alloc, self, modalias)
    }

    fn query_sources(
        &self,
        alloc: Global,
        modalias: &[u8],
    ) -> Result<Vec<Sourced<'_>>, AllocError> {
        trie_nodes::query_sources(alloc, self, modalias)
    }
}
