//! The records of a file whose header is right, by number.
//!
//! Where the parts are is computed once, so that a record is found by one product and one sum.
ghost use Rattle.std.specs.Prelude.{◌≡◌, ◌<◌, ◌↔◌, IsTrue, MatchResult};
ghost use Rattle.trie_build.specs.Header.{header_of};
ghost use Rattle.trie_build.specs.Records.{node, set, text_of, value};
ghost use Rattle.text_core.specs.Items.{set_has};
ghost use Rattle.trie_build.specs.Accepted.{FailsFirst, HasSize, IsWithin};
ghost use Rattle.trie_build.specs.Framed.{IsFramed};

use crate::header::{HEADER_LEN, Header, MAGIC, NODE_LEN, Places, SET_LEN, VERSION};
use crate::index_fault::IndexFault;
use crate::records::{NodeRecord, Span, ValueRecord};
use std::marker::Model;
use trie_nodes::{MAX_ENTRIES, MAX_NODES};

/// The records of a file whose header is right, and whose length is as the header says.
#[derive(Drop)]
pub struct Records<'a> {
    bytes: &'a [u8],
    header: Header,
    places: Places,
}

impl<'a> Model for Records<'a> {
    ghost use Rattle.std.specs.Prelude.{List, ℕ};
    ghost use Rattle.trie_build.specs.Framed.{AreRecords, recorded};

    ghost Value = { List ℕ };

    ghost view = { recorded };

    ghost invariant = { AreRecords };
}

/// Whether the counts of a header keep their bounds, and a file has the length that follows from them.
fn has_size(header: &Header, bytes: &[u8]) -> bool
    requires { header.now ≡ header_of bytes.now }
    ensures { IsTrue result ↔ HasSize bytes.now }
{
    header.nodes > 0
        && header.nodes as usize <= MAX_NODES
        && header.values as usize <= MAX_ENTRIES
        && header.sets as usize <= MAX_NODES
        && header.reserved == 0
        && bytes.len() == header.places().end
}

impl<'a> Records<'a> {
    /// The records of a file, or the first of the checks of its header that it fails.
    pub(crate) fn of(bytes: &'a [u8]) -> Result<Records<'a>, IndexFault>
        ensures { MatchResult result (λ records. (records ≡ bytes.now) × IsFramed bytes.now) (λ fault. FailsFirst bytes.now fault) }
    {
        if bytes.len() < HEADER_LEN {
            return Err(IndexFault::Short);
        }
        if !bytes.starts_with(MAGIC) {
            return Err(IndexFault::Magic);
        }
        let header = Header::read(bytes);
        if header.version != 1 && header.version != VERSION {
            return Err(IndexFault::Version);
        }
        if !has_size(&header, bytes) {
            return Err(IndexFault::Size);
        }
        Ok(Records {
            bytes,
            header,
            places: header.places(),
        })
    }

    /// What the header says: how many records there are of each kind, and how much text.
    pub fn header(&self) -> Header
        ensures value { result ≡ header_of self.now }
        ensures size { HasSize self.now }
    {
        self.header
    }

    /// A node.
    #[tactic(auto, unfolding(crate::specs::Records::node))]
    pub fn node(&self, i: u32) -> NodeRecord
        requires { i < (header_of self.now).nodes }
        ensures { result ≡ node self.now i }
    {
        NodeRecord::read(self.bytes, HEADER_LEN + NODE_LEN * i as usize)
    }

    /// A value.
    #[tactic(auto, unfolding(crate::specs::Records::value))]
    pub fn value(&self, j: u32) -> ValueRecord
        requires { j < (header_of self.now).values }
        ensures { result ≡ value self.now j }
    {
        let start = self.places.values + self.header.values_len(j);
        ValueRecord::read(self.header.version, self.bytes, start)
    }

    /// A part of the text.
    pub fn text_of(&self, span: Span) -> &'a [u8]
        requires { IsWithin (header_of self.now).text span }
        ensures { result.now ≡ text_of self.now span }
    {
        let start = self.places.text + span.place as usize;
        &self.bytes[start..start + span.len as usize]
    }

    /// Whether a set has a byte.
    pub fn set_has(&self, s: u32, byte: u8) -> bool
        requires { s < (header_of self.now).sets }
        ensures { result ≡ set_has (set self.now s) byte }
    {
        let start = self.places.sets + SET_LEN * s as usize;
        (self.bytes[start + byte as usize / 8] >> (byte % 8)) & 1 == 1
    }
}
