//! The header of an index, which says how many records there are, and so where each part begins.
ghost use Rattle.std.specs.Prelude.{◌≡◌, ◌≤◌, ◌<◌, ◌*◌, ◌^◌, ◌++◌, OnOk, OnErr, length};
ghost use Rattle.trie_nodes.specs.Bounds.{header_len, value_len};
ghost use Rattle.trie_build.specs.Header.{header_bytes, header_of, places_of};

use crate::numbers::{number_at, put_numbers};
use std::alloc::AllocError;

/// What each index begins with.
pub const MAGIC: &[u8; 8] = b"devdryhw";

/// The version that is written. Version 1 can also be read: its values have no file and no line.
pub const VERSION: u32 = 2;

/// How many bytes a header has.
pub const HEADER_LEN: usize = 32;

/// How many bytes a node has.
pub const NODE_LEN: usize = 24;

/// How many bytes a set has.
pub const SET_LEN: usize = 32;

/// What a header says after its first eight bytes.
#[derive(Clone, Copy, PartialEq, Eq)]
pub struct Header {
    /// The version of the format.
    pub version: u32,
    /// How many nodes there are.
    pub nodes: u32,
    /// How many values there are.
    pub values: u32,
    /// How many sets there are.
    pub sets: u32,
    /// How many bytes of text there are.
    pub text: u32,
    /// A number that has to be 0.
    pub reserved: u32,
}

/// Where the parts of an index begin: the nodes come directly after the header.
#[derive(Clone, Copy, PartialEq, Eq)]
pub struct Places {
    /// Where the values begin.
    pub values: usize,
    /// Where the sets begin.
    pub sets: usize,
    /// Where the text begins.
    pub text: usize,
    /// Where the text ends, and with it the index.
    pub end: usize,
}

impl Header {
    /// Reads the header of a file that has at least [`HEADER_LEN`] bytes.
    pub fn read(bytes: &[u8]) -> Header
        requires { header_len ≤ length bytes.now }
        ensures { result ≡ header_of bytes.now }
    {
        Header {
            version: number_at(bytes, 8),
            nodes: number_at(bytes, 12),
            values: number_at(bytes, 16),
            sets: number_at(bytes, 20),
            text: number_at(bytes, 24),
            reserved: number_at(bytes, 28),
        }
    }

    /// Adds the header to an index that is being written. Fails only if there is no memory for it; what was written
    /// then stays as it is.
    pub fn write(&self, out: &mut Vec<u8>) -> Result<(), AllocError>
        ensures header { OnOk result (out.new.items ≡ out.old.items ++ header_bytes self.now) }
        ensures refused { OnErr result (out.new.items ≡ out.old.items) }
    {
        let mut bytes = [0; HEADER_LEN];
        bytes[..8].copy_from_slice(MAGIC);
        put_numbers(
            &mut bytes[8..],
            &[
                self.version,
                self.nodes,
                self.values,
                self.sets,
                self.text,
                self.reserved,
            ],
        );
        out.extend_from_slice(&bytes)
    }

    /// How many bytes so many values have.
    pub fn values_len(&self, count: u32) -> usize
        ensures value { result ≡ value_len self.now.version * count }
        ensures bound { result ≤ 32 * count }
    {
        let count = count as usize;
        if self.version == 1 {
            20 * count
        } else {
            32 * count
        }
    }

    /// Where the parts begin.
    pub fn places(&self) -> Places
        ensures value { result ≡ places_of self.now }
        ensures bound { result.end < 2 ^ 41 }
    {
        let values = HEADER_LEN + NODE_LEN * self.nodes as usize;
        let sets = values + self.values_len(self.values);
        let text = sets + SET_LEN * self.sets as usize;
        let end = text + self.text as usize;
        Places {
            values,
            sets,
            text,
            end,
        }
    }
}
