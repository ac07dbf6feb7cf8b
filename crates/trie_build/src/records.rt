//! The records of an index: nodes and values.
//!
//! A record is what is in the bytes, whether or not it makes sense.
ghost use Rattle.std.specs.Prelude.{◌≡◌, ◌+◌, ◌≤◌, ◌++◌, OnOk, OnErr, length};
ghost use Rattle.trie_nodes.specs.Bounds.{node_len, value_len};
ghost use Rattle.trie_build.specs.Records.{node_at, node_bytes, span_at, value_at, value_bytes};

use crate::header::NODE_LEN;
use crate::numbers::{number_at, put_numbers};
use std::alloc::AllocError;

/// How many bytes a value has in version 2.
const VALUE_LEN: usize = 32;

/// A node, as it is written.
#[derive(Clone, Copy, PartialEq, Eq)]
pub struct NodeRecord {
    /// Its kind, one of [`kinds`](crate::kinds).
    pub kind: u8,
    /// The byte that leads to it; 0 if none does.
    pub byte: u8,
    /// A byte that has to be 0.
    pub first_zero: u8,
    /// Another one.
    pub second_zero: u8,
    /// The number of the set that leads to it; 0 if none does.
    pub set: u32,
    /// The number of its first child; the others follow.
    pub first: u32,
    /// How many children it has.
    pub count: u32,
    /// The number of its first value; the others follow.
    pub first_value: u32,
    /// How many values it has.
    pub values: u32,
}

/// A part of the text.
#[derive(Clone, Copy, PartialEq, Eq)]
pub struct Span {
    /// Where it begins, counted from the start of the text.
    pub place: u32,
    /// How many bytes it has.
    pub len: u32,
}

/// A value, as it is written.
#[derive(Clone, Copy, PartialEq, Eq)]
pub struct ValueRecord {
    /// The property's name.
    pub key: Span,
    /// Its value.
    pub value: Span,
    /// Its place among all properties.
    pub order: u32,
    /// The name of its file; of length 0 if unknown, as in version 1.
    pub file: Span,
    /// The number of its line; 0 if unknown, as in version 1.
    pub line: u32,
}

impl NodeRecord {
    /// Reads the node that begins at a place.
    pub fn read(bytes: &[u8], at: usize) -> NodeRecord
        requires { at + node_len ≤ length bytes.now }
        ensures { result ≡ node_at bytes.now at }
    {
        NodeRecord {
            kind: bytes[at],
            byte: bytes[at + 1],
            first_zero: bytes[at + 2],
            second_zero: bytes[at + 3],
            set: number_at(bytes, at + 4),
            first: number_at(bytes, at + 8),
            count: number_at(bytes, at + 12),
            first_value: number_at(bytes, at + 16),
            values: number_at(bytes, at + 20),
        }
    }

    /// Adds the node to an index that is being written. Fails only if there is no memory for it; what was written
    /// then stays as it is.
    pub fn write(&self, out: &mut Vec<u8>) -> Result<(), AllocError>
        ensures node { OnOk result (out.new.items ≡ out.old.items ++ node_bytes self.now) }
        ensures refused { OnErr result (out.new.items ≡ out.old.items) }
    {
        let mut bytes = [0; NODE_LEN];
        bytes[..4].copy_from_slice(&[self.kind, self.byte, self.first_zero, self.second_zero]);
        put_numbers(
            &mut bytes[4..],
            &[
                self.set,
                self.first,
                self.count,
                self.first_value,
                self.values,
            ],
        );
        out.extend_from_slice(&bytes)
    }
}

impl Span {
    /// Reads where a part of the text is.
    fn read(bytes: &[u8], at: usize) -> Span
        requires { at + 8 ≤ length bytes.now }
        ensures { result ≡ span_at bytes.now at }
    {
        Span {
            place: number_at(bytes, at),
            len: number_at(bytes, at + 4),
        }
    }
}

impl ValueRecord {
    /// Reads the value that begins at a place, in an index of a version: one of version 1 has no file
    /// and no line.
    pub fn read(version: u32, bytes: &[u8], at: usize) -> ValueRecord
        requires { at + value_len version ≤ length bytes.now }
        ensures { result ≡ value_at version bytes.now at }
    {
        let key = Span::read(bytes, at);
        let value = Span::read(bytes, at + 8);
        let order = number_at(bytes, at + 16);
        if version == 1 {
            ValueRecord {
                key,
                value,
                order,
                file: Span { place: 0, len: 0 },
                line: 0,
            }
        } else {
            ValueRecord {
                key,
                value,
                order,
                file: Span::read(bytes, at + 20),
                line: number_at(bytes, at + 28),
            }
        }
    }

    /// Adds the value to an index of version 2 that is being written. Fails only if there is no memory for it; what
    /// was written then stays as it is.
    pub fn write(&self, out: &mut Vec<u8>) -> Result<(), AllocError>
        ensures value { OnOk result (out.new.items ≡ out.old.items ++ value_bytes self.now) }
        ensures refused { OnErr result (out.new.items ≡ out.old.items) }
    {
        let mut bytes = [0; VALUE_LEN];
        put_numbers(
            &mut bytes,
            &[
                self.key.place,
                self.key.len,
                self.value.place,
                self.value.len,
                self.order,
                self.file.place,
                self.file.len,
                self.line,
            ],
        );
        out.extend_from_slice(&bytes)
    }
}
