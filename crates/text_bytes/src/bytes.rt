//! Owned bytes.
//!
//! A type of its own over `Vec<u8>`, so that a contract sees the list of the bytes, and neither their capacity nor
//! their place in memory.
ghost use Rattle.std.specs.Prelude.{◌≡◌, IfOk};

use std::alloc::{AllocError, Global};
use std::marker::Model;

/// Owned bytes: a text, a name, a key or a value.
#[derive(Debug, Drop)]
pub struct Bytes {
    held: Vec<u8>,
}

impl Model for Bytes {
    ghost use Rattle.text_bytes.specs.Text.{Text};

    ghost Value = { Text };

    ghost view = { λ b. b.held.items };
}

impl Bytes {
    /// The bytes of a vector, without a copy.
    pub fn new(held: Vec<u8>) -> Bytes
        ensures { result ≡ held.items }
    {
        Bytes { held }
    }

    /// A copy of a slice, with just the capacity that it needs.
    pub fn copy_of(alloc: Global, slice: &[u8]) -> Result<Bytes, AllocError>
        ensures { IfOk result (λ b. b ≡ slice.now) }
    {
        Ok(Bytes {
            held: Vec::from_slice(alloc, slice)?,
        })
    }

    /// Returns the bytes.
    pub fn as_slice(&self) -> &[u8]
        ensures { result.now ≡ self.now }
    {
        &self.held
    }

    /// Returns the vector.
    pub fn into_vec(self) -> Vec<u8>
        ensures { result.items ≡ self }
    {
        let Bytes { held } = self;
        held
    }
}
