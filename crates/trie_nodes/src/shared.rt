//! Bytes that several entries share.
ghost use Rattle.std.specs.Prelude.{◌≡◌, IfOk};

use std::alloc::{AllocError, Global};
use std::marker::Model;
use std::rc::RcSlice;

/// Bytes that several entries share, as those of one file share its name.
#[derive(Drop)]
pub struct SharedBytes {
    held: RcSlice<u8>,
}

impl Model for SharedBytes {
    ghost use Rattle.std.specs.Rc.{rc_slice_items};
    ghost use Rattle.text_bytes.specs.Text.{Text};

    ghost Value = { Text };

    ghost view = { λ b. rc_slice_items b.held };
}

impl SharedBytes {
    /// A copy of a slice, of one owner so far.
    pub fn copy_of(alloc: Global, slice: &[u8]) -> Result<SharedBytes, AllocError>
        ensures { IfOk result (λ b. b ≡ slice.now) }
    {
        Ok(SharedBytes {
            held: RcSlice::from_slice(alloc, slice)?,
        })
    }

    /// The same bytes for one more owner, which takes no memory. It fails only if there are as many owners as a `usize`
    /// counts.
    pub fn share(&self) -> Result<SharedBytes, AllocError>
        ensures { IfOk result (λ b. b ≡ self.now) }
    {
        Ok(SharedBytes {
            held: self.held.clone()?,
        })
    }

    /// Returns the bytes.
    pub fn as_slice(&self) -> &[u8]
        ensures { result.now ≡ self.now }
    {
        self.held.as_slice()
    }
}
