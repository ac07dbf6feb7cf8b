//! A source over memory, which reports the pieces read and the bytes still to come.
//!
//! Its room is taken once, by its constructor, so that its calls need no memory. It can be made to
//! fail at a chosen byte, or to give little in a call.
ghost use Rattle.std.specs.Prelude.{◌≡◌, ◌≤◌, Some, [], drop, sum, vec_len, vec_capacity, IfOk};
ghost use Rattle.engine_sessions.specs.Cuts.{cuts};
ghost use Rattle.engine_sessions.specs.Sources.{SourceState};

use crate::device::{DeviceFault, Source};
use std::alloc::{AllocError, Global};

/// A source of given bytes, which notes its pieces in room that was taken before.
#[derive(Drop)]
pub struct MemorySource {
    bytes: Vec<u8>,
    sizes: Vec<usize>,
    at: usize,
    fails_at: usize,
    each: usize,
    /// How many reads were made.
    made: u64,
    faults: u64,
    ghost at_is: { at ≡ sum sizes.items },
    ghost within: { at ≤ vec_len bytes },
    ghost below_fault: { at ≤ fails_at },
}

impl MemorySource {
    /// A source that gives at most `each` bytes in a read, makes room for `reads` reads and fails
    /// at every read past that room, and at every read from the byte `fails_at` on, unless all
    /// bytes were given. If `each` is 0, every read fails until all bytes were given.
    ///
    /// There is an `AllocError` if the room could not be allocated.
    pub fn new(
        alloc: Global,
        bytes: Vec<u8>,
        reads: usize,
        each: usize,
        fails_at: usize,
    ) -> Result<MemorySource, AllocError>
        ensures shown { IfOk result (λ s. ⟦<MemorySource as Source>⟧.shown s
            ≡ record { pieces = Some []; left = Some bytes.items; reads = 0; faults = 0 }) }
        ensures each { IfOk result (λ s. s.each ≡ each) }
        ensures fails_at { IfOk result (λ s. s.fails_at ≡ fails_at) }
        ensures reads { IfOk result (λ s. reads ≤ vec_capacity s.sizes) }
    {
        let sizes = Vec::with_capacity(alloc, reads)?;
        Ok(MemorySource {
            bytes,
            sizes,
            at: 0,
            fails_at,
            each,
            made: 0,
            faults: 0,
        })
    }
}

impl Source for MemorySource {
    ghost shown = { λ s. record {
      pieces = Some (cuts s.bytes.items s.sizes.items);
      left = Some (drop s.at s.bytes.items);
      reads = s.made;
      faults = s.faults;
    } };

    fn read(&mut self, into: &mut [u8]) -> Result<usize, DeviceFault> {
        self.made = self.made.saturating_add(1);
        let left = self.bytes.len() - self.at;
        let wanted = into.len().min(self.each);
        let n = wanted.min(left).min(self.fails_at - self.at);
        if n == 0 && left != 0 || self.sizes.len() >= self.sizes.capacity() {
            self.faults = self.faults.saturating_add(1);
            return Err(DeviceFault);
        }
        into[..n].copy_from_slice(&self.bytes[self.at..self.at + n]);
        let _ = self.sizes.push(n);
        self.at += n;
        Ok(n)
    }
}
