//! A sink over memory, which reports its bytes.
//!
//! Its room is taken once, by its constructor, so that its calls need no memory. It can be made to
//! fail at a chosen byte, to take little in a call, or to refuse to flush.
ghost use Rattle.std.specs.Prelude.{◌≡◌, ◌≤◌, false, Some, [], take, vec_len, vec_capacity, IfOk};
ghost use Rattle.engine_sessions.specs.Sinks.{SinkState};

use crate::device::{DeviceFault, Sink};
use std::alloc::{AllocError, Global};

/// A sink that keeps what it takes, in room that was taken before.
#[derive(Drop)]
pub struct MemorySink {
    bytes: Vec<u8>,
    flushed: usize,
    room: usize,
    each: usize,
    flushes_fail: bool,
    faults: u64,
    ghost within: { vec_len bytes ≤ room },
    ghost has_room: { room ≤ vec_capacity bytes },
    ghost flushed_within: { flushed ≤ vec_len bytes },
}

impl MemorySink {
    /// A sink that takes at most `each` bytes in a call, and fails at every write once it holds `room` bytes. If
    /// `each` is 0, a write takes nothing and returns 0.
    ///
    /// There is an `AllocError` if the room could not be allocated.
    pub fn new(alloc: Global, room: usize, each: usize) -> Result<MemorySink, AllocError>
        ensures shown { IfOk result (λ s. ⟦<MemorySink as Sink>⟧.shown s
            ≡ record { taken = Some []; flushed = Some []; faults = 0 }) }
        ensures room { IfOk result (λ s. s.room ≡ room) }
        ensures each { IfOk result (λ s. s.each ≡ each) }
        ensures flushes { IfOk result (λ s. s.flushes_fail ≡ false) }
    {
        let bytes = Vec::with_capacity(alloc, room)?;
        Ok(MemorySink {
            bytes,
            flushed: 0,
            room,
            each,
            flushes_fail: false,
            faults: 0,
        })
    }

    /// Makes every later flush fail, or succeed again.
    pub fn set_flushes_fail(&mut self, fail: bool)
        ensures { self.new ≡ record self.old { flushes_fail = fail } }
    {
        self.flushes_fail = fail;
    }

    /// Returns the bytes taken so far.
    pub fn bytes_taken(&self) -> &[u8]
        ensures { (⟦<MemorySink as Sink>⟧.shown self.now).taken ≡ Some result.now }
    {
        self.bytes.as_slice()
    }

    /// Returns the bytes flushed so far, which are the first of those taken.
    pub fn bytes_flushed(&self) -> &[u8]
        ensures { (⟦<MemorySink as Sink>⟧.shown self.now).flushed ≡ Some result.now }
    {
        &self.bytes[..self.flushed]
    }

    /// How many calls failed; at 2^64 - 1 it stays.
    pub fn faults(&self) -> u64
        ensures { (⟦<MemorySink as Sink>⟧.shown self.now).faults ≡ result }
    {
        self.faults
    }
}

impl Sink for MemorySink {
    ghost shown = { λ s. record {
      taken = Some s.bytes.items;
      flushed = Some (take s.flushed s.bytes.items);
      faults = s.faults;
    } };

    fn write(&mut self, text: &[u8]) -> Result<usize, DeviceFault> {
        let left = self.room - self.bytes.len();
        let n = text.len().min(self.each).min(left);
        if n == 0 && !text.is_empty() {
            self.faults = self.faults.saturating_add(1);
            return if left == 0 { Err(DeviceFault) } else { Ok(0) };
        }
        // The room was taken before, so this needs no memory and can't fail.
        let _ = self.bytes.extend_from_slice(&text[..n]);
        Ok(n)
    }

    fn flush(&mut self) -> Result<(), DeviceFault> {
        if self.flushes_fail {
            self.faults = self.faults.saturating_add(1);
            return Err(DeviceFault);
        }
        self.flushed = self.bytes.len();
        Ok(())
    }
}
