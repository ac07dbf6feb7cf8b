//! The two traits for what a run reads and writes.
//!
//! Each shows contracts one record. What it reports about the bytes is an `Option`, so that one contract serves
//! both kinds of devices: a clause on the bytes says nothing about a device that does not report them.
ghost use Rattle.std.specs.Prelude.{◌≡◌, ◌<◌, ◌≤◌, length, take, IfOk, OnOk, OnErr};
ghost use Rattle.engine_sessions.specs.Reported.{NoneLeft};
ghost use Rattle.engine_sessions.specs.Sinks.{SinkState, Flushes, SinkFails, Takes};
ghost use Rattle.engine_sessions.specs.Sources.{SourceState, Gives, SourceFails};

use std::error::Error;
use std::fmt;

/// A call of a device failed.
#[derive(Clone, Copy, Debug, PartialEq, Eq)]
pub struct DeviceFault;

impl fmt::Display for DeviceFault {
    ghost use Rattle.std.specs.Prelude.{Some};
    ghost use Rattle.engine_sessions.specs.EndFaultTexts.{device_text};

    ghost output = { λ _. Some device_text };

    fn fmt<W: fmt::Write>(&self, f: &mut fmt::Formatter<W>) -> fmt::Result {
        f.write_str("device failed")
    }
}

impl Error for DeviceFault {}

/// Where input comes from.
pub trait Source {
    // the pieces read and the bytes still to come, if they are reported, how many calls were made, and how many of
    // them failed
    ghost shown: { Self → SourceState };

    /// Reads some bytes into the front of a slice that is not empty, and returns how many.
    ///
    /// It returns 0 only at the input's end, which is an empty piece. A `DeviceFault` says that the device failed;
    /// what is in the slice is then left open, and no piece was read.
    fn read(&mut self, into: &mut [u8]) -> Result<usize, DeviceFault>
        requires { 0 < length into.old }
        ensures within { IfOk result (λ n. n ≤ length into.old) }
        ensures gives { IfOk result (λ n. Gives (shown self.old) (take n into.new) (shown self.new)) }
        ensures end { IfOk result (λ n. n ≡ 0 → NoneLeft (shown self.old).left) }
        ensures fails { OnErr result (SourceFails (shown self.old) (shown self.new)) };
}

/// Where output goes.
pub trait Sink {
    // the bytes taken and those flushed, if they are reported, and how many calls failed
    ghost shown: { Self → SinkState };

    /// Takes the first bytes of a text, perhaps not all of them, and returns how many.
    ///
    /// A `DeviceFault` says that the device failed and took nothing. A result of 0 for a text that is not empty
    /// counts as a failed call, too.
    fn write(&mut self, text: &[u8]) -> Result<usize, DeviceFault>
        ensures within { IfOk result (λ n. n ≤ length text.now) }
        ensures takes { IfOk result (λ n. 0 < n → Takes (shown self.old) (take n text.now) (shown self.new)) }
        ensures empty { OnOk result (length text.now ≡ 0 → Takes (shown self.old) text.now (shown self.new)) }
        ensures refuses { IfOk result (λ n. n ≡ 0 → 0 < length text.now → SinkFails (shown self.old) (shown self.new)) }
        ensures fails { OnErr result (SinkFails (shown self.old) (shown self.new)) };

    /// Passes on all that was taken. A `DeviceFault` says that the device failed.
    fn flush(&mut self) -> Result<(), DeviceFault>
        ensures flushes { OnOk result (Flushes (shown self.old) (shown self.new)) }
        ensures fails { OnErr result (SinkFails (shown self.old) (shown self.new)) };
}
