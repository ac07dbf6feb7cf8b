//! Devices over std's readers and writers.
//!
//! No contract can say which bytes a file, a pipe or a terminal holds, so these report none. What they keep is how
//! many calls failed, and for a source how many reads were made: by these a status can be shown to rest on a
//! failure or on the bound of reads. If a reader or writer of std does say what a call gave or took, so does the
//! call here.
ghost use Rattle.std.specs.Prelude.{◌≡◌, ◌<◌, ◌≤◌, length, take, IfOk, OnOk, OnErr};
ghost use Rattle.std.specs.Io.KnownBytes.{Keeps, ReadConsumes, WriteAppends};
ghost use Rattle.engine_sessions.specs.Reported.{NoneLeft};
ghost use Rattle.engine_sessions.specs.Sinks.{Flushes, SinkState, SinkFails, Takes, unreported_sink};
ghost use Rattle.engine_sessions.specs.Sources.{SourceState, Gives, SourceFails, unreported_source};

use crate::device::{DeviceFault, Sink, Source};
use std::io::{Read, Write};

/// A source over a reader.
#[derive(Drop)]
pub struct SourceOver<R> {
    reader: R,
    /// How many reads were made.
    made: u64,
    faults: u64,
}

impl<R: Read> SourceOver<R> {
    /// A source over a reader, of which no read was made.
    pub fn new(reader: R) -> SourceOver<R>
        ensures { ⟦<SourceOver<R> as Source>⟧.shown result ≡ unreported_source 0 0 }
    {
        SourceOver {
            reader,
            made: 0,
            faults: 0,
        }
    }
}

impl<R: Read> Source for SourceOver<R> {
    ghost shown = { λ s. unreported_source s.made s.faults };

    fn read(&mut self, into: &mut [u8]) -> Result<usize, DeviceFault>
        ensures within { IfOk result (λ n. n ≤ length into.old) }
        ensures gives { IfOk result (λ n. Gives (unreported_source self.old.made self.old.faults) (take n into.new)
            (unreported_source self.new.made self.new.faults)) }
        ensures end { IfOk result (λ n. n ≡ 0 → NoneLeft (unreported_source self.old.made self.old.faults).left) }
        ensures fails { OnErr result (SourceFails (unreported_source self.old.made self.old.faults) (unreported_source self.new.made self.new.faults)) }
        ensures bytes { ReadConsumes (R.remaining self.old.reader) (R.remaining self.new.reader) result into.new }
    {
        self.made = self.made.saturating_add(1);
        match self.reader.read(into) {
            Ok(n) => Ok(n),
            Err(_) => {
                self.faults = self.faults.saturating_add(1);
                Err(DeviceFault)
            }
        }
    }
}

/// A sink over a writer.
#[derive(Drop)]
pub struct SinkOver<W> {
    writer: W,
    faults: u64,
}

impl<W: Write> SinkOver<W> {
    /// A sink over a writer, none of whose calls has failed.
    pub fn new(writer: W) -> SinkOver<W>
        ensures { ⟦<SinkOver<W> as Sink>⟧.shown result ≡ unreported_sink 0 }
    {
        SinkOver { writer, faults: 0 }
    }
}

impl<W: Write> Sink for SinkOver<W> {
    ghost shown = { λ s. unreported_sink s.faults };

    fn write(&mut self, text: &[u8]) -> Result<usize, DeviceFault>
        ensures within { IfOk result (λ n. n ≤ length text.now) }
        ensures takes { IfOk result (λ n. 0 < n → Takes (unreported_sink self.old.faults) (take n text.now) (unreported_sink self.new.faults)) }
        ensures empty { OnOk result (length text.now ≡ 0 → Takes (unreported_sink self.old.faults) text.now (unreported_sink self.new.faults)) }
        ensures refuses { IfOk result (λ n. n ≡ 0 → 0 < length text.now → SinkFails (unreported_sink self.old.faults) (unreported_sink self.new.faults)) }
        ensures fails { OnErr result (SinkFails (unreported_sink self.old.faults) (unreported_sink self.new.faults)) }
        ensures bytes { WriteAppends (W.contents self.old.writer) (W.contents self.new.writer) result text.now }
    {
        match self.writer.write(text) {
            Ok(n) => {
                if n == 0 && !text.is_empty() {
                    self.faults = self.faults.saturating_add(1);
                }
                Ok(n)
            }
            Err(_) => {
                self.faults = self.faults.saturating_add(1);
                Err(DeviceFault)
            }
        }
    }

    fn flush(&mut self) -> Result<(), DeviceFault>
        ensures flushes { OnOk result (Flushes (unreported_sink self.old.faults) (unreported_sink self.new.faults)) }
        ensures fails { OnErr result (SinkFails (unreported_sink self.old.faults) (unreported_sink self.new.faults)) }
        ensures bytes { Keeps (W.contents self.old.writer) (W.contents self.new.writer) }
    {
        match self.writer.flush() {
            Ok(()) => Ok(()),
            Err(_) => {
                self.faults = self.faults.saturating_add(1);
                Err(DeviceFault)
            }
        }
    }
}
