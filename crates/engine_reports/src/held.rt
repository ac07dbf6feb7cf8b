//! The line that has not ended, and its answer once it has.
ghost use Rattle.std.specs.Prelude.{◌≡◌, ◌+◌, ◌^◌, ◌<◌, [], ◌∷◌, ◌++◌, flat_map, length, true, false, IfErr, OnOk};
ghost use Rattle.text_bytes.specs.Lines.{lines};
ghost use Rattle.engine_sessions.specs.Sinks.{HandsOn};
ghost use Rattle.engine_sessions.specs.Serves.{WritesOut};
ghost use Rattle.engine_reports.specs.LookupOutcomes.{answer_to, most_bytes};
ghost use Rattle.engine_reports.specs.Taking.{Answers, IsFull, IsOpen, Leads, StopsIn, StopsInLine, first_line};

use crate::lookup_answers::send_answer;
use engine_sessions::Sink;
use std::alloc::Global;
use std::marker::Model;
use trie_nodes::Lookup;

/// The most bytes of a line.
const MAX_BYTES: usize = 65_536;

/// Why no more lines are answered.
#[derive(Clone, Copy, PartialEq, Eq)]
pub(crate) enum LookupFault {
    /// The input failed.
    Read,
    /// The output failed.
    Write,
    /// The line of this number is too long.
    TooLong(u64),
    /// Want of memory.
    Memory,
}

/// A line of the input that has not ended: its number, and its bytes so far.
#[derive(Drop)]
pub(crate) struct Held {
    number: u64,
    bytes: Vec<u8>,
}

impl Model for Held {
    ghost use Rattle.engine_reports.specs.Taking.{HeldLine};

    ghost Value = { HeldLine };

    ghost view = { λ h. record { number = h.number; bytes = h.bytes.items } };
}

impl Held {
    /// Nothing yet of the first line.
    pub(crate) fn new(alloc: Global) -> Held
        ensures { result ≡ first_line }
    {
        Held {
            number: 1,
            bytes: Vec::new(alloc),
        }
    }

    /// Takes the next byte of the input, and answers the line if it ends there.
    pub(crate) fn take<L: Lookup, W: Sink>(
        &mut self,
        alloc: Global,
        sources: bool,
        database: &L,
        byte: u8,
        output: &mut W,
    ) -> Result<(), LookupFault>
        requires open { IsOpen self.old }
        requires few { self.old.number + 1 < 2 ^ 64 }
        ensures ok { OnOk result (Answers (answer_to sources (L.entries database.now)) self.old (byte ∷ []) self.new (W.shown output.old)
            (W.shown output.new)) }
        ensures err { IfErr result (λ fault. StopsIn (answer_to sources (L.entries database.now)) fault true self.old.number (self.old.bytes ++ byte ∷ [])
            (W.shown output.old) (W.shown output.new)) }
    {
        if byte == b'\n' {
            self.answer(alloc, sources, database, output)
        } else {
            self.push(byte)
        }
    }

    /// Answers the line, which has ended, and goes on to the next one.
    fn answer<L: Lookup, W: Sink>(
        &mut self,
        alloc: Global,
        sources: bool,
        database: &L,
        output: &mut W,
    ) -> Result<(), LookupFault>
        requires { self.old.number + 1 < 2 ^ 64 }
        ensures next { OnOk result (self.new ≡ record { number = self.old.number + 1; bytes = [] }) }
        ensures sends { OnOk result (HandsOn (W.shown output.old) (answer_to sources (L.entries database.now) self.old.bytes) (W.shown output.new)) }
        ensures err { IfErr result (λ fault. StopsInLine fault (answer_to sources (L.entries database.now) self.old.bytes) (W.shown output.old)
            (W.shown output.new)) }
    {
        send_answer(alloc, sources, database, &self.bytes, output)?;
        self.bytes.clear();
        self.number += 1;
        Ok(())
    }

    /// Takes a byte of the line.
    fn push(&mut self, byte: u8) -> Result<(), LookupFault>
        ensures more { OnOk result (self.new ≡ record { number = self.old.number; bytes = self.old.bytes ++ byte ∷ [] }) }
        ensures fits { OnOk result (length self.old.bytes < most_bytes) }
        ensures err { IfErr result (λ fault. IsFull fault self.old) }
    {
        if self.bytes.len() >= MAX_BYTES {
            return Err(LookupFault::TooLong(self.number));
        }
        match self.bytes.push(byte) {
            Ok(()) => Ok(()),
            Err(_) => Err(LookupFault::Memory),
        }
    }

    /// Answers the line as the input's last, if there is anything of it.
    pub(crate) fn end<L: Lookup, W: Sink>(
        &self,
        alloc: Global,
        sources: bool,
        database: &L,
        output: &mut W,
    ) -> Result<(), LookupFault>
        requires { IsOpen self.now }
        ensures leads { Leads (answer_to sources (L.entries database.now)) (lines self.now.bytes) }
        ensures ok { OnOk result (WritesOut (W.shown output.old) (flat_map (answer_to sources (L.entries database.now)) (lines self.now.bytes))
            (W.shown output.new)) }
        ensures err { IfErr result (λ fault. StopsIn (answer_to sources (L.entries database.now)) fault false self.now.number self.now.bytes
            (W.shown output.old) (W.shown output.new)) }
    {
        let modalias = self.bytes.as_slice();
        if modalias.is_empty() {
            return Ok(());
        }
        send_answer(alloc, sources, database, modalias, output)
    }
}
