//! Turns: one read, and the answers to the lines that end in it.
ghost use Rattle.std.specs.Prelude.{◌≡◌, ◌+◌, ◌^◌, ◌<◌, ◌≤◌, ◌++◌, length, true, IfErr, IfOk, OnOk};
ghost use Rattle.engine_reports.specs.Inputs.{TurnFails, Turns};
ghost use Rattle.engine_reports.specs.LookupOutcomes.{answer_to};
ghost use Rattle.engine_reports.specs.Taking.{Answers, IsOpen, StopsIn};

use crate::held::{Held, LookupFault};
use engine_sessions::{DeviceFault, Sink, Source};
use std::alloc::Global;
use trie_nodes::Lookup;

/// The most bytes of a read.
const MAX_READ: usize = 4096;

/// Makes one read of at most 4,096 bytes, and answers each line that ends in it, and at the input's end
/// the last line. Says whether the input goes on.
pub(crate) fn turn<L: Lookup, R: Source, W: Sink>(
    alloc: Global,
    sources: bool,
    database: &L,
    held: &mut Held,
    input: &mut R,
    output: &mut W,
) -> Result<bool, LookupFault>
    requires open { IsOpen held.old }
    requires few { held.old.number + 4096 < 2 ^ 64 }
    ensures ok { IfOk result (λ more. Turns (answer_to sources (L.entries database.now)) more held.old held.new
        (record { input = R.shown input.old; output = W.shown output.old })
        (record { input = R.shown input.new; output = W.shown output.new })) }
    ensures err { IfErr result (λ fault. TurnFails (answer_to sources (L.entries database.now)) fault held.old
        (record { input = R.shown input.old; output = W.shown output.old })
        (record { input = R.shown input.new; output = W.shown output.new })) }
{
    let mut piece = [0u8; MAX_READ];
    match input.read(&mut piece) {
        Ok(0) => {
            held.end(alloc, sources, database, output)?;
            Ok(false)
        }
        Ok(len) => {
            answer_piece(alloc, sources, database, held, &piece[..len], output)?;
            Ok(true)
        }
        Err(DeviceFault) => Err(LookupFault::Read),
    }
}

/// Takes a piece, and answers each line that ends in it.
fn answer_piece<L: Lookup, W: Sink>(
    alloc: Global,
    sources: bool,
    database: &L,
    held: &mut Held,
    piece: &[u8],
    output: &mut W,
) -> Result<(), LookupFault>
    requires open { IsOpen held.old }
    requires few { held.old.number + length piece.now < 2 ^ 64 }
    ensures ok { OnOk result (Answers (answer_to sources (L.entries database.now)) held.old piece.now held.new (W.shown output.old) (W.shown output.new)) }
    ensures err { IfErr result (λ fault. StopsIn (answer_to sources (L.entries database.now)) fault true held.old.number (held.old.bytes ++ piece.now)
        (W.shown output.old) (W.shown output.new)) }
{
    for byte in piece {
        held.take(alloc, sources, database, *byte, output)?;
    }
    Ok(())
}
