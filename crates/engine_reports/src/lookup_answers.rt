//! The answer to one modalias of several.
ghost use Rattle.std.specs.Prelude.{◌≡◌, IfErr, IfOk, OnOk};
ghost use Rattle.engine_sessions.specs.Sinks.{HandsOn};
ghost use Rattle.engine_reports.specs.LookupOutcomes.{answer_to};
ghost use Rattle.engine_reports.specs.Taking.{StopsInLine};

use crate::answers::answer_lines;
use crate::held::LookupFault;
use engine_sessions::{DeviceFault, Sink, hand_on};
use std::alloc::{AllocError, Global};
use trie_nodes::Lookup;

/// The lines that answer a modalias alone, and an empty line.
fn answer_to<L: Lookup>(
    alloc: Global,
    sources: bool,
    database: &L,
    modalias: &[u8],
) -> Result<Vec<u8>, AllocError>
    ensures { IfOk result (λ text. text.items ≡ answer_to sources (L.entries database.now) modalias.now) }
{
    let mut text = answer_lines(alloc, database, modalias, sources)?;
    text.push(b'\n')?;
    Ok(text)
}

/// Writes and flushes the answer to a modalias.
pub(crate) fn send_answer<L: Lookup, W: Sink>(
    alloc: Global,
    sources: bool,
    database: &L,
    modalias: &[u8],
    output: &mut W,
) -> Result<(), LookupFault>
    ensures ok { OnOk result (HandsOn (W.shown output.old) (answer_to sources (L.entries database.now) modalias.now) (W.shown output.new)) }
    ensures err { IfErr result (λ fault. StopsInLine fault (answer_to sources (L.entries database.now) modalias.now) (W.shown output.old)
        (W.shown output.new)) }
{
    match answer_to(alloc, sources, database, modalias) {
        Ok(text) => match hand_on(output, &text) {
            Ok(()) => Ok(()),
            Err(DeviceFault) => Err(LookupFault::Write),
        },
        Err(_) => Err(LookupFault::Memory),
    }
}
