//! The turns over an input.
ghost use Rattle.std.specs.Prelude.{◌≡◌};
ghost use Rattle.engine_reports.specs.Inputs.{AnswersInput};
ghost use Rattle.engine_reports.specs.LookupOutcomes.{answer_to};

use crate::held::{Held, LookupFault};
use crate::turning::turn;
use engine_sessions::{Sink, Source};
use std::alloc::Global;
use trie_nodes::Lookup;

/// The most turns over one input.
const MAX_TURNS: u64 = 1 << 48;

/// Answers the lines of an input, each before the next read.
///
/// `TooLong` means that a line is too long, with the answers to all lines before it sent; `Memory` that memory ran out;
/// `Write` that the output failed; `Read` that the input failed, or did not end within 2^48 reads.
pub(crate) fn answer_input<L: Lookup, R: Source, W: Sink>(
    alloc: Global,
    sources: bool,
    database: &L,
    input: &mut R,
    output: &mut W,
) -> Result<(), LookupFault>
    ensures { AnswersInput (answer_to sources (L.entries database.now)) result
        (record { input = R.shown input.old; output = W.shown output.old }) (record { input = R.shown input.new; output = W.shown output.new }) }
{
    let mut held = Held::new(alloc);
    for _made in 0..MAX_TURNS {
        let more = turn(alloc, sources, database, &mut held, input, output)?;
        if !more {
            return Ok(());
        }
    }
    Err(LookupFault::Read)
}
