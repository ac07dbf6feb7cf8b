//! Messages, and the answers to the lines of an input after them.
ghost use Rattle.std.specs.Prelude.{◌≡◌};
ghost use Rattle.engine_reports.specs.Inputs.{Concludes};
ghost use Rattle.engine_reports.specs.LookupOutcomes.{answer_to, too_long_line};
ghost use Rattle.engine_reports.specs.Runs.{LooksUp};
ghost use Rattle.engine_sessions.specs.Delivery.{ReportsFailure};

use crate::held::LookupFault;
use crate::inputs::answer_input;
use engine_sessions::{
    Sink, Source, hand_on, report_failure, report_in_pieces, report_out_of_memory,
};
use itoa::Buffer;
use std::alloc::Global;
use trie_nodes::Lookup;

const READ_FAILED: &[u8] = b"devdry: read failed\n";

const WRITE_FAILED: &[u8] = b"devdry: write failed\n";

/// Writes messages to `error`, and then looks each line of the input up as a modalias and answers it on
/// `output`, with where each property comes from if `sources` says so; returns the status to exit with.
///
/// Each answer is written and flushed before the next read. A newline ends a line, and the last line may lack it. The
/// status is 0; 1 if a line has more than 65,536 bytes, which is reported on `error` after the answers to the lines
/// before it; 3 if the input or an output failed, or the input did not end within 2^48 reads; 4 if memory ran out.
pub(crate) fn look_up_lines<L: Lookup, R: Source, W: Sink, E: Sink>(
    alloc: Global,
    messages: &[u8],
    sources: bool,
    database: &L,
    input: &mut R,
    output: &mut W,
    error: &mut E,
) -> u8
    ensures { LooksUp messages.now (answer_to sources (L.entries database.now)) result
        (record { input = R.shown input.old; out = W.shown output.old; err = E.shown error.old })
        (record { input = R.shown input.new; out = W.shown output.new; err = E.shown error.new }) }
{
    if hand_on(error, messages).is_err() {
        return 3;
    }
    let end = answer_input(alloc, sources, database, input, output);
    conclude(end, error)
}

/// Reports why the answering of an input stopped, if it did before its end, and returns the status for that, or 3 if the
/// error output failed.
fn conclude<E: Sink>(end: Result<(), LookupFault>, error: &mut E) -> u8
    ensures { Concludes end result (E.shown error.old) (E.shown error.new) }
{
    match end {
        Ok(()) => 0,
        Err(LookupFault::Read) => report_failure(error, READ_FAILED, 3),
        Err(LookupFault::Write) => report_failure(error, WRITE_FAILED, 3),
        Err(LookupFault::TooLong(number)) => report_long_line(error, number),
        Err(LookupFault::Memory) => report_out_of_memory(error),
    }
}

/// Reports the line with this number, which is too long, and returns the status for that, 1, or 3 if the error output
/// failed.
fn report_long_line<E: Sink>(error: &mut E, number: u64) -> u8
    ensures { ReportsFailure (too_long_line number) 1 result (E.shown error.old) (E.shown error.new) }
{
    let mut buffer = Buffer::new();
    report_in_pieces(
        error,
        &[
            b"devdry: line ",
            buffer.format(number).as_bytes(),
            b": too long",
            b"\n",
        ],
        1,
    )
}
