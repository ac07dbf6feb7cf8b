//! Messages, and the session over an input after them.
ghost use Rattle.std.specs.Prelude.{◌≡◌};
ghost use Rattle.lsp_server.specs.Inputs.{Concludes};
ghost use Rattle.lsp_server.specs.Outcomes.{status_of};
ghost use Rattle.lsp_server.specs.Runs.{ServesEditor};
ghost use Rattle.lsp_server.specs.AnyServer.{acting};

use crate::inputs::serve_input;
use crate::replying::{Exit, Replying};
use crate::sending::SessionFault;
use engine_sessions::{Sink, Source, hand_on, report_failure, report_out_of_memory};
use std::alloc::Global;

const READ_FAILED: &[u8] = b"devdry: read failed\n";

const WRITE_FAILED: &[u8] = b"devdry: write failed\n";

/// Writes messages to `error`, and then replies to each item of the input on `output` until the client exits; returns the status to exit
/// with.
///
/// Each reply is written and flushed before the next read, and an empty one is neither. The status is 0 if the client exits after it asked
/// the server to shut down; 1 if it exits without that, or the input ends before it does; 3 if the input or an output failed, or the input
/// did not end within 2^48 reads; 4 if memory ran out. At 3 and 4 a line on `error` says so.
pub fn serve_editor<S: Replying, R: Source, W: Sink, E: Sink>(
    alloc: Global,
    messages: &[u8],
    server: &mut S,
    input: &mut R,
    output: &mut W,
    error: &mut E,
) -> u8
    ensures { ServesEditor messages.now (acting S.replies S.after server.old) result
        (record { input = R.shown input.old; out = W.shown output.old; err = E.shown error.old })
        (record { input = R.shown input.new; out = W.shown output.new; err = E.shown error.new }) }
{
    if hand_on(error, messages).is_err() {
        return 3;
    }
    let end = serve_input(alloc, server, input, output);
    conclude(end, error)
}

/// The status by how the client exits, if it does.
fn status_of(exit: Option<Exit>) -> u8
    ensures { result ≡ status_of exit }
{
    match exit {
        Some(Exit::AfterShutdown) => 0,
        Some(Exit::WithoutShutdown) | None => 1,
    }
}

/// Reports why a session stopped, if it did before its end, and returns the status for that, or 3 if the error output failed.
fn conclude<E: Sink>(end: Result<Option<Exit>, SessionFault>, error: &mut E) -> u8
    ensures { Concludes end result (E.shown error.old) (E.shown error.new) }
{
    match end {
        Ok(exit) => status_of(exit),
        Err(SessionFault::Read) => report_failure(error, READ_FAILED, 3),
        Err(SessionFault::Write) => report_failure(error, WRITE_FAILED, 3),
        Err(SessionFault::Memory) => report_out_of_memory(error),
    }
}
