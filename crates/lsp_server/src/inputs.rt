//! The turns over an input.
ghost use Rattle.std.specs.Prelude.{◌≡◌};
ghost use Rattle.lsp_server.specs.Inputs.{ServesInput};
ghost use Rattle.lsp_server.specs.AnyServer.{acting};

use crate::frames::Frames;
use crate::replying::{Exit, Replying};
use crate::sending::SessionFault;
use crate::turning::{Next, turn};
use engine_sessions::{Sink, Source};
use std::alloc::Global;

/// The most turns over one input.
const MAX_TURNS: u64 = 1 << 48;

/// Replies to the items of an input, each before the next read. Returns how the client exits, or nothing if the input ends before that.
///
/// `Memory` means that memory ran out; `Write` that the output failed; `Read` that the input failed, or did not end within 2^48 reads.
pub(crate) fn serve_input<S: Replying, R: Source, W: Sink>(
    alloc: Global,
    server: &mut S,
    input: &mut R,
    output: &mut W,
) -> Result<Option<Exit>, SessionFault>
    ensures { ServesInput (acting S.replies S.after server.old) result
        (record { input = R.shown input.old; output = W.shown output.old })
        (record { input = R.shown input.new; output = W.shown output.new }) }
{
    let mut frames = Frames::new(alloc);
    for _made in 0..MAX_TURNS {
        let next = turn(alloc, server, &mut frames, input, output)?;
        if let Next::Ends(exit) = next {
            return Ok(exit);
        }
    }
    Err(SessionFault::Read)
}
