//! Turns: one read, and the replies to the items that it completes.
ghost use Rattle.std.specs.Prelude.{◌≡◌, IfErr, IfOk};
ghost use Rattle.lsp_server.specs.Inputs.{TurnFails, Turns};
ghost use Rattle.lsp_server.specs.AnyServer.{acting};
ghost use Rattle.lsp_server.specs.Taking.{situation};

use crate::frames::Frames;
use crate::replying::{Exit, Replying};
use crate::sending::SessionFault;
use crate::taking::take_piece;
use engine_sessions::{DeviceFault, Sink, Source};
use std::alloc::Global;

/// The most bytes of a read.
const MAX_READ: usize = 4096;

/// What comes after a turn.
#[derive(Clone, Copy)]
pub(crate) enum Next {
    /// The next turn.
    GoesOn,
    /// Nothing: the client exits so, or the input ends.
    Ends(Option<Exit>),
}

/// Makes one read of at most 4,096 bytes, and replies to each item that it completes, until the client exits.
pub(crate) fn turn<S: Replying, R: Source, W: Sink>(
    alloc: Global,
    server: &mut S,
    frames: &mut Frames,
    input: &mut R,
    output: &mut W,
) -> Result<Next, SessionFault>
    ensures ok { IfOk result (λ next. Turns next (situation frames.old (acting S.replies S.after server.old))
        (situation frames.new (acting S.replies S.after server.new))
        (record { input = R.shown input.old; output = W.shown output.old })
        (record { input = R.shown input.new; output = W.shown output.new })) }
    ensures err { IfErr result (λ fault. TurnFails fault (situation frames.old (acting S.replies S.after server.old))
        (record { input = R.shown input.old; output = W.shown output.old })
        (record { input = R.shown input.new; output = W.shown output.new })) }
{
    let mut piece = [0u8; MAX_READ];
    match input.read(&mut piece) {
        Ok(0) => Ok(Next::Ends(None)),
        Ok(len) => match take_piece(alloc, server, frames, &piece[..len], output)? {
            None => Ok(Next::GoesOn),
            Some(exit) => Ok(Next::Ends(Some(exit))),
        },
        Err(DeviceFault) => Err(SessionFault::Read),
    }
}
