//! The bytes of an input, and the replies to the items that they complete.
ghost use Rattle.std.specs.Prelude.{◌≡◌, [], ◌∷◌, IfErr, IfOk};
ghost use Rattle.lsp_server.specs.AnyServer.{acting};
ghost use Rattle.lsp_server.specs.Taking.{StopsIn, TakesBy, situation};

use crate::frames::Frames;
use crate::replying::{Exit, Replying};
use crate::sending::{SessionFault, send_reply};
use engine_sessions::Sink;
use std::alloc::Global;

/// Takes a byte, and replies to the item that it completes, if it completes one. Returns how the client exits, if it does.
fn take_byte<S: Replying, W: Sink>(
    alloc: Global,
    server: &mut S,
    frames: &mut Frames,
    byte: u8,
    output: &mut W,
) -> Result<Option<Exit>, SessionFault>
    ensures ok { IfOk result (λ exit. TakesBy exit (situation frames.old (acting S.replies S.after server.old)) (byte ∷ [])
        (situation frames.new (acting S.replies S.after server.new)) (W.shown output.old) (W.shown output.new)) }
    ensures err { IfErr result (λ fault. StopsIn fault (situation frames.old (acting S.replies S.after server.old)) (byte ∷ [])
        (W.shown output.old) (W.shown output.new)) }
{
    match frames.take(alloc, byte) {
        Ok(Some(item)) => send_reply(alloc, server, item, output),
        Ok(None) => Ok(None),
        Err(_) => Err(SessionFault::Memory),
    }
}

/// Takes a piece, up to the byte at which the client exits, and replies to each item that its bytes complete. Returns how the client
/// exits, if it does.
pub(crate) fn take_piece<S: Replying, W: Sink>(
    alloc: Global,
    server: &mut S,
    frames: &mut Frames,
    piece: &[u8],
    output: &mut W,
) -> Result<Option<Exit>, SessionFault>
    ensures ok { IfOk result (λ exit. TakesBy exit (situation frames.old (acting S.replies S.after server.old)) piece.now
        (situation frames.new (acting S.replies S.after server.new)) (W.shown output.old) (W.shown output.new)) }
    ensures err { IfErr result (λ fault. StopsIn fault (situation frames.old (acting S.replies S.after server.old)) piece.now
        (W.shown output.old) (W.shown output.new)) }
{
    for byte in piece {
        let exit = take_byte(alloc, server, frames, *byte, output)?;
        if exit.is_some() {
            return Ok(exit);
        }
    }
    Ok(None)
}
