//! The reply to one item.
ghost use Rattle.std.specs.Prelude.{◌≡◌, IfErr, IfOk, OnOk};
ghost use Rattle.engine_sessions.specs.Serves.{WritesOut};
ghost use Rattle.lsp_server.specs.Taking.{StopsInReply};

use crate::frames::Item;
use crate::replying::{Exit, Reply, Replying};
use engine_sessions::{DeviceFault, Sink, hand_on};
use std::alloc::Global;

/// Why a session stops before its end.
#[derive(Clone, Copy, PartialEq, Eq)]
pub(crate) enum SessionFault {
    /// The input failed.
    Read,
    /// The output failed.
    Write,
    /// Want of memory.
    Memory,
}

/// Writes and flushes the text of a reply, and if it is empty does nothing. Returns how the client exits, if it does.
fn send<W: Sink>(reply: &Reply, output: &mut W) -> Result<Option<Exit>, SessionFault>
    ensures exit { IfOk result (λ exit. exit ≡ reply.now.exit) }
    ensures ok { OnOk result (WritesOut (W.shown output.old) reply.now.text (W.shown output.new)) }
    ensures err { IfErr result (λ fault. StopsInReply fault reply.now.text (W.shown output.old) (W.shown output.new)) }
{
    let text = reply.text.as_slice();
    if text.is_empty() {
        return Ok(reply.exit);
    }
    match hand_on(output, text) {
        Ok(()) => Ok(reply.exit),
        Err(DeviceFault) => Err(SessionFault::Write),
    }
}

/// Replies to an item. Returns how the client exits, if it does.
pub(crate) fn send_reply<S: Replying, W: Sink>(
    alloc: Global,
    server: &mut S,
    item: Item,
    output: &mut W,
) -> Result<Option<Exit>, SessionFault>
    ensures exit { IfOk result (λ exit. exit ≡ (S.replies server.old item).exit) }
    ensures ok { OnOk result (WritesOut (W.shown output.old) (S.replies server.old item).text (W.shown output.new)) }
    ensures after { OnOk result (server.new ≡ S.after server.old item) }
    ensures err { IfErr result (λ fault. StopsInReply fault (S.replies server.old item).text (W.shown output.old) (W.shown output.new)) }
{
    match server.reply(alloc, item) {
        Ok(reply) => send(&reply, output),
        Err(_) => Err(SessionFault::Memory),
    }
}
