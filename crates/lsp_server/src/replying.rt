//! What replies to the items that a client sends.
ghost use Rattle.std.specs.Prelude.{◌≡◌, IfOk, OnOk};
ghost use Rattle.lsp_server.specs.declared.frames.Item.{Item};
ghost use Rattle.lsp_server.specs.declared.replying.Reply.{Reply};

use crate::frames::Item;
use std::alloc::{AllocError, Global};
use text_bytes::Bytes;

/// How a client exits.
#[derive(Clone, Copy, Debug, PartialEq, Eq)]
pub enum Exit {
    /// After it asked the server to shut down, as it has to.
    AfterShutdown,
    /// Without that.
    WithoutShutdown,
}

/// What is said to an item.
#[derive(Debug, Drop)]
pub struct Reply {
    /// What is written, whole frames one after another. It may be empty.
    pub text: Bytes,
    /// How the client exits, if it does: then nothing more is read.
    pub exit: Option<Exit>,
}

/// Something that replies to items, one after another: what it replies depends on its state and the item alone.
pub trait Replying {
    // the reply to an item, in each state
    ghost replies: { Self → Item → Reply };

    // the state after an item
    ghost after: { Self → Item → Self };

    /// Replies to an item. If memory runs out, there is no reply, and the session ends.
    fn reply(&mut self, alloc: Global, item: Item) -> Result<Reply, AllocError>
        ensures replies { IfOk result (λ reply. reply ≡ replies self.old item) }
        ensures after { OnOk result (self.new ≡ after self.old item) };
}
