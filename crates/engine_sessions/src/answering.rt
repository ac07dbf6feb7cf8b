//! What answers events.
ghost use Rattle.std.specs.Prelude.{◌≡◌, IfOk};
ghost use Rattle.text_bytes.specs.Text.{Text};
ghost use Rattle.device_core.specs.Values.{EventValue};

use device_core::Event;
use std::alloc::{AllocError, Global};
use text_bytes::Bytes;

/// Something that answers events, each by itself: the same event always gets the same answer,
/// whatever was asked before.
pub trait Answering {
    // the answer to each event
    ghost answers: { Self → EventValue → Text };

    /// The answer to an event.
    fn answer(&self, alloc: Global, event: &Event<'_>) -> Result<Bytes, AllocError>
        ensures { IfOk result (λ text. text ≡ answers self.now event.now) };
}
