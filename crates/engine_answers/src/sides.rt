//! One of the two answerings that are compared.
ghost use Rattle.std.specs.Prelude.{◌≡◌, IfOk, unwrap_or};
ghost use Rattle.device_core.specs.Values.{EventValue};
ghost use Rattle.engine_answers.specs.Differences.{ShownAnswer};

use device_core::Event;
use std::alloc::{AllocError, Global};
use text_bytes::Bytes;

/// A way of answering events whose answers are compared, and shown where they differ.
pub trait Side {
    // the answer to each event, and the answer as it is shown
    ghost answers: { Self → EventValue → ShownAnswer };

    /// The answer to an event, which is compared.
    fn answer(&self, alloc: Global, event: &Event<'_>) -> Result<Bytes, AllocError>
        ensures { IfOk result (λ text. text ≡ (answers self.now event.now).0) };

    /// The answer to an event as it is shown, with a line for each line of the answer; `None` if that is the answer itself.
    fn shown(&self, alloc: Global, event: &Event<'_>) -> Result<Option<Bytes>, AllocError>
        ensures { IfOk result (λ text. unwrap_or text (answers self.now event.now).0 ≡ (answers self.now event.now).1) };
}
