//! What is told an input as it is read, and what is told its events.
ghost use Rattle.std.specs.Prelude.{◌≡◌, ◌∷◌, [], List, IfOk, OnOk};
ghost use Rattle.text_bytes.specs.Text.{Text};
ghost use Rattle.device_core.specs.Values.{EventValue};
ghost use Rattle.engine_sessions.specs.Tallies.{IsTold};

use device_core::Event;
use std::alloc::{AllocError, Global};
use text_bytes::Bytes;

/// Something that is told each event of an input, in order, and says in the end something about all of them.
pub trait Tally {
    // what it will say, by the events that it is still told
    ghost says: { Self → List EventValue → Text };

    /// Takes an event in. Fails if memory runs out, or if a count would pass the greatest one.
    fn count(&mut self, alloc: Global, event: &Event<'_>) -> Result<(), AllocError>
        ensures { OnOk result ((later : List EventValue) → says self.new later ≡ says self.old (event.now ∷ later)) };

    /// What there is to say after the last event.
    fn end(&self, alloc: Global) -> Result<Bytes, AllocError>
        ensures { IfOk result (λ text. text ≡ says self.now []) };
}

/// Something that is told an input piece by piece, each once the blocks that end in it are answered.
pub(crate) trait Listener {
    // what it will say, by the bytes of the input that it is still told
    ghost says: { Self → Text → Text };

    /// Takes a piece in.
    fn hear(&mut self, alloc: Global, piece: &[u8]) -> Result<(), AllocError>
        ensures { OnOk result (IsTold (says self.old) (says self.new) piece.now) };
}

/// Nothing that listens.
impl Listener for () {
    ghost says = { λ unit rest. [] };

    fn hear(&mut self, _alloc: Global, _piece: &[u8]) -> Result<(), AllocError> {
        Ok(())
    }
}
