//! A piece before its bytes are copied.
ghost use Rattle.std.specs.Prelude.{Ok};
ghost use Rattle.rule_tokens.specs.Cuts.{copied};
ghost use Rattle.rule_tokens.specs.Faults.{Gives};

use crate::fault::TemplateFault;
use crate::piece::Piece;
use std::alloc::Global;
use text_bytes::Bytes;

/// A piece whose bytes are still in the text.
#[derive(Drop)]
pub enum Cut<'a> {
    /// Bytes as they are.
    Plain(&'a [u8]),
    /// The attribute with this name.
    Attr(&'a [u8]),
    /// The property with this name.
    Env(&'a [u8]),
    /// Any other piece: one that keeps no bytes.
    Other(Piece),
}

impl<'a> Cut<'a> {
    /// The piece with its bytes copied. The fault is `Memory`.
    pub fn copied(self, alloc: Global) -> Result<Piece, TemplateFault>
        ensures { Gives (λ p. p) result (Ok (copied self.entry)) }
    {
        match self {
            Cut::Plain(text) => Ok(Piece::Plain(Bytes::copy_of(alloc, text)?)),
            Cut::Attr(name) => Ok(Piece::Attr(Bytes::copy_of(alloc, name)?)),
            Cut::Env(name) => Ok(Piece::Env(Bytes::copy_of(alloc, name)?)),
            Cut::Other(piece) => Ok(piece),
        }
    }
}
