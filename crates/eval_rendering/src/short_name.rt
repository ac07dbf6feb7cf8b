//! The name of an attribute, as far as it is put together, in room of its own.
ghost use Rattle.std.specs.Prelude.{◌≡◌, ◌∷◌, [], Some, flat_map, map, option_map};
ghost use Rattle.text_bytes.specs.Names.{space};
ghost use Rattle.eval_rendering.specs.Lengthened.{lengthened};
ghost use Rattle.eval_rendering.specs.Words.{spaced};

use crate::bounds::MAX_VALUE_BYTES;
use arrayvec::ArrayVec;
use std::marker::Model;

/// The most bytes of a name.
const MAX_NAME_BYTES: usize = MAX_VALUE_BYTES;

/// A name that is rendered, or that it is too long: it would have over 511 bytes.
#[derive(Drop)]
pub struct ShortName {
    bytes: ArrayVec<u8, MAX_NAME_BYTES>,
    fits: bool,
}

impl Model for ShortName {
    ghost use Rattle.std.specs.Prelude.{Option, Some, None, if◌then◌else◌};
    ghost use Rattle.text_bytes.specs.Text.{Text};

    ghost Value = { Option Text };

    ghost view = { λ n. if n.fits then Some n.bytes.items else None };
}

impl ShortName {
    /// The empty name.
    pub(crate) fn new() -> ShortName
        ensures { result ≡ Some [] }
    {
        ShortName {
            bytes: ArrayVec::new(),
            fits: true,
        }
    }

    /// Puts more after the name, unless it is too long then.
    pub(crate) fn push(&mut self, more: &[u8])
        ensures { self.new ≡ lengthened self.old more.now }
    {
        if self.bytes.try_extend_from_slice(more).is_err() {
            self.fits = false;
        }
    }

    /// Puts texts, each with a space before it, after the name; once that is too long, no more are looked at.
    #[tactic(auto, using(crate::proofs::Naming::long_stays))]
    fn push_others(&mut self, others: &[Vec<u8>])
        requires { lengthened self.old [] ≡ self.old }
        ensures { self.new ≡ lengthened self.old (flat_map (λ other. space ∷ other.items) others.now) }
    {
        for other in others {
            if !self.fits {
                return;
            }
            self.push(b" ");
            self.push(other);
        }
    }

    /// Puts texts with a space between each two after the name.
    pub(crate) fn push_spaced(&mut self, texts: &[Vec<u8>])
        ensures { self.new ≡ lengthened self.old (spaced (map (λ t. t.items) texts.now)) }
    {
        match texts.split_first() {
            Some((first, others)) => {
                self.push(first);
                self.push_others(others);
            }
            None => self.push(b""),
        }
    }

    /// Returns the name, unless it is too long.
    pub fn text(&self) -> Option<&[u8]>
        ensures { option_map (λ text. text.now) result ≡ self.now }
    {
        if self.fits {
            Some(self.bytes.as_slice())
        } else {
            None
        }
    }
}
