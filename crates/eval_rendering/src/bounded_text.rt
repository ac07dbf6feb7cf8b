//! A text that is built piece by piece and never over a bound.
ghost use Rattle.std.specs.Prelude.{◌≡◌, ◌∷◌, [], Some, OnOk, flat_map, is_some, map, option_map};
ghost use Rattle.text_bytes.specs.Names.{space};
ghost use Rattle.eval_rendering.specs.Bounds.{joined};
ghost use Rattle.eval_rendering.specs.Words.{spaced};

use crate::bounds::MAX_BYTES;
use std::alloc::{AllocError, Global};
use std::marker::Model;

/// A text so far, or that it is too long.
#[derive(Drop)]
pub(crate) struct BoundedText {
    text: Vec<u8>,
    fits: bool,
}

impl Model for BoundedText {
    ghost use Rattle.std.specs.Prelude.{◌≤◌, length, Option, Some, None, if◌then◌else◌};
    ghost use Rattle.text_bytes.specs.Text.{Text};
    ghost use Rattle.eval_rendering.specs.Bounds.{most_bytes};

    ghost Value = { Option Text };

    ghost view = { λ b. if b.fits then Some b.text.items else None };

    ghost invariant = { λ b. length b.text.items ≤ most_bytes };
}

impl BoundedText {
    /// The empty text.
    pub(crate) fn new(alloc: Global) -> BoundedText
        ensures { result ≡ Some [] }
    {
        BoundedText {
            text: Vec::new(alloc),
            fits: true,
        }
    }

    /// Appends more to the text, unless it is then too long.
    pub(crate) fn push(&mut self, more: &[u8]) -> Result<(), AllocError>
        ensures { OnOk result (self.new ≡ joined self.old more.now) }
    {
        if more.len() > MAX_BYTES - self.text.len() {
            self.fits = false;
        } else {
            self.text.extend_from_slice(more)?;
        }
        Ok(())
    }

    /// Appends texts, joined by spaces, until the text is too long.
    pub(crate) fn push_spaced(&mut self, texts: &[Vec<u8>]) -> Result<(), AllocError>
        ensures { OnOk result (self.new ≡ joined self.old (spaced (map (λ t. t.items) texts.now))) }
    {
        match texts.split_first() {
            Some((first, others)) => {
                self.push(first)?;
                self.push_others(others)
            }
            None => self.push(b""),
        }
    }

    /// Appends texts, each with a space before it, until the text is too long.
    fn push_others(&mut self, others: &[Vec<u8>]) -> Result<(), AllocError>
        requires { joined self.old [] ≡ self.old }
        ensures { OnOk result (self.new ≡ joined self.old (flat_map (λ other. space ∷ other.items) others.now)) }
    {
        for other in others {
            if !self.fits {
                return Ok(());
            }
            self.push(b" ")?;
            self.push(other)?;
        }
        Ok(())
    }

    /// Whether the text is not too long.
    pub(crate) fn fits(&self) -> bool
        ensures { result ≡ is_some self.now }
    {
        self.fits
    }

    /// Returns the text, unless it is too long.
    pub(crate) fn into_text(self) -> Option<Vec<u8>>
        ensures { option_map (λ text. text.items) result ≡ self }
    {
        let BoundedText { text, fits } = self;
        if fits { Some(text) } else { None }
    }
}
