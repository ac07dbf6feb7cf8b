//! A value with substitutions, as a whole.
ghost use Rattle.std.specs.Prelude.{◌≡◌, ◌≢◌, Ok, Err, MatchResult};
ghost use Rattle.rule_tokens.specs.Faults.{Gives};
ghost use Rattle.rule_tokens.specs.TemplateReading.{left_of, pieces_as, pieces_of};
ghost use Rattle.rule_tokens.specs.Template.{IsReadFrom};
ghost use Rattle.rule_tokens.specs.declared.fault.TemplateFault.TheVariants.{Memory};

use crate::fault::TemplateFault;
use crate::piece::Piece;
use crate::reading::{first_piece, kept};
use std::alloc::Global;
use std::marker::Model;
use text_bytes::{Bytes, Profile};

/// A value with substitutions, as rules assign it.
#[derive(Drop)]
pub struct Template {
    written: Bytes,
    pieces: Vec<Piece>,
}

impl Model for Template {
    ghost use Rattle.rule_tokens.specs.Template.{Parts};

    ghost Value = { Parts };

    ghost view = { λ t. record { written = t.written; pieces = t.pieces.items } };
}

/// The pieces of a text.
fn pieces_of(alloc: Global, text: &[u8]) -> Result<Vec<Piece>, TemplateFault>
    ensures { Gives (λ pieces. pieces.items) result (pieces_of text.now) }
{
    let mut pieces = Vec::new(alloc);
    let mut rest = text;
    while let Some((byte, after)) = rest.split_first() {
        let (piece, left) = first_piece(alloc, rest, *byte, after)?;
        pieces.push(piece)?;
        rest = left;
    }
    Ok(pieces)
}

/// The pieces that udev takes from a text, whether or not it reports a fault. The fault is `Memory`.
fn left_of(alloc: Global, text: &[u8]) -> Result<Vec<Piece>, TemplateFault>
    ensures { Gives (λ pieces. pieces.items) result (Ok (left_of text.now)) }
{
    let mut pieces = Vec::new(alloc);
    let mut rest = text;
    while let Some((byte, after)) = rest.split_first() {
        let Some((cut, left)) = kept(rest, *byte, after) else {
            return Ok(pieces);
        };
        pieces.push(cut.copied(alloc)?)?;
        rest = left;
    }
    Ok(pieces)
}

/// The pieces of a text by a profile.
fn pieces_as(alloc: Global, profile: Profile, text: &[u8]) -> Result<Vec<Piece>, TemplateFault>
    ensures { Gives (λ pieces. pieces.items) result (pieces_as profile text.now) }
{
    match profile {
        Profile::Manual => pieces_of(alloc, text),
        Profile::Udev => left_of(alloc, text),
    }
}

impl Template {
    /// Reads a value as the manual has it: udev(7), "SUBSTITUTIONS". The fault is the first from the left; `Memory`
    /// comes only if an allocation fails.
    pub fn read(alloc: Global, text: &[u8]) -> Result<Template, TemplateFault>
        ensures { MatchResult result (λ t. IsReadFrom Profile.Manual text.now t) (λ e. e ≢ Memory → pieces_of text.now ≡ Err e) }
    {
        Template::read_as(alloc, Profile::Manual, text)
    }

    /// Reads a value by a profile.
    ///
    /// By the manual the fault is the first from the left. udev reads every text: a sign with an unknown name
    /// stands for itself, and at any other fault the pieces end. `Memory` comes only if an allocation fails.
    pub fn read_as(alloc: Global, profile: Profile, text: &[u8]) -> Result<Template, TemplateFault>
        ensures { MatchResult result (λ t. IsReadFrom profile text.now t) (λ e. e ≢ Memory → pieces_as profile text.now ≡ Err e) }
    {
        let pieces = pieces_as(alloc, profile, text)?;
        Ok(Template {
            written: Bytes::copy_of(alloc, text)?,
            pieces,
        })
    }

    /// Returns the text that was read.
    pub fn written(&self) -> &[u8]
        ensures { result.now ≡ self.now.written }
    {
        self.written.as_slice()
    }

    /// Returns the pieces, in order.
    pub fn pieces(&self) -> &[Piece]
        ensures { result.now ≡ self.now.pieces }
    {
        &self.pieces
    }
}
