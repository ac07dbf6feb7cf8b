//! The attributes that a text asks for and that a dry run does not read.
ghost use Rattle.std.specs.Prelude.{◌≡◌, ◌++◌, OnErr, OnOk, option_map};
ghost use Rattle.eval_acts.specs.Unread.{first_unread, unread_in, unread_noted, unread_notes};

use eval_rendering::is_not_read;
use eval_state::{Chain, NoteKind, Scene};
use rule_tokens::{Piece, Template};
use rule_types::Rule;
use std::alloc::{AllocError, Global};

/// The name of the attribute that a piece stands for, if udev would read that and a dry run does not.
fn unread_in<'p>(chain: &Chain<'_>, piece: &'p Piece) -> Option<&'p [u8]>
    ensures { option_map (λ name. name.now) result ≡ unread_in chain.now piece.now }
{
    match piece {
        Piece::Attr(name) => {
            if is_not_read(name.as_slice(), chain) {
                Some(name.as_slice())
            } else {
                None
            }
        }
        _ => None,
    }
}

/// The name of the first such attribute among these pieces.
#[tactic(auto, unfolding(crate::specs::Unread::first_unread))]
pub fn first_unread<'p>(chain: &Chain<'_>, pieces: &'p [Piece]) -> Option<&'p [u8]>
    ensures { option_map (λ name. name.now) result ≡ first_unread chain.now pieces.now }
{
    for piece in pieces {
        if let Some(name) = unread_in(chain, piece) {
            return Some(name);
        }
    }
    None
}

/// Leaves a note on an attribute that is not read, if there is one.
#[tactic(auto, using(crate::proofs::Nothing::nothing_noted))]
fn note_name(
    alloc: Global,
    rule: &Rule,
    name: Option<&[u8]>,
    scene: &mut Scene<'_>,
) -> Result<(), AllocError>
    ensures scene { OnOk result (scene.new ≡ record scene.old { notes = scene.old.notes ++ unread_notes rule.now (option_map (λ t. t.now) name.entry) }) }
    ensures refused { OnErr result (scene.new ≡ scene.old) }
{
    match name {
        Some(name) => scene.note(alloc, rule, NoteKind::AttributeNotRead, name),
        None => Ok(()),
    }
}

/// Leaves a note on the first attribute in a text that udev (systemd 257) would read where the text is rendered, and a
/// dry run does not: one of a device that the block does not have. Its substitution is empty.
///
/// If memory runs out, the scene stays as it is.
pub(crate) fn note_unread(
    alloc: Global,
    rule: &Rule,
    template: &Template,
    scene: &mut Scene<'_>,
) -> Result<(), AllocError>
    ensures scene { OnOk result (scene.new ≡ unread_noted rule.now template.now scene.old) }
    ensures refused { OnErr result (scene.new ≡ scene.old) }
{
    let name = first_unread(&scene.state.event, template.pieces());
    note_name(alloc, rule, name, scene)
}
