//! What each substitution is replaced with.
//!
//! Most of it is borrowed from the event or its state; what has to be changed is made. The links, which can have
//! any number of bytes, are joined only as far as a rendered text may go.
ghost use Rattle.std.specs.Prelude.{◌≡◌, OnOk, IfOk, option_map, unwrap_or, codes};
ghost use Rattle.std.specs.Option.{option_and_then};
ghost use Rattle.eval_state.specs.Chains.{kernel_of};
ghost use Rattle.eval_state.specs.Start.{node_path};
ghost use Rattle.eval_state.specs.Texts.{or_empty};
ghost use Rattle.eval_rendering.specs.Bounds.{bounded, joined};
ghost use Rattle.eval_rendering.specs.Pieces.{own_name, parent_node, piece_text, selected_device};
ghost use Rattle.eval_rendering.specs.Shown.{shown};
ghost use Rattle.text_bytes.specs.Underscores.{underscored};

use crate::attributes::attribute_as;
use crate::bounded_text::BoundedText;
use crate::spaced_words::spaced_word;
use crate::upward;
use crate::words::{from_word, number_as, word_at};
use eval_state::{State, node_path};
use rule_tokens::Piece;
use std::alloc::{AllocError, Global};
use text_bytes::{Profile, attribute_safe, trimmed, underscored};

/// The text of a piece.
#[derive(Drop)]
pub(crate) enum PieceText<'s> {
    /// One that is borrowed.
    Borrowed(&'s [u8]),
    /// One that was made for the piece.
    Made(Vec<u8>),
    /// Several that are borrowed, joined by spaces.
    Spaced(&'s [Vec<u8>]),
}

impl<'s> PieceText<'s> {
    /// Appends the text to another.
    pub(crate) fn push_to(&self, text: &mut BoundedText) -> Result<(), AllocError>
        ensures { OnOk result (text.new ≡ joined text.old (shown self.now)) }
    {
        match self {
            PieceText::Borrowed(found) => text.push(found),
            PieceText::Made(found) => text.push(found),
            PieceText::Spaced(found) => text.push_spaced(found),
        }
    }

    /// The text as one word; if it is too long, perhaps only so much of it that it is still too long.
    pub(crate) fn to_word(&self, alloc: Global) -> Result<Vec<u8>, AllocError>
        ensures { IfOk result (λ word. bounded word.items ≡ bounded (underscored (shown self.now))) }
    {
        match self {
            PieceText::Borrowed(found) => underscored(alloc, found),
            PieceText::Made(found) => underscored(alloc, found),
            PieceText::Spaced(found) => spaced_word(alloc, found),
        }
    }
}

/// The kernel's name of the device at the place that is selected, empty if none is.
pub(crate) fn kernel_at<'s>(state: &'s State<'_>, selected: Option<usize>) -> &'s [u8]
    ensures { result.now ≡ or_empty (option_map kernel_of (selected_device (record state.now { selected = selected }))) }
{
    match selected {
        Some(place) => state.event.kernel_at(place).unwrap_or(b""),
        None => b"",
    }
}

/// The driver of the device at the place that is selected, empty if there is none.
pub(crate) fn driver_at<'a>(state: &State<'a>, selected: Option<usize>) -> &'a [u8]
    ensures { result.now ≡ or_empty (option_and_then (λ device. device.driver) (selected_device (record state.now { selected = selected }))) }
{
    match selected {
        Some(place) => upward::driver_at(state, place),
        None => b"",
    }
}

/// The first part of the device number, or 0.
pub(crate) fn major<'a>(state: &State<'a>) -> &'a [u8]
    ensures { result.now ≡ unwrap_or (option_map (λ number. number.major) state.now.event.device.number) (codes "0") }
{
    match state.event.device().number() {
        Some(number) => number.major(),
        None => b"0",
    }
}

/// The second part of the device number, or 0.
pub(crate) fn minor<'a>(state: &State<'a>) -> &'a [u8]
    ensures { result.now ≡ unwrap_or (option_map (λ number. number.minor) state.now.event.device.number) (codes "0") }
{
    match state.event.device().number() {
        Some(number) => number.minor(),
        None => b"0",
    }
}

/// The node of the second device of the chain, empty if there is none.
pub(crate) fn parent_node<'a>(state: &State<'a>) -> &'a [u8]
    ensures { result.now ≡ or_empty (parent_node state.now) }
{
    match state.event.device_at(1) {
        Some(parent) => parent.node().unwrap_or(b""),
        None => b"",
    }
}

/// The assigned name, else the device's own: the kernel's, or for udev the node if there is one.
pub(crate) fn name<'s>(profile: Profile, state: &'s State<'_>) -> &'s [u8]
    ensures { result.now ≡ unwrap_or state.now.name (own_name profile state.now.event.device) }
{
    if let Some(name) = &state.name {
        return name.as_slice();
    }
    match profile {
        Profile::Manual => state.event.kernel(),
        Profile::Udev => state.event.device().node().unwrap_or(state.event.kernel()),
    }
}

/// The path of the event device's node, empty if there is none.
fn devnode(alloc: Global, node: Option<&[u8]>) -> Result<Vec<u8>, AllocError>
    ensures { IfOk result (λ path. path.items ≡ or_empty (option_map (λ n. node_path n.now) node.entry)) }
{
    match node {
        Some(node) => Ok(node_path(alloc, node)?.into_vec()),
        None => Ok(Vec::new(alloc)),
    }
}

/// What a piece is replaced with.
pub(crate) fn piece_text<'s>(
    alloc: Global,
    state: &'s State<'_>,
    piece: &'s Piece,
) -> Result<PieceText<'s>, AllocError>
    ensures { IfOk result (λ text. shown text ≡ piece_text state.now piece.now) }
{
    let profile = state.event.event().profile();
    let borrowed = match piece {
        Piece::Plain(text) => text.as_slice(),
        Piece::Kernel => state.event.kernel(),
        Piece::Number => number_as(profile, state.event.kernel()),
        Piece::Devpath => state.event.device().path(),
        Piece::Id => kernel_at(state, state.selected),
        Piece::Driver => driver_at(state, state.selected),
        Piece::Attr(name) => {
            let value = attribute_as(profile, state, name.as_slice());
            return Ok(PieceText::Made(attribute_safe(alloc, trimmed(value))?));
        }
        Piece::Env(name) => state.property(name.as_slice()),
        Piece::Major => major(state),
        Piece::Minor => minor(state),
        Piece::Result => state.result.as_slice(),
        Piece::Word(number) => word_at(number.saturating_sub(1), state.result.as_slice()),
        Piece::From(number) => from_word(number.saturating_sub(1), state.result.as_slice()),
        Piece::Parent => parent_node(state),
        Piece::Name => name(profile, state),
        Piece::Links => return Ok(PieceText::Spaced(state.links.as_slice())),
        Piece::Root => b"/dev",
        Piece::Sys => b"/sys",
        Piece::Devnode => {
            return Ok(PieceText::Made(devnode(alloc, state.event.device().node())?));
        }
    };
    Ok(PieceText::Borrowed(borrowed))
}
