//! A template, rendered.
ghost use Rattle.std.specs.Prelude.{◌≡◌, IfOk, OnOk, option_map};
ghost use Rattle.eval_rendering.specs.Bounds.{joined};
ghost use Rattle.eval_rendering.specs.Rendering.{as_rendered, is_one_word, is_raw, render, rendered_as_udev, text_in};

use crate::attributes::has_long;
use crate::bounded_text::BoundedText;
use crate::pieces::piece_text;
use crate::rendered::{Mode, Rendered};
use eval_state::State;
use rule_tokens::{Piece, Template};
use std::alloc::{AllocError, Global};
use text_bytes::{Bytes, Profile, link_safe};

/// Whether a piece is put into a link as it is.
fn is_raw(piece: &Piece) -> bool
    ensures { result ≡ is_raw piece.now }
{
    match piece {
        Piece::Plain(_) => true,
        Piece::Result => true,
        Piece::Word(_) => true,
        Piece::From(_) => true,
        _ => false,
    }
}

/// Whether a piece is put in as one word.
fn is_one_word(mode: Mode, piece: &Piece) -> bool
    ensures { result ≡ is_one_word mode piece.now }
{
    match mode {
        Mode::Plain => false,
        Mode::Link => !is_raw(piece),
    }
}

/// Appends what a piece is replaced with.
fn push_piece(
    alloc: Global,
    text: &mut BoundedText,
    state: &State<'_>,
    piece: &Piece,
    mode: Mode,
) -> Result<(), AllocError>
    ensures { OnOk result (text.new ≡ joined text.old (text_in mode state.now piece.now)) }
{
    let found = piece_text(alloc, state, piece)?;
    if is_one_word(mode, piece) {
        let word = found.to_word(alloc)?;
        text.push(&word)
    } else {
        found.push_to(text)
    }
}

/// A text as it is returned: in a link it is made safe.
fn as_rendered(alloc: Global, text: Option<Vec<u8>>, mode: Mode) -> Result<Rendered, AllocError>
    ensures { IfOk result (λ rendered. rendered ≡ as_rendered mode (option_map (λ t. t.items) text)) }
{
    let Some(text) = text else {
        return Ok(Rendered::TooLong);
    };
    match mode {
        Mode::Plain => Ok(Rendered::Text(Bytes::new(text))),
        Mode::Link => Ok(Rendered::Text(Bytes::new(link_safe(alloc, &text)?))),
    }
}

/// A template with each substitution made from what is known about an event, as udev(7) has them. Over 16,384 bytes
/// it is [`TooLong`](Rendered::TooLong), and no piece after the first that does not fit is looked at.
///
/// For an event by udev's profile, `$name`, `$number` and `$attr` mean what they do in udev (systemd 257), and a
/// text is also [`TooLong`](Rendered::TooLong) if a substitution has an attribute of over 511 bytes; an attribute
/// that names its device, such as `$attr{[SUBSYSTEM/KERNEL]ATTRIBUTE}`, is cut off there instead.
///
/// In [`Link`](Mode::Link) each substitution except that of `$result` loses the whitespace at its ends, and each
/// run of it inside becomes one `_`; the whole is then made safe for a path.
#[tactic(auto, using(crate::proofs::Joining::joined_bounded), unfolding(crate::specs::Rendering::render))]
pub fn render(
    alloc: Global,
    template: &Template,
    state: &State<'_>,
    mode: Mode,
) -> Result<Rendered, AllocError>
    ensures { IfOk result (λ rendered. rendered ≡ render template.now state.now mode) }
{
    if has_long(state, template) {
        return Ok(Rendered::TooLong);
    }
    let mut text = BoundedText::new(alloc);
    for piece in template.pieces() {
        push_piece(alloc, &mut text, state, piece, mode)?;
        if !text.fits() {
            return Ok(Rendered::TooLong);
        }
    }
    as_rendered(alloc, text.into_text(), mode)
}

/// A text that udev renders only as it evaluates a rule, such as the name of a parameter: it is read as udev reads
/// templates, without what comes after a fault, and rendered as any text.
pub fn render_text(alloc: Global, text: &[u8], state: &State<'_>) -> Result<Rendered, AllocError>
    ensures { IfOk result (λ rendered. rendered ≡ rendered_as_udev text.now state.now) }
{
    match Template::read_as(alloc, Profile::Udev, text) {
        Ok(template) => render(alloc, &template, state, Mode::Plain),
        Err(_fault) => Err(AllocError),
    }
}
