//! The texts of acts, rendered.
ghost use Rattle.std.specs.Prelude.{◌≡◌, [], IfOk, option_map};
ghost use Rattle.eval_rendering.specs.Rendering.{render};
ghost use Rattle.eval_rendering.specs.declared.rendered.Mode.TheVariants.{Plain};
ghost use Rattle.eval_acts.specs.ActTexts.{has_room, import_text, names_text, path_by, program_text, test_text, with_room, within_by};
ghost use Rattle.eval_acts.specs.Inner.{only_text, plain_command, text_of};

use device_core::Device;
use eval_rendering::{MAX_COMMAND_BYTES, MAX_PATH_BYTES, Mode, Rendered, render, render_text};
use eval_state::State;
use rule_tokens::{Piece, Template};
use std::alloc::{AllocError, Global};
use std::mem::replace;
use text_bytes::{Bytes, Profile, begins_with};

/// A rendered text, of which udev takes at most so many bytes.
fn within_by(profile: Profile, most: usize, text: Rendered) -> Rendered
    ensures { result ≡ within_by profile most text }
{
    match profile {
        Profile::Manual => text,
        Profile::Udev => text.within(most),
    }
}

/// Whether udev has room for a path with `/sys`, the path of a device and a slash before it; an absolute one is
/// looked at as it is.
fn has_room(device: &Device<'_>, path: &[u8]) -> bool
    ensures { result ≡ has_room device.now path.now }
{
    let room = MAX_PATH_BYTES - b"/sys/".len();
    begins_with(b'/', path) || (path.len() <= room && device.path().len() <= room - path.len())
}

/// A path of TEST, for which there has to be room with the device's folder before it as well.
fn with_room(device: &Device<'_>, text: Rendered) -> Rendered
    ensures { result ≡ with_room device.now text }
{
    match text {
        Rendered::Text(path) => {
            if has_room(device, path.as_slice()) {
                Rendered::Text(path)
            } else {
                Rendered::TooLong
            }
        }
        Rendered::TooLong => Rendered::TooLong,
    }
}

/// The path of TEST, by the event device.
fn path_by(profile: Profile, device: &Device<'_>, text: Rendered) -> Rendered
    ensures { result ≡ path_by profile device.now text }
{
    match profile {
        Profile::Manual => text,
        Profile::Udev => with_room(device, text.within(MAX_PATH_BYTES)),
    }
}

/// The path of TEST. For udev it may have 1,023 bytes, and so may a relative one with `/sys`, the path of the event
/// device and a slash before it.
pub fn test_text(
    alloc: Global,
    template: &Template,
    state: &State<'_>,
) -> Result<Rendered, AllocError>
    ensures { IfOk result (λ text. text ≡ test_text template.now state.now) }
{
    let text = render(alloc, template, state, Mode::Plain)?;
    let event = state.event.event();
    Ok(path_by(event.profile(), event.device(), text))
}

/// A template, rendered with an empty result.
fn render_without_result(
    alloc: Global,
    template: &Template,
    state: &mut State<'_>,
) -> Result<Rendered, AllocError>
    ensures text { IfOk result (λ text. text ≡ render template.now (record state.old { result = [] }) Plain) }
    ensures kept { state.new ≡ state.old }
{
    let kept = replace(&mut state.result, Bytes::new(Vec::new(alloc)));
    let text = render(alloc, template, state, Mode::Plain);
    state.result = kept;
    text
}

/// The command of PROGRAM. For udev it may have 16,383 bytes, and the earlier result is empty in it. The state is
/// the same before and after.
pub fn program_text(
    alloc: Global,
    template: &Template,
    state: &mut State<'_>,
) -> Result<Rendered, AllocError>
    ensures text { IfOk result (λ text. text ≡ program_text template.now state.old) }
    ensures kept { state.new ≡ state.old }
{
    match state.event.event().profile() {
        Profile::Manual => render(alloc, template, state, Mode::Plain),
        Profile::Udev => {
            let text = render_without_result(alloc, template, state)?;
            Ok(text.within(MAX_COMMAND_BYTES))
        }
    }
}

/// The text of a piece that is not a substitution.
fn text_of(piece: &Piece) -> Option<&[u8]>
    ensures { option_map (λ t. t.now) result ≡ text_of piece.now }
{
    match piece {
        Piece::Plain(text) => Some(text.as_slice()),
        _ => None,
    }
}

/// The text of the only piece, if it is not a substitution.
fn only_text(pieces: &[Piece]) -> Option<&[u8]>
    ensures { option_map (λ t. t.now) result ≡ only_text pieces.now }
{
    let (piece, others) = pieces.split_first()?;
    if others.is_empty() {
        text_of(piece)
    } else {
        None
    }
}

/// The text of a command without substitutions, as it stands in its rule, if each profile has room for it.
pub(crate) fn plain_command(template: &Template) -> Option<&[u8]>
    ensures { option_map (λ t. t.now) result ≡ plain_command template.now.pieces }
{
    let text = only_text(template.pieces())?;
    if text.len() > MAX_COMMAND_BYTES {
        None
    } else {
        Some(text)
    }
}

/// The value of an IMPORT, rendered, which for udev may have so many bytes.
pub fn import_text(
    alloc: Global,
    most: usize,
    template: &Template,
    state: &State<'_>,
) -> Result<Rendered, AllocError>
    ensures { IfOk result (λ text. text ≡ import_text most template.now state.now) }
{
    let text = render(alloc, template, state, Mode::Plain)?;
    Ok(within_by(state.event.event().profile(), most, text))
}

/// The value of IMPORT{parent} as udev renders it, of at most 1,023 bytes.
pub fn names_text(alloc: Global, text: &[u8], state: &State<'_>) -> Result<Rendered, AllocError>
    ensures { IfOk result (λ rendered. rendered ≡ names_text text.now state.now) }
{
    Ok(render_text(alloc, text, state)?.within(MAX_PATH_BYTES))
}
