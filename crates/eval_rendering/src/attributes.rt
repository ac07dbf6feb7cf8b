//! The attributes that are put into texts.
ghost use Rattle.std.specs.Prelude.{◌≡◌, ◌≤◌, length, option_copied, option_map};
ghost use Rattle.std.specs.List.{list_any, suffix_len};
ghost use Rattle.std.specs.Option.{option_and_then};
ghost use Rattle.eval_state.specs.Chains.{device_at};
ghost use Rattle.eval_state.specs.Named.{named_place};
ghost use Rattle.eval_rendering.specs.Pieces.{as_read, attribute, attribute_as, attribute_of, attribute_read};
ghost use Rattle.eval_rendering.specs.Pieces.{cut_off, ends_line, has_long, is_long};
ghost use Rattle.eval_rendering.specs.Pieces.{named_attribute, selected_device};

use crate::bounds::MAX_VALUE_BYTES;
use crate::paths::read_value;
use crate::udev::capped;
use device_core::Device;
use eval_state::{Named, State};
use rule_tokens::{Piece, Template};
use text_bytes::Profile;

/// The device that is selected.
pub(crate) fn selected_device<'a>(state: &State<'a>) -> Option<&'a Device<'a>>
    ensures { option_copied result ≡ selected_device state.now }
{
    match state.selected {
        Some(place) => state.event.device_at(place),
        None => None,
    }
}

/// An attribute, of the event device or else of the selected one.
fn attribute<'a>(state: &State<'a>, name: &[u8]) -> Option<&'a [u8]>
    ensures { option_map (λ value. value.now) result ≡ attribute name.now state.now }
{
    match state.event.device().attrs().get(name) {
        Some(value) => Some(value),
        None => selected_device(state)?.attrs().get(name),
    }
}

/// An attribute as udev reads it, for the event device or else for the selected one.
fn attribute_read<'a>(state: &State<'a>, name: &[u8]) -> Option<&'a [u8]>
    ensures { option_map (λ value. value.now) result ≡ attribute_read name.now state.now }
{
    match read_value(&state.event, state.event.device(), name) {
        Some(value) => Some(value),
        None => read_value(&state.event, selected_device(state)?, name),
    }
}

/// The attribute of a device of the chain that is named with its device, if the device is there.
fn attribute_there<'a>(state: &State<'a>, named: &Named<'_>) -> Option<&'a [u8]>
    ensures { option_map (λ value. value.now) result
        ≡ option_map (attribute_of named.now.attribute) (option_and_then (device_at state.now.event) (named_place named.now state.now.event)) }
{
    let place = state.event.named_place(named)?;
    let device = state.event.device_at(place)?;
    Some(device.attrs().get(named.attribute).unwrap_or(b""))
}

/// The attribute of a device that is named with its device, as `[SUBSYSTEM/KERNEL]ATTRIBUTE`; if the device is not in the chain, what
/// the event device has under the whole name.
fn named_attribute<'a>(state: &State<'a>, name: &[u8]) -> Option<&'a [u8]>
    ensures { option_map (λ value. value.now) result ≡ named_attribute name.now state.now.event }
{
    let named = Named::read(name)?;
    if named.attribute.is_empty() {
        return None;
    }
    match attribute_there(state, &named) {
        Some(value) => Some(value),
        None => state.event.device().attrs().get(name),
    }
}

/// Whether a byte ends a line: a newline or a carriage return.
pub fn ends_line(byte: u8) -> bool
    ensures { result ≡ ends_line byte }
{
    byte == b'\n' || byte == b'\r'
}

/// How many ends of lines a text ends in.
fn line_ends(text: &[u8]) -> usize
    ensures value { result ≡ suffix_len ends_line text.now }
    ensures within { result ≤ length text.now }
{
    text.iter()
        .rev()
        .take_while(|byte| ends_line(**byte))
        .count()
}

/// An attribute as udev (systemd 257) reads it: without the newlines and carriage returns at its end.
pub fn as_read(value: &[u8]) -> &[u8]
    ensures { result.now ≡ as_read value.now }
{
    value.split_at(value.len() - line_ends(value)).0
}

/// As much of an attribute that names its device as udev puts in.
pub(crate) fn cut_off(value: &[u8]) -> &[u8]
    ensures { result.now ≡ cut_off value.now }
{
    capped(as_read(value))
}

/// The attribute that is put into a text, as the device has it; empty if there is none. For udev that of a device that the name also
/// names, cut off after its first 511 bytes, or else that of the event device or the selected one, without the ends of lines at its end.
pub(crate) fn attribute_as<'a>(profile: Profile, state: &State<'a>, name: &[u8]) -> &'a [u8]
    ensures { result.now ≡ attribute_as profile name.now state.now }
{
    match profile {
        Profile::Manual => attribute(state, name).unwrap_or(b""),
        Profile::Udev => match named_attribute(state, name) {
            Some(value) => cut_off(value),
            None => as_read(attribute_read(state, name).unwrap_or(b"")),
        },
    }
}

/// Whether a piece is an attribute of more bytes than udev puts in.
fn is_long(state: &State<'_>, piece: &Piece) -> bool
    ensures { result ≡ is_long state.now piece.now }
{
    match piece {
        Piece::Attr(name) => {
            attribute_as(Profile::Udev, state, name.as_slice()).len() > MAX_VALUE_BYTES
        }
        _ => false,
    }
}

/// Whether one of these pieces is an attribute of more bytes than udev puts in.
fn any_is_long(state: &State<'_>, pieces: &[Piece]) -> bool
    ensures { result ≡ list_any (is_long state.now) pieces.now }
{
    pieces.iter().any(|piece| is_long(state, piece))
}

/// Whether a template is too long whatever the length of its text is: for udev if one of its attributes is.
pub(crate) fn has_long(state: &State<'_>, template: &Template) -> bool
    ensures { result ≡ has_long state.now.event.profile state.now template.now.pieces }
{
    match state.event.event().profile() {
        Profile::Manual => false,
        Profile::Udev => any_is_long(state, template.pieces()),
    }
}
