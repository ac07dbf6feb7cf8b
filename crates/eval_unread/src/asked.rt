//! The first attribute that a search or an assignment asks for and that is not read.
ghost use Rattle.std.specs.Prelude.{◌≡◌, option_map};
ghost use Rattle.eval_rendering.specs.Subjects.{up_subject};
ghost use Rattle.eval_unread.specs.Unread.{is_rendered_for, name_unread, rendered_pieces, search_unread, unread_at, unread_of, unread_place};

use device_core::Device;
use eval_acts::first_unread;
use eval_assignments::{final_key, is_interface, is_settled, lacks_number};
use eval_rendering::{Attribute, attribute_at, found_place, holds_at};
use eval_state::{Scene, State};
use rule_tokens::Piece;
use rule_types::{Assignment, Change, Target, UpKey, UpMatch};

/// The name that a match of one device asks for at a place of the chain, if it looks at an attribute that is not read.
fn name_unread<'p>(key: &'p UpKey, state: &State<'_>, place: usize) -> Option<&'p [u8]>
    ensures { option_map (λ name. name.now) result ≡ name_unread key.now (up_subject key.now state.now place) }
{
    match key {
        UpKey::Attrs(name) => match attribute_at(state, place, name.as_slice()) {
            Attribute::NotRead => Some(name.as_slice()),
            _ => None,
        },
        _ => None,
    }
}

/// The same of the match by which the device at a place is given up: the first that does not hold there.
fn unread_at<'p>(parts: &'p [UpMatch], state: &State<'_>, place: usize) -> Option<&'p [u8]>
    ensures { option_map (λ name. name.now) result ≡ unread_at parts.now state.now place }
{
    for part in parts {
        if !holds_at(part, state, place) {
            return name_unread(&part.key, state, place);
        }
    }
    None
}

/// The place of the nearest device that is given up by such a match.
#[tactic(auto, unfolding(crate::specs::Unread::unread_place))]
fn unread_place(parts: &[UpMatch], state: &State<'_>) -> Option<usize>
    ensures { result ≡ unread_place parts.now state.now }
{
    let count = state.event.event().device_count();
    (0..count).position(|place| unread_at(parts, state, place).is_some())
}

/// The first attribute that a search for one device asks for and that is not read, if it finds none.
pub(crate) fn search_unread<'p>(parts: &'p [UpMatch], state: &State<'_>) -> Option<&'p [u8]>
    ensures { option_map (λ name. name.now) result ≡ search_unread parts.now state.now }
{
    if found_place(parts, state).is_some() {
        return None;
    }
    unread_at(parts, state, unread_place(parts, state)?)
}

/// Whether udev renders a text that is assigned to a key.
fn is_rendered_for(target: &Target, device: &Device<'_>) -> bool
    ensures { result ≡ is_rendered_for target.now device.now }
{
    match target {
        Target::Name => is_interface(device),
        _ => !lacks_number(target, device.number()),
    }
}

/// The pieces of the text that udev renders for an assignment.
fn rendered_pieces<'p>(change: &'p Change, device: &Device<'_>) -> &'p [Piece]
    ensures { result.now ≡ rendered_pieces change.now device.now }
{
    match change {
        Change::Option(_) => &[],
        Change::Text(target, template) => {
            if is_rendered_for(target, device) {
                template.pieces()
            } else {
                &[]
            }
        }
        Change::Run(_, template) => template.pieces(),
    }
}

/// The first attribute that an assignment asks for and that is not read: none if its key is final.
pub(crate) fn unread_of<'p>(scene: &Scene<'_>, assignment: &'p Assignment) -> Option<&'p [u8]>
    ensures { option_map (λ name. name.now) result ≡ unread_of scene.now assignment.now }
{
    let chain = &scene.state.event;
    let event = chain.event();
    if is_settled(final_key(event.profile(), &assignment.change), scene.finals) {
        return None;
    }
    first_unread(chain, rendered_pieces(&assignment.change, event.device()))
}
