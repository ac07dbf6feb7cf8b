//! The matches of one device, and the search for it along the chain.
ghost use Rattle.std.specs.Prelude.{◌≡◌};
ghost use Rattle.std.specs.List.{list_all};
ghost use Rattle.std.specs.Option.{option_and_then};
ghost use Rattle.eval_state.specs.Texts.{or_empty};
ghost use Rattle.eval_state.specs.Chains.{device_at};
ghost use Rattle.eval_rendering.specs.Holding.{holds};
ghost use Rattle.eval_rendering.specs.Subjects.{found_place, holds_at, members_by, tags_at};

use crate::holding::{Members, text_holds};
use crate::matched_attributes::{attribute_at, borrowed_holds};
use crate::plain::texts_hold;
use eval_state::State;
use rule_types::{Comparison, UpKey, UpMatch};

/// The subsystem of the device at a place, empty if there is none.
pub fn subsystem_at<'a>(state: &State<'a>, place: usize) -> &'a [u8]
    ensures { result.now ≡ or_empty (option_and_then (λ device. device.subsystem) (device_at state.now.event place)) }
{
    match state.event.device_at(place) {
        Some(device) => device.subsystem().unwrap_or(b""),
        None => b"",
    }
}

/// The driver of the device at a place, empty if there is none.
pub fn driver_at<'a>(state: &State<'a>, place: usize) -> &'a [u8]
    ensures { result.now ≡ or_empty (option_and_then (λ device. device.driver) (device_at state.now.event place)) }
{
    match state.event.device_at(place) {
        Some(device) => device.driver().unwrap_or(b""),
        None => b"",
    }
}

/// Whether a comparison holds for the tags of the device at a place.
fn tags_hold(wanted: &Comparison, state: &State<'_>, place: usize) -> bool
    ensures { result ≡ holds (members_by state.now.event.profile (tags_at state.now place)) wanted.now }
{
    if place == 0 {
        return texts_hold(wanted, state, &Members::Kept(state.tags.as_slice()));
    }
    match state.event.device_at(place) {
        Some(device) => texts_hold(wanted, state, &Members::Given(device.tags().as_slice())),
        None => texts_hold(wanted, state, &Members::Given(&[])),
    }
}

/// Whether a match of one device holds at a place of the chain; at a place without a device it is compared with an
/// empty text, no attribute and no tag. For udev, attributes and tags are compared as ATTR and TAG are, and an
/// attribute that is absent fails `==` and `!=`.
#[tactic(auto, unfolding(crate::specs::Subjects::holds_at))]
pub fn holds_at(part: &UpMatch, state: &State<'_>, place: usize) -> bool
    ensures { result ≡ holds_at state.now place part.now }
{
    let wanted = &part.wanted;
    match &part.key {
        UpKey::Kernels => text_holds(wanted, state.event.kernel_at(place).unwrap_or(b"")),
        UpKey::Subsystems => text_holds(wanted, subsystem_at(state, place)),
        UpKey::Drivers => text_holds(wanted, driver_at(state, place)),
        UpKey::Tags => tags_hold(wanted, state, place),
        UpKey::Attrs(name) => borrowed_holds(wanted, &attribute_at(state, place, name.as_slice())),
    }
}

/// Whether all of the matches hold at a place of the chain.
fn all_hold_at(parts: &[UpMatch], state: &State<'_>, place: usize) -> bool
    ensures { result ≡ list_all (holds_at state.now place) parts.now }
{
    parts.iter().all(|part| holds_at(part, state, place))
}

/// The place of the first device of the chain, from the event device up, at which all of the matches
/// hold together, as udev(7) has it of KERNELS, SUBSYSTEMS, DRIVERS, ATTRS and TAGS.
#[tactic(auto, unfolding(crate::specs::Subjects::found_place))]
pub fn found_place(parts: &[UpMatch], state: &State<'_>) -> Option<usize>
    ensures { result ≡ found_place parts.now state.now }
{
    (0..state.event.event().device_count()).position(|place| all_hold_at(parts, state, place))
}
