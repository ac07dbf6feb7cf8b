//! The devices that a path shows.
ghost use Rattle.std.specs.Prelude.{◌≡◌, ◌≤◌, IfOk, length, map, option_map};
ghost use Rattle.builtin_core.specs.Paths.{is_usb, kind_at, shown_before, shown_paths};

use crate::kinds::{Kind, kind_of};
use std::alloc::{AllocError, Global};
use text_bytes::last_component;

/// The kind of device that the last component of a path says.
#[tactic(auto, unfolding(crate::specs::Paths::kind_at))]
pub(crate) fn kind_at(path: &[u8]) -> Option<Kind>
    ensures { result ≡ kind_at path.now }
{
    kind_of(last_component(path))
}

/// The path of the device that a path shows before a place, if a component of the path ends there.
#[tactic(auto, unfolding(crate::specs::Paths::shown_before))]
fn shown_before(path: &[u8], place: usize) -> Option<&[u8]>
    requires { place ≤ length path.now }
    ensures { option_map (λ t. t.now) result ≡ shown_before path.now place }
{
    let (own, _) = path.split_at(place);
    if (place == path.len() || path[place] == b'/') && kind_at(own).is_some() {
        Some(own)
    } else {
        None
    }
}

/// The paths of the devices that a path shows, its own among them, the nearest first.
#[tactic(auto, using(builtin_devices::proofs::Places::place_none, builtin_devices::proofs::Places::place_some), unfolding(crate::specs::Paths::shown_paths))]
pub(crate) fn shown_paths(alloc: Global, path: &[u8]) -> Result<Vec<&[u8]>, AllocError>
    ensures { IfOk result (λ paths. map (λ t. t.now) paths.items ≡ shown_paths path.now) }
{
    let mut paths = Vec::new(alloc);
    for place in (0..path.len() + 1).rev() {
        if let Some(own) = shown_before(path, place) {
            paths.push(own)?;
        }
    }
    Ok(paths)
}

/// Whether this is the kind of a USB device.
pub(crate) fn is_usb(kind: Option<Kind>) -> bool
    ensures { result ≡ is_usb kind }
{
    matches!(kind, Some(Kind::UsbDevice))
}
