//! The devices above a path, each under the length of its own path.
ghost use Rattle.std.specs.Prelude.{◌≡◌, ◌∷◌, ◌<◌, [], ℕ, OnOk, length};
ghost use Rattle.std.specs.Option.{option_or};
ghost use Rattle.builtin_devices.specs.Upward.{device_at, first_before, is_above};

use device_core::Device;
use indexmap::IndexMap;
use std::alloc::AllocError;

/// Whether a path begins with another, which is not empty, and a slash.
#[tactic(auto, unfolding(crate::specs::Upward::is_above))]
fn is_above(own: &[u8], path: &[u8]) -> bool
    ensures { result ≡ is_above own.now path.now }
{
    let place = own.len();
    place < path.len() && place > 0 && path[place] == b'/' && own == path.split_at(place).0
}

/// Adds a device if it is above the path and none of its path is there.
pub(crate) fn add_device<'d, 'a>(
    path: &[u8],
    device: &'d Device<'a>,
    above: &mut IndexMap<usize, &'d Device<'a>>,
) -> Result<(), AllocError>
    ensures { OnOk result ((place : ℕ) → place < length path.now
        → device_at above.new place ≡ option_or (device_at above.old place) (first_before (device.now ∷ []) path.now place)) }
{
    let own = device.path();
    if is_above(own, path) {
        above.entry(own.len())?.or_insert(device);
    }
    Ok(())
}

/// Adds those of some devices that are above the path; where two have one path, the first stays.
#[tactic(auto, using(crate::proofs::FirstDevices::none_more, crate::proofs::FirstDevices::one_more))]
pub(crate) fn add_devices<'d, 'a>(
    path: &[u8],
    devices: &'d [Device<'a>],
    above: &mut IndexMap<usize, &'d Device<'a>>,
) -> Result<(), AllocError>
    ensures { OnOk result ((place : ℕ) → place < length path.now
        → device_at above.new place ≡ option_or (device_at above.old place) (first_before devices.now path.now place)) }
{
    for device in devices {
        add_device(path, device, above)?;
    }
    Ok(())
}
