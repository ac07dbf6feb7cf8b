//! The attributes that udev reads for a device: its own, those to which a path leads from its folder in sysfs, links, and those behind
//! the link `device`.
ghost use Rattle.std.specs.Prelude.{◌≡◌, ◌==◌, Some, fold, option_copied, option_map};
ghost use Rattle.eval_rendering.specs.Paths.{asked_below, asked_in, is_path_untold, is_unread, led_place, led_value};
ghost use Rattle.eval_rendering.specs.Paths.{left_after, linked_value, other_value, read_value};

use crate::behind::{is_name_untold, value_behind};
use device_core::Device;
use eval_state::Chain;
use text_bytes::{begins_with, following};

/// What a path asks for after a byte of the folders that it has to leave: at a slash, of `../` and more what comes after that.
fn left_after<'n>(name: Option<&'n [u8]>, byte: u8) -> Option<&'n [u8]>
    ensures { option_map (λ t. t.now) result ≡ left_after (option_map (λ t. t.now) name.entry) byte }
{
    if byte == b'/' {
        following(b"../", name?)
    } else {
        name
    }
}

/// What a path asks for once it has left folders, of which each begins with a slash.
fn left_all<'n>(name: &'n [u8], folders: &[u8]) -> Option<&'n [u8]>
    ensures { option_map (λ t. t.now) result ≡ fold left_after (Some name.now) folders.now }
{
    let mut left = Some(name);
    for byte in folders {
        left = left_after(left, *byte);
    }
    left
}

/// What a path asks for once it has left all folders that are below a device's own, if it leads up no further.
fn asked_below<'n>(name: &'n [u8], folders: &[u8]) -> Option<&'n [u8]>
    ensures { option_map (λ t. t.now) result ≡ asked_below name.now folders.now }
{
    if !folders.is_empty() && !begins_with(b'/', folders) {
        return None;
    }
    let left = left_all(following(b"./", name).unwrap_or(name), folders)?;
    if begins_with(b'.', left) {
        None
    } else {
        Some(left)
    }
}

/// The name that a path asks for in the folder of a device, from the folder of one below it or from its own.
fn asked_in<'n>(from: &[u8], name: &'n [u8], device: Option<&Device<'_>>) -> Option<&'n [u8]>
    ensures { option_map (λ t. t.now) result ≡ asked_in from.now name.now (option_copied device.entry) }
{
    let folders = following(device?.path(), from)?;
    asked_below(name, folders)
}

/// The place in the chain of the device to whose folder a path leads.
#[tactic(auto, unfolding(crate::specs::Paths::led_place))]
fn led_place(chain: &Chain<'_>, from: &[u8], name: &[u8]) -> Option<usize>
    ensures { result ≡ led_place from.now name.now chain.now }
{
    (0..chain.event().device_count()).position(|place| asked_in(
        from,
        name,
        chain.device_at(place),
    ).is_some())
}

/// The attribute to which a path leads from a folder.
fn led_value<'a>(chain: &Chain<'a>, from: &[u8], name: &[u8]) -> Option<&'a [u8]>
    ensures { option_map (λ t. t.now) result ≡ led_value chain.now from.now name.now }
{
    let place = led_place(chain, from, name)?;
    let device = chain.device_at(place)?;
    device.attrs().get(asked_in(from, name, Some(device))?)
}

/// The last component of the link to the driver or the subsystem of a device.
fn linked_value<'a>(device: &'a Device<'a>, name: &[u8]) -> Option<&'a [u8]>
    ensures { option_map (λ t. t.now) result ≡ linked_value device.now name.now }
{
    if name == b"driver".as_slice() {
        device.driver()
    } else if name == b"subsystem".as_slice() {
        device.subsystem()
    } else {
        None
    }
}

/// What the block does not have under a name as it is written: the attribute to which a path leads, a link, or an attribute behind
/// the link `device`.
fn other_value<'a>(chain: &Chain<'a>, device: &'a Device<'a>, name: &[u8]) -> Option<&'a [u8]>
    ensures { option_map (λ t. t.now) result ≡ other_value chain.now device.now name.now }
{
    if begins_with(b'.', name) {
        return led_value(chain, device.path(), name);
    }
    match linked_value(device, name) {
        Some(value) => Some(value),
        None => value_behind(chain, device, name),
    }
}

/// The attribute that udev (systemd 257) reads for a device of an event, as far as the block has it: what the block has
/// under the name goes first. A name that begins with `../` or `./` is a path from the device's folder in sysfs, and may
/// ask for an attribute of a device above it in the chain. Of the links `driver` and `subsystem` the last component is
/// read, which is what the block calls the device's driver and its subsystem. `device/NAME` is the attribute NAME of the next device
/// above, if the device is of a class and no partition: the kernel then links to it.
pub fn read_value<'a>(chain: &Chain<'a>, device: &'a Device<'a>, name: &[u8]) -> Option<&'a [u8]>
    ensures { option_map (λ t. t.now) result ≡ read_value chain.now device.now name.now }
{
    match device.attrs().get(name) {
        Some(value) => Some(value),
        None => other_value(chain, device, name),
    }
}

/// Whether a path leads from the folder of a device to what the block does not have and does not deny: to no device of the chain, or
/// there into another folder.
fn is_path_untold<'a>(chain: &Chain<'a>, device: &'a Device<'a>, name: &[u8]) -> bool
    ensures { result ≡ is_path_untold chain.now device.now name.now }
{
    if read_value(chain, device, name).is_some() {
        return false;
    }
    let Some(place) = led_place(chain, device.path(), name) else {
        return true;
    };
    match asked_in(device.path(), name, chain.device_at(place)) {
        Some(asked) => asked.contains(&b'/'),
        None => true,
    }
}

/// Whether udev may read something for a device under a name of which the block tells nothing: a path that begins with `.` and leads
/// above the device to no device of the chain, or below such a device into another folder; a file that has no value of one line; and
/// a name that leads into a folder of which the block shows nothing, behind the link `device` too.
#[tactic(auto, unfolding(crate::specs::Paths::is_unread))]
pub fn is_unread<'a>(chain: &Chain<'a>, device: &'a Device<'a>, name: &[u8]) -> bool
    ensures { result ≡ is_unread chain.now device.now name.now }
{
    if begins_with(b'.', name) {
        is_path_untold(chain, device, name)
    } else {
        is_name_untold(chain, device, name)
    }
}
