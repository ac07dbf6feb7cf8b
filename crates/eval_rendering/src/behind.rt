//! The link `device` that the kernel puts into the folder of a device of a class, and what a block tells behind it and in folders.
ghost use Rattle.std.specs.Prelude.{◌≡◌, ◌==◌, false, option_copied, option_map};
ghost use Rattle.std.specs.List.{list_any, slice_split};
ghost use Rattle.text_bytes.specs.Names.{space};
ghost use Rattle.text_tables.specs.Pairs.{names};
ghost use Rattle.text_tables.specs.Texts.{same_text};
ghost use Rattle.eval_state.specs.Chains.{device_at};
ghost use Rattle.eval_rendering.specs.Behind.{is_above, is_long_of_pci, is_of_class, is_untold, is_untold_behind, is_untold_by, leads_into_hidden};
ghost use Rattle.eval_rendering.specs.Behind.{lies_in, linked_device, links_up, may_be_untold, next_above, place_above, rest_behind, value_behind};

use device_core::Device;
use eval_state::Chain;
use text_bytes::{begins_with, following, split_once};
use text_tables::Pairs;

/// Whether a path leads into a folder.
fn lies_in(folder: &[u8], path: &[u8]) -> bool
    ensures { result ≡ lies_in folder.now path.now }
{
    begins_with(b'/', following(folder, path).unwrap_or(b""))
}

/// Whether one of the words of a text is this one.
fn has_word(words: &[u8], wanted: &[u8]) -> bool
    ensures { result ≡ list_any (λ word. same_text word wanted.now) (slice_split (λ b. b == space) words.now) }
{
    words.split(|byte| *byte == b' ').any(|word| word == wanted)
}

/// Whether a device of a subsystem is of a class: that is none of the buses that the block names.
fn is_of_class(chain: &Chain<'_>, device: &Device<'_>, subsystem: &[u8]) -> bool
    ensures { result ≡ is_of_class chain.now device.now subsystem.now }
{
    let buses = chain.event().constants().get(b"bus").unwrap_or(b"");
    !has_word(buses, subsystem)
        && device.driver().is_none()
        && device.attrs().get(b"device").is_none()
}

/// Whether the kernel puts a link to the next device above into the folder of a device: one of a class that is no part of a disk.
fn links_up(chain: &Chain<'_>, device: &Device<'_>) -> bool
    ensures { result ≡ links_up chain.now device.now }
{
    match device.subsystem() {
        Some(subsystem) => {
            is_of_class(chain, device, subsystem)
                && device.env().get(b"DEVTYPE").unwrap_or(b"") != b"partition".as_slice()
        }
        None => false,
    }
}

/// Whether there is a device, and a path leads into its folder.
fn is_above(path: &[u8], device: Option<&Device<'_>>) -> bool
    ensures { result ≡ is_above path.now (option_copied device.entry) }
{
    match device {
        Some(device) => lies_in(device.path(), path),
        None => false,
    }
}

/// The place in the chain of the next device above a path.
#[tactic(auto, unfolding(crate::specs::Behind::place_above))]
fn place_above(chain: &Chain<'_>, path: &[u8]) -> Option<usize>
    ensures { result ≡ place_above path.now chain.now }
{
    (0..chain.event().device_count()).position(|place| is_above(path, chain.device_at(place)))
}

/// The next device above a device, if the block has one.
fn next_above<'a>(chain: &Chain<'a>, device: &Device<'_>) -> Option<&'a Device<'a>>
    ensures { option_copied result ≡ next_above chain.now device.now }
{
    chain.device_at(place_above(chain, device.path())?)
}

/// The device that the link `device` of a device leads to, if the kernel puts one there and the block has it: the next device above
/// one of a class that is no partition. A subsystem is a bus, and no class, if the block's `K: bus=` has it among its words, or if the
/// device has a driver or a file `device`.
pub fn linked_device<'a>(chain: &Chain<'a>, device: &Device<'_>) -> Option<&'a Device<'a>>
    ensures { option_copied result ≡ linked_device chain.now device.now }
{
    if links_up(chain, device) {
        next_above(chain, device)
    } else {
        None
    }
}

/// The attribute that a name asks for behind the link of a device.
pub(crate) fn value_behind<'a>(
    chain: &Chain<'a>,
    device: &Device<'_>,
    name: &[u8],
) -> Option<&'a [u8]>
    ensures { option_map (λ t. t.now) result ≡ value_behind chain.now device.now name.now }
{
    let rest = following(b"device/", name)?;
    linked_device(chain, device)?.attrs().get(rest)
}

/// Whether a name is that of a file of devices on PCI that has no value of one line.
fn is_long_of_pci(name: &[u8]) -> bool
    ensures { result ≡ is_long_of_pci name.now }
{
    name == b"resource".as_slice() || name == b"config".as_slice()
}

/// Whether there may be something of which a block tells nothing under a name that is no path: it leads into a folder, or a file of this
/// name has no value of one line.
pub fn may_be_untold(name: &[u8]) -> bool
    ensures { result ≡ may_be_untold name.now }
{
    name == b"uevent".as_slice() || is_long_of_pci(name) || split_once(b'/', name).is_some()
}

/// Whether one of these names leads into a folder.
fn any_lies_in(folder: &[u8], pairs: &Pairs<'_>) -> bool
    ensures { result ≡ list_any (lies_in folder.now) (names pairs.now) }
{
    for (name, _) in pairs.as_map().iter() {
        if lies_in(folder, name) {
            return true;
        }
    }
    false
}

/// Whether a name leads into a folder of which the block shows nothing.
fn leads_into_hidden(device: &Device<'_>, name: &[u8]) -> bool
    ensures { result ≡ leads_into_hidden device.now name.now }
{
    match split_once(b'/', name) {
        Some((folder, _)) => !any_lies_in(folder, device.attrs()),
        None => false,
    }
}

/// Whether the block does not tell what a name of a device stands for.
fn is_untold(device: &Device<'_>, name: &[u8]) -> bool
    ensures { result ≡ is_untold device.now name.now }
{
    device.attrs().get(name).is_none()
        && (name == b"uevent".as_slice()
            || (is_long_of_pci(name) && device.subsystem().unwrap_or(b"") == b"pci".as_slice())
            || leads_into_hidden(device, name))
}

/// The same behind the link of a device.
fn is_untold_behind(chain: &Chain<'_>, device: &Device<'_>, rest: &[u8]) -> bool
    ensures { result ≡ is_untold_behind chain.now device.now rest.now }
{
    match next_above(chain, device) {
        Some(above) => is_untold(above, rest),
        None => following(b"/devices/virtual/", device.path()).is_none(),
    }
}

/// Whether the block does not tell what a name of a device stands for, that is no path: it is none of its attributes, also behind
/// the link `device`, and may be there nevertheless.
pub(crate) fn is_name_untold(chain: &Chain<'_>, device: &Device<'_>, name: &[u8]) -> bool
    ensures { result ≡ is_untold_by chain.now device.now name.now (rest_behind name.now) }
{
    match following(b"device/", name) {
        Some(rest) => {
            is_untold(device, name)
                && links_up(chain, device)
                && is_untold_behind(chain, device, rest)
        }
        None => is_untold(device, name),
    }
}
