//! The files and folders of a device in sysfs, as far as the names of its attributes show them.
ghost use Rattle.std.specs.Prelude.{◌≡◌, ◌≤◌, ◌<◌, ◌==◌, not, IfOk, IfSome, length, option_map};
ghost use Rattle.std.specs.List.{list_any, prefix_len};
ghost use Rattle.text_bytes.specs.Names.{slash};
ghost use Rattle.text_tables.specs.Pairs.{names};
ghost use Rattle.eval_state.specs.Files.{after_component, first_component, first_folder, folder_before, folder_between};
ghost use Rattle.eval_state.specs.Files.{has_file, has_folder, has_in, has_name, is_folder, is_in, is_in_any, is_star, lies_at, star_place, starred};

use device_core::Device;
use std::alloc::{AllocError, Global};
use text_bytes::{Bytes, begins_with, following};
use text_tables::Pairs;

/// Whether a whole component `*` is at a place of a name, and a slash after it.
fn is_star(name: &[u8], place: usize) -> bool
    requires { place < length name.now }
    ensures { result ≡ is_star name.now place }
{
    name[place..].starts_with(b"*/") && (place == 0 || name[place - 1] == b'/')
}

/// The place of the first such component.
#[tactic(auto, unfolding(crate::specs::Files::star_place))]
fn star_place(name: &[u8]) -> Option<usize>
    ensures value { result ≡ star_place name.now }
    ensures within { IfSome result (λ place. place < length name.now) }
{
    (0..name.len()).position(|place| is_star(name, place))
}

/// How many bytes the first component of a path has.
fn component_len(path: &[u8]) -> usize
    ensures value { result ≡ prefix_len (λ b. not (b == slash)) path.now }
    ensures within { result ≤ length path.now }
{
    path.iter().take_while(|byte| **byte != b'/').count()
}

/// The first component of a path, and what follows it.
fn cut_component(path: &[u8]) -> (&[u8], &[u8])
    ensures first { result.0.now ≡ first_component path.now }
    ensures following { result.1.now ≡ after_component path.now }
{
    path.split_at(component_len(path))
}

/// Whether a component is a folder that `*` may stand for.
fn is_folder(component: &[u8]) -> bool
    ensures { result ≡ is_folder component.now }
{
    !component.is_empty() && !begins_with(b'.', component)
}

/// Whether a path is this one, or that of something in a folder of this path.
pub(crate) fn lies_at(path: &[u8], other: &[u8]) -> bool
    ensures { result ≡ lies_at path.now other.now }
{
    match following(path, other) {
        Some(rest) => rest.is_empty() || begins_with(b'/', rest),
        None => false,
    }
}

/// The folder that a path begins with, if `*` may stand for it and a path is after it.
fn folder_before<'a>(rest: &[u8], path: &'a [u8]) -> Option<&'a [u8]>
    ensures { option_map (λ t. t.now) result ≡ folder_before rest.now path.now }
{
    let (folder, others) = cut_component(path);
    if is_folder(folder) && lies_at(rest, others) {
        Some(folder)
    } else {
        None
    }
}

/// The folder that is in a name between two texts.
fn folder_between<'a>(prefix: &[u8], rest: &[u8], name: &'a [u8]) -> Option<&'a [u8]>
    ensures { option_map (λ t. t.now) result ≡ folder_between prefix.now rest.now name.now }
{
    folder_before(rest, following(prefix, name)?)
}

/// The folder of the first of these names that has one between two texts.
fn first_folder<'a>(prefix: &[u8], rest: &[u8], pairs: &Pairs<'a>) -> Option<&'a [u8]>
    ensures { option_map (λ t. t.now) result ≡ first_folder prefix.now rest.now (names pairs.now) }
{
    for (name, _) in pairs.as_map().iter() {
        if let Some(folder) = folder_between(prefix, rest, name) {
            return Some(folder);
        }
    }
    None
}

/// A name as udev (systemd 257) looks it up below a device: its first component `*` that is not its last stands for
/// a folder, the first in the device's attributes in which the rest of the name is a file or a folder. `None` if
/// there is no such folder; a name without such a component is itself.
pub fn starred(alloc: Global, device: &Device<'_>, name: &[u8]) -> Result<Option<Bytes>, AllocError>
    ensures { IfOk result (λ found. found ≡ starred device.now name.now) }
{
    let Some(place) = star_place(name) else {
        return Ok(Some(Bytes::copy_of(alloc, name)?));
    };
    let (prefix, _) = name.split_at(place);
    let (_, rest) = name.split_at(place + 1);
    let Some(folder) = first_folder(prefix, rest, device.attrs()) else {
        return Ok(None);
    };
    let mut found = Vec::from_slice(alloc, prefix)?;
    found.extend_from_slice(folder)?;
    found.extend_from_slice(rest)?;
    Ok(Some(Bytes::new(found)))
}

/// Whether one of these names is a path, or that of something in a folder of this path.
fn any_lies_at(path: &[u8], pairs: &Pairs<'_>) -> bool
    ensures { result ≡ list_any (lies_at path.now) (names pairs.now) }
{
    for (name, _) in pairs.as_map().iter() {
        if lies_at(path, name) {
            return true;
        }
    }
    false
}

/// Whether a device has a file or a folder of a name; the empty name is the device's own folder.
fn has_name(device: &Device<'_>, name: &[u8]) -> bool
    ensures { result ≡ has_name device.now name.now }
{
    name.is_empty() || any_lies_at(name, device.attrs())
}

/// Whether udev (systemd 257) finds a file or a folder of a device by a name, as far as the names of the device's
/// attributes show: a name is there if an attribute has it or is in a folder with that name, and the empty one is
/// the device's own folder. A first component `*` stands for a folder, as in [`starred`].
pub(crate) fn has_file(alloc: Global, device: &Device<'_>, name: &[u8]) -> Result<bool, AllocError>
    ensures { IfOk result (λ found. found ≡ has_file device.now name.now) }
{
    match starred(alloc, device, name)? {
        Some(name) => Ok(has_name(device, name.as_slice())),
        None => Ok(false),
    }
}

/// Whether a path is that of something in the folder before it and this rest, which ends in a slash.
fn is_in_any(rest: &[u8], path: Option<&[u8]>) -> bool
    ensures { result ≡ is_in_any rest.now (option_map (λ t. t.now) path.entry) }
{
    match path {
        Some(path) => {
            let (folder, others) = cut_component(path);
            is_folder(folder) && following(rest, others).is_some()
        }
        None => false,
    }
}

/// Whether a path is that of something in a folder, in whose own path a `*` at a place stands for any folder.
fn is_in(star: Option<usize>, folder: &[u8], path: &[u8]) -> bool
    requires { IfSome star (λ place. place < length folder.now) }
    ensures { result ≡ is_in star folder.now path.now }
{
    match star {
        Some(place) => {
            let (prefix, _) = folder.split_at(place);
            let (_, rest) = folder.split_at(place + 1);
            is_in_any(rest, following(prefix, path))
        }
        None => following(folder, path).is_some(),
    }
}

/// Whether one of these names is that of something in a folder.
fn any_is_in(star: Option<usize>, folder: &[u8], pairs: &Pairs<'_>) -> bool
    requires { IfSome star (λ place. place < length folder.now) }
    ensures { result ≡ list_any (is_in star folder.now) (names pairs.now) }
{
    for (name, _) in pairs.as_map().iter() {
        if is_in(star, folder, name) {
            return true;
        }
    }
    false
}

/// Whether something is in a folder of a device, whose path ends in a slash.
fn has_in(device: &Device<'_>, folder: &[u8]) -> bool
    ensures { result ≡ has_in device.now folder.now }
{
    any_is_in(star_place(folder), folder, device.attrs())
}

/// Whether udev (systemd 257) finds a folder of a device by a name, as far as the names of the device's attributes show:
/// one of them is in it. A first component `*` stands for a folder, also at the end. The empty name is the device's own
/// folder.
pub(crate) fn has_folder(
    alloc: Global,
    device: &Device<'_>,
    name: &[u8],
) -> Result<bool, AllocError>
    ensures { IfOk result (λ found. found ≡ has_folder device.now name.now) }
{
    if name.is_empty() {
        return Ok(true);
    }
    let mut folder = Vec::from_slice(alloc, name)?;
    folder.push(b'/')?;
    Ok(has_in(device, &folder))
}
