//! Places in sysfs, as a path leads to them, and whether the devices of an event show that something is there.
ghost use Rattle.std.specs.Prelude.{◌≡◌, ◌-◌, ◌==◌, ◌∷◌, IfOk, OnOk, flat_map, length, map, take, true};
ghost use Rattle.std.specs.List.{list_any, slice_split};
ghost use Rattle.text_bytes.specs.Names.{slash};
ghost use Rattle.eval_state.specs.Places.{gone, has, is_there, led, place_of, shows, stays, top};

use crate::files::{has_file, has_folder, lies_at};
use device_core::{Device, Event};
use std::alloc::{AllocError, Global};
use std::marker::Model;
use text_bytes::{Bytes, following};

/// A place below `/sys`.
#[derive(Drop)]
pub struct Place<'a> {
    /// The components that lead there.
    components: Vec<&'a [u8]>,
    /// Whether only a folder may be there.
    is_folder: bool,
}

impl<'a> Model for Place<'a> {
    ghost use Rattle.std.specs.Prelude.{map};
    ghost use Rattle.eval_state.specs.Places.{PlaceValue};

    ghost Value = { PlaceValue };

    ghost view = { λ p. record { components = map (λ t. t.now) p.components.items; is_folder = p.is_folder } };
}

/// Whether a component of a path leads nowhere: an empty one, and `.`.
fn stays(component: &[u8]) -> bool
    ensures { result ≡ stays component.now }
{
    component.is_empty() || component == b".".as_slice()
}

/// The components of a path.
fn components(alloc: Global, path: &[u8]) -> Result<Vec<&[u8]>, AllocError>
    ensures { IfOk result (λ found. map (λ t. t.now) found.items ≡ slice_split (λ b. b == slash) path.now) }
{
    path.split(|byte| *byte == b'/').collect(alloc)
}

/// The path that components lead along, each after a slash.
fn path_of(alloc: Global, components: &[&[u8]]) -> Result<Bytes, AllocError>
    ensures { IfOk result (λ path. path ≡ flat_map (λ component. slash ∷ component) (map (λ t. t.now) components.now)) }
{
    let mut path = Vec::new(alloc);
    for component in components {
        path.push(b'/')?;
        path.extend_from_slice(component)?;
    }
    Ok(Bytes::new(path))
}

impl<'a> Place<'a> {
    /// `/sys` itself.
    fn top(alloc: Global) -> Place<'a>
        ensures { result ≡ top }
    {
        Place {
            components: Vec::new(alloc),
            is_folder: true,
        }
    }

    /// Goes up.
    #[tactic(auto, using(crate::proofs::Fewer::fewer))]
    fn leave(&mut self)
        ensures { self.new ≡ record { components = take (length self.old.components - 1) self.old.components; is_folder = true } }
    {
        self.components.pop();
        self.is_folder = true;
    }

    /// Goes one component on.
    fn go(&mut self, component: &'a [u8]) -> Result<(), AllocError>
        ensures { OnOk result (self.new ≡ gone self.old component.now) }
    {
        if stays(component) {
            self.is_folder = true;
        } else if component == b"..".as_slice() {
            self.leave();
        } else {
            self.components.push(component)?;
            self.is_folder = false;
        }
        Ok(())
    }

    /// Goes to where a path leads.
    fn follow(&mut self, alloc: Global, path: &'a [u8]) -> Result<(), AllocError>
        ensures { OnOk result (self.new ≡ led self.old path.now) }
    {
        let parts = components(alloc, path)?;
        for part in &parts {
            self.go(part)?;
        }
        Ok(())
    }

    /// The place to which a name leads in the folder of a device, as the kernel follows a path: an empty component and
    /// `.` lead nowhere, `..` leads up, and only a folder may be where one of these ends the name.
    pub fn of(alloc: Global, device: &Device<'a>, name: &'a [u8]) -> Result<Place<'a>, AllocError>
        ensures { IfOk result (λ at. at ≡ place_of device.now name.now) }
    {
        let mut place = Place::top(alloc);
        place.follow(alloc, device.path())?;
        place.follow(alloc, name)?;
        Ok(place)
    }

    /// Whether the devices of an event show that something is there: their folders and those above them are, and so is
    /// what they have as far as the names of their attributes show.
    pub fn is_there(&self, alloc: Global, event: &Event<'_>) -> Result<bool, AllocError>
        ensures { IfOk result (λ there. there ≡ is_there event.now self.now) }
    {
        let path = path_of(alloc, &self.components)?;
        if shows(alloc, path.as_slice(), self.is_folder, event.device())? {
            return Ok(true);
        }
        some_show(alloc, path.as_slice(), self.is_folder, event.parents())
    }
}

/// Whether a device has a file or a folder of a name, or a folder alone.
fn has(alloc: Global, is_folder: bool, device: &Device<'_>, name: &[u8]) -> Result<bool, AllocError>
    ensures { IfOk result (λ found. found ≡ has is_folder device.now name.now) }
{
    if is_folder {
        has_folder(alloc, device, name)
    } else {
        has_file(alloc, device, name)
    }
}

/// Whether a device shows that something is at a path.
fn shows(
    alloc: Global,
    path: &[u8],
    is_folder: bool,
    device: &Device<'_>,
) -> Result<bool, AllocError>
    ensures { IfOk result (λ shown. shown ≡ shows path.now is_folder device.now) }
{
    if lies_at(path, device.path()) {
        return Ok(true);
    }
    match following(device.path(), path) {
        Some([b'/', name @ ..]) => has(alloc, is_folder, device, name),
        _ => Ok(false),
    }
}

/// Whether one of several devices shows that something is at a path.
fn some_show(
    alloc: Global,
    path: &[u8],
    is_folder: bool,
    devices: &[Device<'_>],
) -> Result<bool, AllocError>
    ensures { IfOk result (λ shown. shown ≡ list_any (shows path.now is_folder) devices.now) }
{
    for device in devices {
        if shows(alloc, path, is_folder, device)? {
            return Ok(true);
        }
    }
    Ok(false)
}
