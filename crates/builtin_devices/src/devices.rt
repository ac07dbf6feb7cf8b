//! The devices of a block, and what is above one.
ghost use Rattle.std.specs.Prelude.{◌≡◌, ◌<◌, ℕ, IfOk, length, map, option_copied, option_map};
ghost use Rattle.std.specs.List.{find};
ghost use Rattle.builtin_devices.specs.Devices.{above, attribute, device_before, device_by, has_type, is_at, is_of, is_text, parents_of, some_text, type_of};
ghost use Rattle.builtin_devices.specs.Files.{described_devices};
ghost use Rattle.builtin_devices.specs.Upward.{device_at};

use crate::folders::described_devices;
use crate::upward::{add_device, add_devices};
use device_core::{Device, Event};
use indexmap::IndexMap;
use std::alloc::{AllocError, Global};
use std::marker::Model;

/// A borrowed event, with the devices outside of its chain that the block describes by their paths.
#[derive(Drop)]
pub struct Devices<'a> {
    event: &'a Event<'a>,
    described: Vec<Device<'a>>,
}

impl<'a> Model for Devices<'a> {
    ghost use Rattle.std.specs.Prelude.{◌≡◌};
    ghost use Rattle.device_core.specs.Values.{EventValue};
    ghost use Rattle.builtin_devices.specs.Files.{described_devices};

    ghost Value = { EventValue };

    ghost view = { λ d. d.event.now };

    ghost invariant = { λ d. d.described.items ≡ described_devices d.event.now };
}

/// The device among others that has a path.
fn find_at<'d, 'a>(devices: &'d [Device<'a>], path: &[u8]) -> Option<&'d Device<'a>>
    ensures { option_copied result ≡ find (is_at path.now) devices.now }
{
    devices.iter().find(|device| device.path() == path)
}

impl<'a> Devices<'a> {
    /// The devices of an event.
    pub fn new(alloc: Global, event: &'a Event<'_>) -> Result<Devices<'a>, AllocError>
        ensures { IfOk result (λ devices. devices ≡ event.now) }
    {
        Ok(Devices {
            event,
            described: described_devices(alloc, event)?,
        })
    }

    /// Returns the event.
    pub fn event(&self) -> &'a Event<'a>
        ensures { result.now ≡ self.now }
    {
        self.event
    }

    /// The devices outside of the chain that the block describes by their paths, in its order.
    pub fn described(&self) -> &[Device<'a>]
        ensures { result.now ≡ described_devices self.now }
    {
        &self.described
    }

    /// The device with a path: of the chain, or else one that the block describes by its path.
    pub fn device_by(&self, path: &[u8]) -> Option<&Device<'a>>
        ensures { option_copied result ≡ device_by self.now path.now }
    {
        let device = self.event.device();
        if device.path() == path {
            return Some(device);
        }
        if let Some(parent) = find_at(self.event.parents(), path) {
            return Some(parent);
        }
        find_at(&self.described, path)
    }

    /// The devices above a path, each under the length of its own path; where two have one path, the first.
    fn devices_above<'d>(
        &'d self,
        alloc: Global,
        path: &[u8],
    ) -> Result<IndexMap<usize, &'d Device<'a>>, AllocError>
        ensures { IfOk result (λ above. (place : ℕ) → place < length path.now → device_at above place ≡ device_before self.now path.now place) }
    {
        let mut above = IndexMap::new(alloc);
        add_device(path, self.event.device(), &mut above)?;
        add_devices(path, self.event.parents(), &mut above)?;
        add_devices(path, &self.described, &mut above)?;
        Ok(above)
    }

    /// The devices above a path, the nearest first.
    #[tactic(auto, using(crate::proofs::Places::place_none, crate::proofs::Places::place_some), unfolding(crate::specs::Devices::parents_of))]
    pub fn parents_of(&self, alloc: Global, path: &[u8]) -> Result<Vec<&Device<'a>>, AllocError>
        ensures { IfOk result (λ parents. map (λ device. device.now) parents.items ≡ parents_of self.now path.now) }
    {
        let above = self.devices_above(alloc, path)?;
        let mut parents = Vec::new(alloc);
        for place in (0..path.len()).rev() {
            if let Some(device) = above.get(&place) {
                parents.push(*device)?;
            }
        }
        Ok(parents)
    }

    /// The nearest device above a path that is of a subsystem and, if one is asked for, of a type.
    pub fn above(
        &self,
        alloc: Global,
        subsystem: &[u8],
        kind: Option<&[u8]>,
        path: &[u8],
    ) -> Result<Option<&Device<'a>>, AllocError>
        ensures { IfOk result (λ found. option_copied found ≡ above self.now subsystem.now (option_map (λ t. t.now) kind.entry) path.now) }
    {
        for parent in self.parents_of(alloc, path)? {
            if is_of(subsystem, kind, parent) {
                return Ok(Some(parent));
            }
        }
        Ok(None)
    }
}

/// Whether a text is there, and the same as another.
pub fn is_text(text: &[u8], held: Option<&[u8]>) -> bool
    ensures { result ≡ is_text text.now (option_map (λ t. t.now) held.entry) }
{
    match held {
        Some(other) => other == text,
        None => false,
    }
}

/// An attribute of a device.
pub fn attribute<'a>(device: &Device<'a>, name: &[u8]) -> Option<&'a [u8]>
    ensures { option_map (λ t. t.now) result ≡ attribute device.now name.now }
{
    device.attrs().get(name)
}

/// `DEVTYPE`, what the kernel calls the type of a device.
pub fn type_of<'a>(device: &Device<'a>) -> Option<&'a [u8]>
    ensures { option_map (λ t. t.now) result ≡ type_of device.now }
{
    device.env().get(b"DEVTYPE")
}

/// Whether a device has the type that is asked for, if any is.
fn has_type(kind: Option<&[u8]>, device: &Device<'_>) -> bool
    ensures { result ≡ has_type (option_map (λ t. t.now) kind.entry) device.now }
{
    match kind {
        Some(text) => is_text(text, type_of(device)),
        None => true,
    }
}

/// Whether a device is of a subsystem, and of the type that is asked for, if any is.
pub fn is_of(subsystem: &[u8], kind: Option<&[u8]>, device: &Device<'_>) -> bool
    ensures { result ≡ is_of subsystem.now (option_map (λ t. t.now) kind.entry) device.now }
{
    is_text(subsystem, device.subsystem()) && has_type(kind, device)
}

/// A text, unless it is empty.
pub fn some_text(text: Option<&[u8]>) -> Option<&[u8]>
    ensures { option_map (λ t. t.now) result ≡ some_text (option_map (λ t. t.now) text.entry) }
{
    match text {
        Some(text) if !text.is_empty() => Some(text),
        _ => None,
    }
}
