//! The devices of an event, with the names that the kernel gives them.
ghost use Rattle.std.specs.Prelude.{◌≡◌, IfOk, option_copied, option_map, map, slice_get};
ghost use Rattle.eval_state.specs.Chains.{device_at, kernel_of};

use device_core::{Device, Event};
use std::alloc::{AllocError, Global};
use std::marker::Model;
use text_bytes::{Bytes, kernel_name};

/// A borrowed event, with the kernel's names of its devices prepared.
#[derive(Drop)]
pub struct Chain<'a> {
    event: &'a Event<'a>,
    kernel: Bytes,
    parent_kernels: Vec<Bytes>,
}

impl<'a> Model for Chain<'a> {
    ghost use Rattle.std.specs.Prelude.{◌≡◌, map};
    ghost use Rattle.device_core.specs.Values.{EventValue};
    ghost use Rattle.eval_state.specs.Chains.{kernel_of};

    ghost Value = { EventValue };

    ghost view = { λ c. c.event.now };

    ghost invariant = { λ c. (c.kernel ≡ kernel_of c.event.now.device) × (c.parent_kernels.items ≡ map kernel_of c.event.now.parents) };
}

/// The kernel's names of devices.
fn kernel_names(alloc: Global, devices: &[Device<'_>]) -> Result<Vec<Bytes>, AllocError>
    ensures { IfOk result (λ names. names.items ≡ map kernel_of devices.now) }
{
    let mut names = Vec::with_capacity(alloc, devices.len())?;
    for device in devices {
        names.push(kernel_name(alloc, device.path())?)?;
    }
    Ok(names)
}

impl<'a> Chain<'a> {
    /// The chain of an event.
    pub fn new(alloc: Global, event: &'a Event<'_>) -> Result<Chain<'a>, AllocError>
        ensures { IfOk result (λ chain. chain ≡ event.now) }
    {
        Ok(Chain {
            event,
            kernel: kernel_name(alloc, event.device().path())?,
            parent_kernels: kernel_names(alloc, event.parents())?,
        })
    }

    /// Returns the event.
    pub fn event(&self) -> &'a Event<'a>
        ensures { result.now ≡ self.now }
    {
        self.event
    }

    /// Returns the event device.
    pub fn device(&self) -> &'a Device<'a>
        ensures { result.now ≡ self.now.device }
    {
        self.event.device()
    }

    /// Returns the device at a position of the chain, if there is one; the event device is at 0.
    pub fn device_at(&self, place: usize) -> Option<&'a Device<'a>>
        ensures { option_copied result ≡ device_at self.now place }
    {
        self.event.device_at(place)
    }

    /// The kernel's name of the event device: the last component of its path, with `/` for `!`.
    pub fn kernel(&self) -> &[u8]
        ensures { result.now ≡ kernel_of self.now.device }
    {
        self.kernel.as_slice()
    }

    /// The kernel's name of the device at a position, if there is one.
    pub fn kernel_at(&self, place: usize) -> Option<&[u8]>
        ensures { option_map (λ name. name.now) result ≡ option_map kernel_of (device_at self.now place) }
    {
        match place.checked_sub(1) {
            None => Some(self.kernel.as_slice()),
            Some(above) => kept_at(&self.parent_kernels, above),
        }
    }
}

/// Returns the name at a place of a list, if there is one.
fn kept_at(names: &[Bytes], place: usize) -> Option<&[u8]>
    ensures { option_map (λ name. name.now) result ≡ slice_get names.now place }
{
    names.get(place).map(Bytes::as_slice)
}
