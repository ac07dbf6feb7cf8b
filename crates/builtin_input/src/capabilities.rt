//! What an input device reports about itself.
ghost use Rattle.std.specs.Prelude.{◌≡◌, ◌≤◌, IfOk};
ghost use Rattle.builtin_input.specs.Bitmaps.{bitmap, most_words};
ghost use Rattle.builtin_input.specs.Capabilities.{bus_number, capabilities, text_of};

use crate::bitmaps::{Bitmap, MAX_WORDS};
use builtin_devices::{Base, number_in};
use device_core::Device;
use std::alloc::{AllocError, Global};
use std::marker::Model;

/// The events, keys, axes and properties that a device has, and the number of its bus.
#[derive(Drop)]
pub(crate) struct Capabilities {
    pub(crate) events: Bitmap,
    pub(crate) keys: Bitmap,
    pub(crate) absolute_axes: Bitmap,
    pub(crate) relative_axes: Bitmap,
    pub(crate) properties: Bitmap,
    pub(crate) bus: u64,
}

impl Model for Capabilities {
    ghost use Rattle.builtin_input.specs.Capabilities.{CapabilitiesValue};

    ghost Value = { CapabilitiesValue };

    ghost view = { λ c. record {
      events = c.events;
      keys = c.keys;
      absolute_axes = c.absolute_axes;
      relative_axes = c.relative_axes;
      properties = c.properties;
      bus = c.bus;
    } };
}

/// The text of an attribute, empty if it is absent.
fn text_of<'a>(device: &Device<'a>, name: &[u8]) -> &'a [u8]
    ensures { result.now ≡ text_of device.now name.now }
{
    match device.attrs().get(name) {
        Some(text) => text,
        None => b"",
    }
}

/// The bitmap of an attribute, with at most so many words.
fn bitmap_of(
    alloc: Global,
    device: &Device<'_>,
    name: &[u8],
    most: usize,
) -> Result<Bitmap, AllocError>
    requires { most ≤ most_words }
    ensures { IfOk result (λ b. b ≡ bitmap most (text_of device.now name.now)) }
{
    Bitmap::read(alloc, text_of(device, name), most)
}

/// The number of a bus.
#[tactic(auto, unfolding(crate::specs::Capabilities::bus_number))]
fn bus_number(text: &[u8]) -> u64
    ensures { result ≡ bus_number text.now }
{
    number_in(Base::Hexadecimal, u64::from(u16::MAX), text).unwrap_or(0)
}

impl Capabilities {
    /// What a device reports about itself.
    #[tactic(auto, unfolding(crate::specs::Capabilities::capabilities))]
    pub(crate) fn read(alloc: Global, device: &Device<'_>) -> Result<Capabilities, AllocError>
        ensures { IfOk result (λ c. c ≡ capabilities device.now) }
    {
        let events = bitmap_of(alloc, device, b"capabilities/ev", 1)?;
        let keys = bitmap_of(alloc, device, b"capabilities/key", MAX_WORDS)?;
        let absolute_axes = bitmap_of(alloc, device, b"capabilities/abs", 1)?;
        let relative_axes = bitmap_of(alloc, device, b"capabilities/rel", 1)?;
        let properties = bitmap_of(alloc, device, b"properties", 1)?;
        Ok(Capabilities {
            events,
            keys,
            absolute_axes,
            relative_axes,
            properties,
            bus: bus_number(text_of(device, b"id/bustype")),
        })
    }
}
