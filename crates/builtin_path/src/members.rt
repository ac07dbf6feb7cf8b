//! The devices that the way up passes, and what it asks of them.
ghost use Rattle.std.specs.Prelude.{◌≡◌, ◌∷◌, ◌≤◌, IfOk, Some, length, not, option_map};
ghost use Rattle.std.specs.List.{prefix_len};
ghost use Rattle.text_bytes.specs.Kernels.{last_component};
ghost use Rattle.builtin_path.specs.Members.{attribute_at, below_first, class_attribute, class_attribute_at, from_first, is_in, row};

use crate::texts::concatenated;
use builtin_devices::{attribute, is_of, is_text};
use device_core::Device;
use std::alloc::{AllocError, Global};
use std::marker::Model;
use text_bytes::last_component;

/// A device of the way.
#[derive(Drop)]
pub(crate) struct Member<'d> {
    /// The device, borrowed.
    pub device: &'d Device<'d>,
}

impl<'d> Model for Member<'d> {
    ghost use Rattle.device_core.specs.Values.{DeviceValue};

    ghost Value = { DeviceValue };

    ghost view = { λ m. m.device.now };
}

impl<'d> Member<'d> {
    /// Whether it is of a subsystem.
    pub(crate) fn is_in(&self, subsystem: &[u8]) -> bool
        ensures { result ≡ is_in subsystem.now self.now }
    {
        is_text(subsystem, self.device.subsystem())
    }

    /// What follows the last slash of its path: its name, as the kernel writes it in paths.
    pub(crate) fn component(&self) -> &'d [u8]
        ensures { result.now ≡ last_component self.now.path }
    {
        last_component(self.device.path())
    }

    /// The attribute of the device of a class that has its name and is directly below it.
    #[tactic(auto, unfolding(crate::specs::Members::class_attribute))]
    pub(crate) fn class_attribute(
        &self,
        alloc: Global,
        class: &[u8],
        name: &[u8],
    ) -> Result<Option<&'d [u8]>, AllocError>
        ensures { IfOk result (λ text. option_map (λ t. t.now) text ≡ class_attribute class.now name.now self.now) }
    {
        let path = concatenated(alloc, &[class, b"/", self.component(), b"/", name])?;
        Ok(attribute(self.device, path.as_slice()))
    }
}

/// How many devices of a subsystem a list begins with.
pub(crate) fn row(subsystem: &[u8], members: &[Member<'_>]) -> usize
    ensures value { result ≡ row subsystem.now members.now }
    ensures within { result ≤ length members.now }
{
    members
        .iter()
        .take_while(|member| member.is_in(subsystem))
        .count()
}

/// How many devices a list begins with that are not one of SCSI of a type.
pub(crate) fn below_first(kind: &[u8], members: &[Member<'_>]) -> usize
    ensures value { result ≡ below_first kind.now members.now }
    ensures within { result ≤ length members.now }
{
    members
        .iter()
        .take_while(|member| !is_of(b"scsi", Some(kind), member.device))
        .count()
}

/// The devices from the nearest on that is one of SCSI of a type.
pub(crate) fn from_first<'m, 'd>(kind: &[u8], members: &'m [Member<'d>]) -> &'m [Member<'d>]
    ensures { result.now ≡ from_first kind.now members.now }
{
    members.split_at(below_first(kind, members)).1
}

/// The attribute of the device of a class at a place of a list, if there is one.
pub(crate) fn class_attribute_at<'d>(
    alloc: Global,
    members: &[Member<'d>],
    place: usize,
    class: &[u8],
    name: &[u8],
) -> Result<Option<&'d [u8]>, AllocError>
    ensures { IfOk result (λ text. option_map (λ t. t.now) text ≡ class_attribute_at members.now place class.now name.now) }
{
    match members.get(place) {
        Some(member) => member.class_attribute(alloc, class, name),
        None => Ok(None),
    }
}

/// An attribute of the device at a place of a list, if there is one.
pub(crate) fn attribute_at<'d>(
    members: &[Member<'d>],
    place: usize,
    name: &[u8],
) -> Option<&'d [u8]>
    ensures { option_map (λ t. t.now) result ≡ attribute_at members.now place name.now }
{
    match members.get(place) {
        Some(member) => attribute(member.device, name),
        None => None,
    }
}
