//! What happened to a device, and all that is known about it and its parents.
//!
//! The event device is kept apart from its parents, so that an event without a device need not be considered. Only
//! `read_block` makes an event.
ghost use Rattle.std.specs.Prelude.{◌≡◌, ◌<◌, ◌≤◌, length, option_copied, option_map, slice_get};
ghost use Rattle.device_core.specs.Values.{by_profile, chain, most_devices};

use crate::devices::Device;
use crate::programs::ProgramAnswer;
use std::marker::Model;
use text_bytes::Profile;
use text_tables::{Pairs, Table};

/// An event: what happened, to which device, and what else the block says.
#[derive(Drop)]
pub struct Event<'a> {
    pub(crate) action: &'a [u8],
    pub(crate) device: Device<'a>,
    pub(crate) parents: Vec<Device<'a>>,
    pub(crate) programs: Table<'a, ProgramAnswer<'a>>,
    pub(crate) constants: Pairs<'a>,
    pub(crate) misplaced: Option<&'a [u8]>,
    pub(crate) profile: Profile,
}

impl<'a> Model for Event<'a> {
    ghost use Rattle.std.specs.Prelude.{◌<◌, length, option_map};
    ghost use Rattle.device_core.specs.Values.{EventValue, most_devices};

    ghost Value = { EventValue };

    ghost view = { λ e. record {
      action = e.action.now;
      device = e.device;
      parents = e.parents.items;
      programs = e.programs;
      constants = e.constants;
      misplaced = option_map (λ t. t.now) e.misplaced;
      profile = e.profile;
    } };

    ghost invariant = { λ e. length e.parents.items < most_devices };
}

impl<'a> Event<'a> {
    /// `C:`, the action.
    pub fn action(&self) -> &'a [u8]
        ensures { result.now ≡ self.now.action }
    {
        self.action
    }

    /// The event device.
    pub fn device(&self) -> &Device<'a>
        ensures { result.now ≡ self.now.device }
    {
        &self.device
    }

    /// The parents of the event device, the nearest first, at most 63.
    pub fn parents(&self) -> &[Device<'a>]
        ensures value { result.now ≡ self.now.parents }
        ensures few { length result.now < most_devices }
    {
        &self.parents
    }

    /// How many devices the chain has, the event device and its parents: 1 to 64.
    pub fn device_count(&self) -> usize
        ensures value { result ≡ length (chain self.now) }
        ensures some { 1 ≤ result }
        ensures few { result ≤ most_devices }
    {
        1 + self.parents.len()
    }

    /// The device at a position of the chain, if there is one; the event device is at 0.
    pub fn device_at(&self, place: usize) -> Option<&Device<'a>>
        ensures { option_copied result ≡ slice_get (chain self.now) place }
    {
        match place.checked_sub(1) {
            None => Some(&self.device),
            Some(above) => self.parents.get(above),
        }
    }

    /// `Q:` and `R:`, what programs answered, each answer under its command.
    pub fn programs(&self) -> &Table<'a, ProgramAnswer<'a>>
        ensures { result.now ≡ self.now.programs }
    {
        &self.programs
    }

    /// `K:`, constants such as the architecture.
    pub fn constants(&self) -> &Pairs<'a>
        ensures { result.now ≡ self.now.constants }
    {
        &self.constants
    }

    /// The name of the first property that stands behind a command, below the last `P:`. If there is a parent, the
    /// property is one of the farthest.
    pub fn misplaced(&self) -> Option<&'a [u8]>
        ensures { option_map (λ t. t.now) result ≡ self.now.misplaced }
    {
        self.misplaced
    }

    /// The profile by which rules are evaluated over the event: the manual, unless `with_profile` said otherwise.
    pub fn profile(&self) -> Profile
        ensures { result ≡ self.now.profile }
    {
        self.profile
    }

    /// The same event, over which rules are evaluated by a profile. For udev (systemd 257) a number whose major is 0 or
    /// has more than 12 bits, or whose minor has more than 20, is none: the kernel gives no device such a number.
    pub fn with_profile(mut self, profile: Profile) -> Event<'a>
        ensures { result ≡ by_profile profile self.entry }
    {
        self.device.number_by(profile);
        self.profile = profile;
        self
    }
}
