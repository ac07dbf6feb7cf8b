//! What is known about a device.
ghost use Rattle.std.specs.Prelude.{◌≡◌, ◌==◌, None, option_copied, option_map, true, false};
ghost use Rattle.std.specs.List.{list_all};
ghost use Rattle.text_bytes.specs.Names.{digit_zero};
ghost use Rattle.device_core.specs.Values.{described, is_given, is_number_by, number_by};

use std::alloc::Global;
use std::marker::Model;
use text_bytes::{Profile, decimal_below};
use text_tables::{Pairs, Texts};

/// A device number, with its two parts as written: 1 to 10 digits each, below 2^32.
#[derive(Drop)]
pub struct DeviceNumber<'a> {
    pub(crate) major: &'a [u8],
    pub(crate) minor: &'a [u8],
}

impl<'a> Model for DeviceNumber<'a> {
    ghost use Rattle.device_core.specs.Values.{NumberValue};

    ghost Value = { NumberValue };

    ghost view = { λ n. record { major = n.major.now; minor = n.minor.now } };
}

impl<'a> DeviceNumber<'a> {
    /// What comes before the `:`.
    pub fn major(&self) -> &'a [u8]
        ensures { result.now ≡ self.now.major }
    {
        self.major
    }

    /// What follows it.
    pub fn minor(&self) -> &'a [u8]
        ensures { result.now ≡ self.now.minor }
    {
        self.minor
    }

    /// Whether udev takes it for the number of a device.
    fn is_given(&self) -> bool
        ensures { result ≡ is_given self.now }
    {
        decimal_below(1 << 12, self.major).is_some()
            && !is_zero(self.major)
            && decimal_below(1 << 20, self.minor).is_some()
    }

    /// Whether it is the number of a device by a profile.
    fn is_number_by(&self, profile: Profile) -> bool
        ensures { result ≡ is_number_by profile self.now }
    {
        match profile {
            Profile::Manual => true,
            Profile::Udev => self.is_given(),
        }
    }
}

/// Whether digits write 0.
fn is_zero(digits: &[u8]) -> bool
    ensures { result ≡ list_all (λ digit. digit == digit_zero) digits.now }
{
    digits.iter().all(|digit| *digit == b'0')
}

/// A device, as the lines from its `P:` up to the next describe it.
#[derive(Drop)]
pub struct Device<'a> {
    pub(crate) path: &'a [u8],
    pub(crate) subsystem: Option<&'a [u8]>,
    pub(crate) driver: Option<&'a [u8]>,
    pub(crate) node: Option<&'a [u8]>,
    pub(crate) number: Option<DeviceNumber<'a>>,
    pub(crate) attrs: Pairs<'a>,
    pub(crate) env: Pairs<'a>,
    pub(crate) stored: Pairs<'a>,
    pub(crate) tags: Texts<'a>,
    pub(crate) links: Texts<'a>,
}

impl<'a> Model for Device<'a> {
    ghost use Rattle.std.specs.Prelude.{option_map};
    ghost use Rattle.device_core.specs.Values.{DeviceValue};

    ghost Value = { DeviceValue };

    ghost view = { λ d. record {
      path = d.path.now;
      subsystem = option_map (λ t. t.now) d.subsystem;
      driver = option_map (λ t. t.now) d.driver;
      node = option_map (λ t. t.now) d.node;
      number = d.number;
      attrs = d.attrs;
      env = d.env;
      stored = d.stored;
      tags = d.tags;
      links = d.links;
    } };
}

impl<'a> Device<'a> {
    /// A device of which only the path, the subsystem and the attributes are known.
    pub fn described(
        alloc: Global,
        path: &'a [u8],
        subsystem: &'a [u8],
        attrs: Pairs<'a>,
    ) -> Device<'a>
        ensures { result ≡ described path.now subsystem.now attrs.entry }
    {
        Device {
            path,
            subsystem: Some(subsystem),
            driver: None,
            node: None,
            number: None,
            attrs,
            env: Pairs::new(alloc),
            stored: Pairs::new(alloc),
            tags: Texts::new(alloc),
            links: Texts::new(alloc),
        }
    }

    /// `P:`, its path below `/sys`.
    pub fn path(&self) -> &'a [u8]
        ensures { result.now ≡ self.now.path }
    {
        self.path
    }

    /// `U:`, its subsystem.
    pub fn subsystem(&self) -> Option<&'a [u8]>
        ensures { option_map (λ t. t.now) result ≡ self.now.subsystem }
    {
        self.subsystem
    }

    /// `V:`, its driver.
    pub fn driver(&self) -> Option<&'a [u8]>
        ensures { option_map (λ t. t.now) result ≡ self.now.driver }
    {
        self.driver
    }

    /// `N:`, its node below `/dev`.
    pub fn node(&self) -> Option<&'a [u8]>
        ensures { option_map (λ t. t.now) result ≡ self.now.node }
    {
        self.node
    }

    /// `D:`, its number.
    pub fn number(&self) -> Option<&DeviceNumber<'a>>
        ensures { option_copied result ≡ self.now.number }
    {
        self.number.as_ref()
    }

    /// Whether the number that its block gives it is its number by a profile.
    fn is_numbered_by(&self, profile: Profile) -> bool
        ensures kept { result ≡ true → number_by profile self.now.number ≡ self.now.number }
        ensures none { result ≡ false → number_by profile self.now.number ≡ None }
    {
        match &self.number {
            Some(number) => number.is_number_by(profile),
            None => false,
        }
    }

    /// Leaves the number out if it is none by a profile.
    pub(crate) fn number_by(&mut self, profile: Profile)
        ensures { self.new ≡ record self.old { number = number_by profile self.old.number } }
    {
        if !self.is_numbered_by(profile) {
            self.number = None;
        }
    }

    /// `A:`, its attributes.
    pub fn attrs(&self) -> &Pairs<'a>
        ensures { result.now ≡ self.now.attrs }
    {
        &self.attrs
    }

    /// `E:`, its properties.
    pub fn env(&self) -> &Pairs<'a>
        ensures { result.now ≡ self.now.env }
    {
        &self.env
    }

    /// `B:`, the properties that udev had stored about it before the event.
    pub fn stored(&self) -> &Pairs<'a>
        ensures { result.now ≡ self.now.stored }
    {
        &self.stored
    }

    /// `G:`, its tags.
    pub fn tags(&self) -> &Texts<'a>
        ensures { result.now ≡ self.now.tags }
    {
        &self.tags
    }

    /// `S:`, its links.
    pub fn links(&self) -> &Texts<'a>
        ensures { result.now ≡ self.now.links }
    {
        &self.links
    }
}
