//! The addresses of SCSI devices.
ghost use Rattle.std.specs.Prelude.{◌≡◌, option_map};
ghost use Rattle.builtin_devices.specs.Addresses.{address_of};
ghost use Rattle.builtin_devices.specs.AddressSteps.{before_colon, stepped};

use text_bytes::{decimal_below, split_once};

/// What the numbers of an address are below.
const NUMBERS: u64 = 1 << 32;

/// The address of a SCSI device.
#[derive(Clone, Copy)]
pub struct Address {
    /// The number of the host.
    pub host: u64,
    /// The number of the bus.
    pub bus: u64,
    /// The number of the target.
    pub target: u64,
    /// The number of the unit.
    pub unit: u64,
}

/// The number before the first colon of a text, and what follows the colon.
fn before_colon(text: &[u8]) -> Option<(u64, &[u8])>
    ensures { option_map (λ p. (p.0, p.1.now)) result ≡ before_colon text.now }
{
    let (number, rest) = split_once(b':', text)?;
    Some((decimal_below(NUMBERS, number)?, rest))
}

/// An address, read number by number.
#[tactic(auto, unfolding(crate::specs::AddressSteps::stepped))]
fn stepped(name: &[u8]) -> Option<Address>
    ensures { result ≡ stepped name.now }
{
    let (host, rest) = before_colon(name)?;
    let (bus, rest) = before_colon(rest)?;
    let (target, rest) = before_colon(rest)?;
    let unit = decimal_below(NUMBERS, rest)?;
    Some(Address {
        host,
        bus,
        target,
        unit,
    })
}

/// The address that the name of a SCSI device is, `HOST:BUS:TARGET:UNIT`.
#[tactic(auto, using(crate::proofs::Addressing::read_in_steps))]
pub fn address_of(name: &[u8]) -> Option<Address>
    ensures { result ≡ address_of name.now }
{
    stepped(name)
}
