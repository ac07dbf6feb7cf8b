//! The builtin.
ghost use Rattle.std.specs.Prelude.{◌≡◌, IfOk};
ghost use Rattle.builtin_net.specs.Allowed.{interface};
ghost use Rattle.builtin_net.specs.NetId.{lookup, names_of, needs, net_id};

use crate::given::Given;
use crate::identity::{is_identified, naming};
use crate::names::{give_names, lasting_address};
use crate::needs::need_own;
use crate::words::joined;
use builtin_devices::{BuiltinOutcome, Devices, NetNames};
use device_core::Event;
use std::alloc::{AllocError, Global};
use text_bytes::Bytes;
use text_tables::{CowPairs, OwnedTexts};

/// What the hardware database is asked.
#[tactic(auto, unfolding(crate::specs::NetId::lookup))]
fn lookup(alloc: Global, event: &Event<'_>, env: &CowPairs<'_>) -> Result<Option<Bytes>, AllocError>
    ensures { IfOk result (λ text. text ≡ lookup event.now env.now) }
{
    let Some(prefix) = naming(event, env) else {
        return Ok(None);
    };
    let Some(digits) = lasting_address(alloc, prefix, event, env)? else {
        return Ok(None);
    };
    if digits.starts_with(b"000000") {
        return Ok(None);
    }
    let text = joined(alloc, b"OUI:", &digits.to_ascii_uppercase(alloc)?)?;
    Ok(Some(Bytes::new(text)))
}

/// What an interface is given, whether or not net_id succeeds.
#[tactic(auto, unfolding(crate::specs::NetId::needs))]
fn given(alloc: Global, devices: &Devices<'_>, env: &CowPairs<'_>) -> Result<Given, AllocError>
    ensures properties { IfOk result (λ given. given.properties.items ≡ (names_of devices.now (interface devices.now env.now)).properties) }
    ensures needs { IfOk result (λ given. given.needs ≡ needs devices.now (interface devices.now env.now)) }
{
    let mut given = Given {
        properties: Vec::new(alloc),
        needs: OwnedTexts::new(alloc),
    };
    need_own(alloc, &mut given.needs, devices.event(), env)?;
    if let Some(prefix) = naming(devices.event(), env) {
        give_names(alloc, &mut given, devices, prefix, env)?;
    }
    Ok(given)
}

/// The outcome of net_id.
#[tactic(auto, unfolding(crate::specs::NetId::net_id))]
fn outcome(
    alloc: Global,
    devices: &Devices<'_>,
    env: &CowPairs<'_>,
) -> Result<BuiltinOutcome, AllocError>
    ensures { IfOk result (λ outcome. outcome ≡ net_id devices.now env.now) }
{
    let Given { properties, needs } = given(alloc, devices, env)?;
    if is_identified(devices.event(), env) {
        return Ok(BuiltinOutcome::succeeding(properties, needs));
    }
    drop(properties);
    Ok(BuiltinOutcome::failing(alloc, needs))
}

/// The names of the network interface that the event device is, as the builtin net_id of udev of systemd 257 gives
/// them by its naming scheme v257; systemd.net-naming-scheme(7) has the forms. `env` are the current properties of
/// the event device, which say what names may use of it; for IFINDEX and DEVTYPE the kernel's own count.
///
/// It fails if IFINDEX is not a number above 0, or `iflink` is not a number. It sets nothing for an interface that
/// is stacked on another, or for hardware other than Ethernet, InfiniBand and SLIP.
pub fn net_id(alloc: Global, event: &Event<'_>, env: &CowPairs<'_>) -> Result<NetNames, AllocError>
    ensures outcome { IfOk result (λ names. names.outcome ≡ net_id event.now env.now) }
    ensures lookup { IfOk result (λ names. names.lookup ≡ lookup event.now env.now) }
{
    let devices = Devices::new(alloc, event)?;
    Ok(NetNames {
        outcome: outcome(alloc, &devices, env)?,
        lookup: lookup(alloc, event, env)?,
    })
}
