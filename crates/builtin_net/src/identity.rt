//! Which interfaces have names.
ghost use Rattle.std.specs.Prelude.{◌≡◌};
ghost use Rattle.builtin_net.specs.Allowed.{interface};
ghost use Rattle.builtin_net.specs.Identity.{index, index_in, is_alone, is_identified, naming};

use crate::allowed::{Attribute, own_number, read_own};
use crate::prefixes::Prefix;
use crate::words::positive;
use builtin_devices::{Base, is_below_zero, is_number, is_text, number_in, type_of};
use device_core::Event;
use text_tables::CowPairs;

/// A number of 31 bits.
fn index_in(text: &[u8]) -> Option<u64>
    ensures { result ≡ index_in text.now }
{
    number_in(Base::AsWritten, (1 << 31) - 1, text)
}

/// The index of the event device, as the kernel reported it.
#[tactic(auto, unfolding(crate::specs::Identity::index))]
pub(crate) fn index(event: &Event<'_>) -> Option<u64>
    ensures { result ≡ index event.now }
{
    match event.device().env().get(b"IFINDEX") {
        Some(text) => positive(index_in(text)),
        None => None,
    }
}

/// Whether the event device has an index, and gives that of the interface that it is stacked on.
#[tactic(auto, unfolding(crate::specs::Identity::is_identified))]
pub(crate) fn is_identified(event: &Event<'_>, env: &CowPairs<'_>) -> bool
    ensures { result ≡ is_identified event.now (interface event.now env.now) }
{
    if index(event).is_none() {
        return false;
    }
    match read_own(event, env, Attribute::Iflink) {
        Some(link) => index_in(link).is_some() || is_below_zero(Base::AsWritten, 1 << 31, link),
        None => false,
    }
}

/// Whether the event device is not stacked on another interface.
#[tactic(auto, unfolding(crate::specs::Identity::is_alone))]
pub(crate) fn is_alone(event: &Event<'_>, env: &CowPairs<'_>) -> bool
    ensures { result ≡ is_alone event.now (interface event.now env.now) }
{
    let Some(own) = index(event) else {
        return false;
    };
    match read_own(event, env, Attribute::Iflink) {
        Some(link) => is_number(own, index_in(link)),
        None => false,
    }
}

/// How names of the event device begin, if it has some.
#[tactic(auto, unfolding(crate::specs::Identity::naming, crate::specs::Prefixes::prefix_of))]
pub(crate) fn naming(event: &Event<'_>, env: &CowPairs<'_>) -> Option<Prefix>
    ensures { result ≡ naming event.now (interface event.now env.now) }
{
    if !is_alone(event, env) {
        return None;
    }
    let kind = type_of(event.device());
    match own_number(event, env, Attribute::Hardware)? {
        1 if is_text(b"wlan", kind) => Some(Prefix::Wireless),
        1 if is_text(b"wwan", kind) => Some(Prefix::Modem),
        1 => Some(Prefix::Ethernet),
        32 => Some(Prefix::InfiniBand),
        256 => Some(Prefix::SerialLine),
        _ => None,
    }
}
