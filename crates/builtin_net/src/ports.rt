//! What distinguishes the ports of one function.
ghost use Rattle.std.specs.Prelude.{◌≡◌, IfOk, option_map};
ghost use Rattle.builtin_net.specs.Allowed.{interface};
ghost use Rattle.builtin_net.specs.Port.{named_port, port_number, port_text, represented};

use crate::allowed::{Attribute, own_number, read_own};
use crate::prefixes::Prefix;
use crate::words::{is_printable, joined, leading_number, push_number};
use builtin_devices::some_text;
use device_core::Event;
use std::alloc::{AllocError, Global};
use text_bytes::following;
use text_tables::CowPairs;

/// The virtual function that the interface of a switch stands for, by the name of its port.
#[tactic(auto, unfolding(crate::specs::Port::represented))]
fn represented(name: &[u8]) -> Option<u64>
    ensures { result ≡ represented name.now }
{
    let (_, rest) = leading_number(following(b"pf", name)?)?;
    let (number, _) = leading_number(following(b"vf", rest)?)?;
    Some(number)
}

/// A port by its name, if that may be part of an interface's name.
#[tactic(auto, unfolding(crate::specs::Port::named_port))]
fn named_port(alloc: Global, name: &[u8]) -> Result<Option<Vec<u8>>, AllocError>
    ensures { IfOk result (λ text. option_map (λ t. t.items) text ≡ named_port name.now) }
{
    if let Some(number) = represented(name) {
        let mut text = Vec::new(alloc);
        push_number(&mut text, b"r", number)?;
        return Ok(Some(text));
    }
    if !is_printable(name) {
        return Ok(None);
    }
    Ok(Some(joined(alloc, b"n", name)?))
}

/// The number of a port.
#[tactic(auto, unfolding(crate::specs::Port::port_number))]
fn port_number(prefix: Prefix, event: &Event<'_>, env: &CowPairs<'_>, by_id: bool) -> Option<u64>
    ensures { result ≡ port_number prefix (interface event.now env.now) by_id }
{
    let number = own_number(event, env, Attribute::DevPort)?;
    if number == 0 && by_id && prefix.is_infiniband() {
        return own_number(event, env, Attribute::DevId);
    }
    Some(number)
}

/// What names of an interface say about its port; `None` if no name can be given. The number of the port of
/// InfiniBand counts if `by_id` says so.
#[tactic(auto, unfolding(crate::specs::Port::port_text))]
pub(crate) fn port_text(
    alloc: Global,
    prefix: Prefix,
    event: &Event<'_>,
    env: &CowPairs<'_>,
    by_id: bool,
) -> Result<Option<Vec<u8>>, AllocError>
    ensures { IfOk result (λ text. option_map (λ t. t.items) text ≡ port_text prefix (interface event.now env.now) by_id) }
{
    if let Some(name) = some_text(read_own(event, env, Attribute::PhysPortName)) {
        return named_port(alloc, name);
    }
    let Some(number) = port_number(prefix, event, env, by_id) else {
        return Ok(None);
    };
    let mut text = Vec::new(alloc);
    if number != 0 {
        push_number(&mut text, b"d", number)?;
    }
    Ok(Some(text))
}
