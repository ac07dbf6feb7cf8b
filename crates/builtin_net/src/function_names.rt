//! The names by the place and the slot of a function of PCI.
ghost use Rattle.std.specs.Prelude.{◌≡◌, ◌++◌, option_map, IfOk, OnOk};
ghost use Rattle.text_tables.specs.Texts.{with_texts};
ghost use Rattle.builtin_net.specs.Allowed.{interface};
ghost use Rattle.builtin_net.specs.Names.{by_function, slot_text, tail, with_tail};
ghost use Rattle.builtin_net.specs.Needs.{slot_needs};
ghost use Rattle.builtin_net.specs.Slots.{slot_of};

use crate::functions::{Function, function_at, is_several, push_domain};
use crate::given::{Given, give};
use crate::needs::{need_config, need_port};
use crate::ports::port_text;
use crate::prefixes::Prefix;
use crate::slots::slot_of;
use crate::words::push_number;
use builtin_devices::Devices;
use device_core::{Device, Event};
use std::alloc::{AllocError, Global};
use text_tables::{CowPairs, OwnedTexts};

/// What follows the place or the slot of a function: the function, unless it is the first and the only one, and the rest.
fn tail(
    alloc: Global,
    event: &Event<'_>,
    pci: &Device<'_>,
    f: Function,
    port: &[u8],
    suffix: &[u8],
) -> Result<Vec<u8>, AllocError>
    ensures { IfOk result (λ text. text.items ≡ tail event.now pci.now f port.now suffix.now) }
{
    let several = is_several(alloc, event, pci)?;
    let mut text = Vec::new(alloc);
    if f.function != 0 || several {
        push_number(&mut text, b"f", f.function)?;
    }
    text.extend_from_slice(port)?;
    text.extend_from_slice(suffix)?;
    Ok(text)
}

/// The name by the slot of a function, if it is in one. What the block would have to report for the slot is added.
fn slot_text<'a>(
    alloc: Global,
    needs: &mut OwnedTexts,
    devices: &Devices<'a>,
    pci: &Device<'a>,
    f: Function,
    tail: &[u8],
) -> Result<Option<Vec<u8>>, AllocError>
    ensures name { IfOk result (λ text. option_map (λ t. t.items) text ≡ option_map (slot_text f tail.now) (slot_of devices.now pci.now)) }
    ensures needs { OnOk result (needs.new ≡ with_texts needs.old (slot_needs devices.now pci.now)) }
{
    let Some(slot) = slot_of(alloc, needs, devices, pci)? else {
        return Ok(None);
    };
    let mut text = Vec::new(alloc);
    if !slot.drops_domain {
        push_domain(&mut text, f)?;
    }
    push_number(&mut text, b"s", slot.number)?;
    text.extend_from_slice(tail)?;
    Ok(Some(text))
}

/// Gives both names of a function with what follows: by its place, and by its slot if it is in one.
fn give_with_tail<'a>(
    alloc: Global,
    given: &mut Given,
    devices: &Devices<'a>,
    prefix: Prefix,
    pci: &Device<'a>,
    f: Function,
    tail: &[u8],
) -> Result<(), AllocError>
    ensures properties { OnOk result (given.new.properties.items
        ≡ given.old.properties.items ++ (with_tail devices.now prefix pci.now f tail.now).properties) }
    ensures needs { OnOk result (given.new.needs ≡ with_texts given.old.needs (with_tail devices.now prefix pci.now f tail.now).needs) }
{
    let mut path = Vec::new(alloc);
    push_domain(&mut path, f)?;
    push_number(&mut path, b"p", f.bus)?;
    push_number(&mut path, b"s", f.slot)?;
    path.extend_from_slice(tail)?;
    let slot = slot_text(alloc, &mut given.needs, devices, pci, f, tail)?;
    let names = &mut given.properties;
    give(alloc, names, b"ID_NET_NAME_PATH", prefix.text(), Some(path))?;
    give(alloc, names, b"ID_NET_NAME_SLOT", prefix.text(), slot)
}

/// Gives both names of a device, if it is a function.
#[tactic(auto, unfolding(crate::specs::Names::by_function))]
pub(crate) fn give_by_function<'a>(
    alloc: Global,
    given: &mut Given,
    devices: &Devices<'a>,
    prefix: Prefix,
    env: &CowPairs<'_>,
    pci: &Device<'a>,
    suffix: &[u8],
) -> Result<(), AllocError>
    ensures properties { OnOk result (given.new.properties.items
        ≡ given.old.properties.items ++ (by_function devices.now prefix (interface devices.now env.now) pci.now suffix.now).properties) }
    ensures needs { OnOk result (given.new.needs
        ≡ with_texts given.old.needs (by_function devices.now prefix (interface devices.now env.now) pci.now suffix.now).needs) }
{
    let Some(f) = function_at(alloc, pci)? else {
        return Ok(());
    };
    let event = devices.event();
    let port = port_text(alloc, prefix, event, env, true)?;
    need_config(alloc, &mut given.needs, devices, pci, f, port.is_some())?;
    need_port(alloc, &mut given.needs, prefix, event, env, true)?;
    let Some(port) = port else {
        return Ok(());
    };
    let tail = tail(alloc, event, pci, f, &port, suffix)?;
    give_with_tail(alloc, given, devices, prefix, pci, f, &tail)
}
