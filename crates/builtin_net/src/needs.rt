//! What a block would have to report for the names of an interface, part by part.
ghost use Rattle.std.specs.Prelude.{◌≡◌, OnOk};
ghost use Rattle.text_tables.specs.Texts.{with_texts};
ghost use Rattle.builtin_net.specs.Allowed.{interface};
ghost use Rattle.builtin_net.specs.Needs.{address_needs, config_needs, own_needs, port_needs, tree_needs, when};

use crate::allowed::{Attribute, lacks_own, own_number, read_own};
use crate::functions::Function;
use crate::identity::{index, is_alone};
use crate::prefixes::Prefix;
use crate::slots::{firmware_number, is_bridge, is_described};
use crate::trees::{ALIASES_FOLDER, node_link};
use crate::words::file_of;
use builtin_devices::{Devices, is_number, is_of, some_text};
use device_core::{Device, Event};
use std::alloc::{AllocError, Global};
use text_tables::{CowPairs, OwnedTexts};

/// Adds a word to what is needed, under a condition.
pub(crate) fn need(
    alloc: Global,
    needs: &mut OwnedTexts,
    holds: bool,
    word: &[u8],
) -> Result<(), AllocError>
    ensures { OnOk result (needs.new ≡ with_texts needs.old (when holds word.now)) }
{
    if holds {
        needs.add(alloc, word)
    } else {
        Ok(())
    }
}

/// Adds what is needed for the index and the hardware.
pub(crate) fn need_own(
    alloc: Global,
    needs: &mut OwnedTexts,
    event: &Event<'_>,
    env: &CowPairs<'_>,
) -> Result<(), AllocError>
    ensures { OnOk result (needs.new ≡ with_texts needs.old (own_needs event.now (interface event.now env.now))) }
{
    let device = event.device();
    let lacks_index = is_of(b"net", None, device) && device.env().get(b"IFINDEX").is_none();
    need(alloc, needs, lacks_index, b"IFINDEX")?;
    let lacks_link = index(event).is_some() && lacks_own(event, env, Attribute::Iflink);
    need(alloc, needs, lacks_link, b"iflink")?;
    let lacks_type = is_alone(event, env) && lacks_own(event, env, Attribute::Hardware);
    need(alloc, needs, lacks_type, b"type")
}

/// Adds what is needed for the address.
pub(crate) fn need_address(
    alloc: Global,
    needs: &mut OwnedTexts,
    prefix: Prefix,
    event: &Event<'_>,
    env: &CowPairs<'_>,
) -> Result<(), AllocError>
    ensures { OnOk result (needs.new ≡ with_texts needs.old (address_needs prefix (interface event.now env.now))) }
{
    if prefix.is_infiniband() {
        return Ok(());
    }
    let lacks_kind = lacks_own(event, env, Attribute::AddrAssignType);
    need(alloc, needs, lacks_kind, b"addr_assign_type")?;
    let stays = is_number(0, own_number(event, env, Attribute::AddrAssignType));
    let lacks_address = stays && lacks_own(event, env, Attribute::Address);
    need(alloc, needs, lacks_address, b"address")
}

/// Adds what is needed for the aliases of a device tree.
pub(crate) fn need_tree(
    alloc: Global,
    needs: &mut OwnedTexts,
    devices: &Devices<'_>,
    prefix: Prefix,
) -> Result<(), AllocError>
    ensures { OnOk result (needs.new ≡ with_texts needs.old (tree_needs devices.now prefix)) }
{
    let has_node = node_link(alloc, devices)?.is_some();
    let is_described = is_described(alloc, devices.event(), ALIASES_FOLDER)?;
    need(
        alloc,
        needs,
        matches!(prefix, Prefix::Ethernet) && has_node && !is_described,
        b"aliases",
    )
}

/// Adds what is needed for the port.
pub(crate) fn need_port(
    alloc: Global,
    needs: &mut OwnedTexts,
    prefix: Prefix,
    event: &Event<'_>,
    env: &CowPairs<'_>,
    by_id: bool,
) -> Result<(), AllocError>
    ensures { OnOk result (needs.new ≡ with_texts needs.old (port_needs prefix (interface event.now env.now) by_id)) }
{
    if some_text(read_own(event, env, Attribute::PhysPortName)).is_some() {
        return Ok(());
    }
    let lacks_port = lacks_own(event, env, Attribute::DevPort);
    need(alloc, needs, lacks_port, b"dev_port")?;
    let is_first = is_number(0, own_number(event, env, Attribute::DevPort));
    let asks_id = is_first && by_id && prefix.is_infiniband();
    need(
        alloc,
        needs,
        asks_id && lacks_own(event, env, Attribute::DevId),
        b"dev_id",
    )
}

/// Adds what is needed for the configuration of a function.
pub(crate) fn need_config(
    alloc: Global,
    needs: &mut OwnedTexts,
    devices: &Devices<'_>,
    pci: &Device<'_>,
    f: Function,
    has_port: bool,
) -> Result<(), AllocError>
    ensures { OnOk result (needs.new ≡ with_texts needs.old (config_needs devices.now pci.now f has_port)) }
{
    let below_bridge = match devices.above(alloc, b"pci", None, pci.path())? {
        Some(above) => is_bridge(above),
        None => false,
    };
    let asks = f.function == 0 || has_port && firmware_number(pci).is_none() && below_bridge;
    let is_described = file_of(alloc, devices.event(), pci, b"/config")?.is_some();
    need(alloc, needs, asks && !is_described, b"config")
}
