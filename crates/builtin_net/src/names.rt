//! All names of an interface, in the order in which they are set.
ghost use Rattle.std.specs.Prelude.{◌≡◌, ◌++◌, codes, option_map, IfOk, OnOk};
ghost use Rattle.text_tables.specs.Texts.{with_texts};
ghost use Rattle.builtin_net.specs.Allowed.{interface};
ghost use Rattle.builtin_net.specs.Names.{all_names, by_address, by_buses, lasting_address, own_names, prefixed};
ghost use Rattle.builtin_net.specs.Prefixes.{prefix_text};
ghost use Rattle.builtin_net.specs.Trees.{by_tree};

use crate::allowed::{Attribute, own_number, read_own};
use crate::bus_names::give_by_buses;
use crate::carriers::{Bus, give_by_carrier};
use crate::given::{Given, give};
use crate::needs::{need_address, need_tree};
use crate::pci_names::give_by_pci;
use crate::prefixes::Prefix;
use crate::trees::by_tree;
use crate::words::joined;
use builtin_devices::{Devices, add_property, is_number, marked_digits};
use device_core::Event;
use std::alloc::{AllocError, Global};
use text_bytes::Bytes;
use text_tables::CowPairs;

/// The twelve lower case digits of an address that stays, if it has six bytes.
#[tactic(auto, unfolding(crate::specs::Names::lasting_address))]
pub(crate) fn lasting_address(
    alloc: Global,
    prefix: Prefix,
    event: &Event<'_>,
    env: &CowPairs<'_>,
) -> Result<Option<Vec<u8>>, AllocError>
    ensures { IfOk result (λ digits. option_map (λ d. d.items) digits ≡ lasting_address prefix (interface event.now env.now)) }
{
    if prefix.is_infiniband() || !is_number(0, own_number(event, env, Attribute::AddrAssignType)) {
        return Ok(None);
    }
    let Some(text) = read_own(event, env, Attribute::Address) else {
        return Ok(None);
    };
    if let Some(digits) = marked_digits(alloc, b':', 6, 2, text)? {
        return Ok(Some(digits));
    }
    if let Some(digits) = marked_digits(alloc, b'-', 6, 2, text)? {
        return Ok(Some(digits));
    }
    marked_digits(alloc, b'.', 3, 4, text)
}

/// What names say about the address.
fn by_address(
    alloc: Global,
    prefix: Prefix,
    event: &Event<'_>,
    env: &CowPairs<'_>,
) -> Result<Option<Vec<u8>>, AllocError>
    ensures { IfOk result (λ text. option_map (λ t. t.items) text ≡ by_address prefix (interface event.now env.now)) }
{
    match lasting_address(alloc, prefix, event, env)? {
        Some(digits) => Ok(Some(joined(alloc, b"x", &digits)?)),
        None => Ok(None),
    }
}

/// Gives the names by the address, by the device tree, and by buses whose devices have no functions of PCI.
fn give_plain(
    alloc: Global,
    names: &mut Vec<(Bytes, Bytes)>,
    devices: &Devices<'_>,
    prefix: Prefix,
    env: &CowPairs<'_>,
) -> Result<(), AllocError>
    ensures { OnOk result (names.new.items ≡ names.old.items
        ++ (prefixed (codes "ID_NET_NAME_MAC") (prefix_text prefix) (by_address prefix (interface devices.now env.now))
        ++ prefixed (codes "ID_NET_NAME_ONBOARD") (prefix_text prefix) (by_tree devices.now prefix)
        ++ by_buses devices.now (prefix_text prefix) (interface devices.now env.now))) }
{
    let address = by_address(alloc, prefix, devices.event(), env)?;
    give(alloc, names, b"ID_NET_NAME_MAC", prefix.text(), address)?;
    let tree = by_tree(alloc, devices, prefix)?;
    give(alloc, names, b"ID_NET_NAME_ONBOARD", prefix.text(), tree)?;
    give_by_buses(alloc, names, devices, prefix.text(), env)?;
    Ok(())
}

/// Gives the naming scheme, and then those names.
fn give_own(
    alloc: Global,
    names: &mut Vec<(Bytes, Bytes)>,
    devices: &Devices<'_>,
    prefix: Prefix,
    env: &CowPairs<'_>,
) -> Result<(), AllocError>
    ensures { OnOk result (names.new.items ≡ names.old.items ++ own_names devices.now prefix (interface devices.now env.now)) }
{
    add_property(alloc, b"ID_NET_NAMING_SCHEME", b"v257", names)?;
    give_plain(alloc, names, devices, prefix, env)?;
    Ok(())
}

/// Gives all names, in the order in which they are set.
#[tactic(auto, unfolding(crate::specs::Names::all_names))]
pub(crate) fn give_names(
    alloc: Global,
    given: &mut Given,
    devices: &Devices<'_>,
    prefix: Prefix,
    env: &CowPairs<'_>,
) -> Result<(), AllocError>
    ensures properties { OnOk result (given.new.properties.items
        ≡ given.old.properties.items ++ (all_names devices.now prefix (interface devices.now env.now)).properties) }
    ensures needs { OnOk result (given.new.needs
        ≡ with_texts given.old.needs (all_names devices.now prefix (interface devices.now env.now)).needs) }
{
    give_own(alloc, &mut given.properties, devices, prefix, env)?;
    need_address(alloc, &mut given.needs, prefix, devices.event(), env)?;
    need_tree(alloc, &mut given.needs, devices, prefix)?;
    give_by_pci(alloc, given, devices, prefix, env)?;
    give_by_carrier(alloc, given, Bus::Usb, devices, prefix, env)?;
    give_by_carrier(alloc, given, Bus::Bcma, devices, prefix, env)?;
    Ok(())
}
