//! The names and the label of an interface of PCI.
ghost use Rattle.std.specs.Prelude.{◌≡◌, ◌++◌, option_map, IfOk, OnOk};
ghost use Rattle.text_tables.specs.Texts.{with_texts};
ghost use Rattle.builtin_net.specs.Allowed.{interface};
ghost use Rattle.builtin_net.specs.Names.{board_number, board_text, by_pci, label_of, on_board};

use crate::allowed::{Attribute, number, read};
use crate::buses::parent_after_virtio;
use crate::function_names::give_by_function;
use crate::given::{Given, give};
use crate::needs::need_port;
use crate::ports::port_text;
use crate::prefixes::Prefix;
use crate::virtual_functions::{NamedFunction, named_function};
use crate::words::{is_printable, push_number};
use builtin_devices::{Devices, is_of};
use device_core::{Device, Event};
use std::alloc::{AllocError, Global};
use text_tables::CowPairs;

/// The number of a function on board, of 16 bits.
#[tactic(auto, unfolding(crate::specs::Names::board_number))]
fn board_number(pci: &Device<'_>) -> Option<u64>
    ensures { result ≡ board_number pci.now }
{
    let number = number(pci, Attribute::AcpiIndex).or(number(pci, Attribute::Index))?;
    if number >= 1 << 16 {
        return None;
    }
    Some(number)
}

/// The name by the number on board.
#[tactic(auto, unfolding(crate::specs::Names::board_text))]
fn board_text(
    alloc: Global,
    prefix: Prefix,
    event: &Event<'_>,
    env: &CowPairs<'_>,
    pci: &Device<'_>,
    suffix: &[u8],
) -> Result<Option<Vec<u8>>, AllocError>
    ensures { IfOk result (λ text. option_map (λ t. t.items) text ≡ board_text prefix (interface event.now env.now) pci.now suffix.now) }
{
    let Some(number) = board_number(pci) else {
        return Ok(None);
    };
    let Some(port) = port_text(alloc, prefix, event, env, false)? else {
        return Ok(None);
    };
    let mut text = Vec::new(alloc);
    push_number(&mut text, b"o", number)?;
    text.extend_from_slice(&port)?;
    text.extend_from_slice(suffix)?;
    Ok(Some(text))
}

/// The label of a function, if it may be part of a name, unless the function is a virtual one.
fn label_of(alloc: Global, pci: &Device<'_>, suffix: &[u8]) -> Result<Option<Vec<u8>>, AllocError>
    ensures { IfOk result (λ text. option_map (λ t. t.items) text ≡ label_of pci.now suffix.now) }
{
    let Some(text) = read(pci, Attribute::Label) else {
        return Ok(None);
    };
    if !suffix.is_empty() || !is_printable(text) {
        return Ok(None);
    }
    Ok(Some(Vec::from_slice(alloc, text)?))
}

/// Gives the label of a function, and the name by its number on board.
fn give_on_board(
    alloc: Global,
    given: &mut Given,
    prefix: Prefix,
    event: &Event<'_>,
    env: &CowPairs<'_>,
    own: &NamedFunction<'_, '_>,
) -> Result<(), AllocError>
    ensures properties { OnOk result (given.new.properties.items
        ≡ given.old.properties.items ++ (on_board prefix (interface event.now env.now) own.now.0 own.now.1).properties) }
    ensures needs { OnOk result (given.new.needs
        ≡ with_texts given.old.needs (on_board prefix (interface event.now env.now) own.now.0 own.now.1).needs) }
{
    let label = label_of(alloc, own.pci, &own.suffix)?;
    let board = board_text(alloc, prefix, event, env, own.pci, &own.suffix)?;
    let names = &mut given.properties;
    give(alloc, names, b"ID_NET_LABEL_ONBOARD", b"", label)?;
    give(alloc, names, b"ID_NET_NAME_ONBOARD", prefix.text(), board)?;
    if board_number(own.pci).is_none() {
        return Ok(());
    }
    need_port(alloc, &mut given.needs, prefix, event, env, false)
}

/// Gives what is above an interface of PCI.
#[tactic(auto, unfolding(crate::specs::Names::by_pci))]
pub(crate) fn give_by_pci(
    alloc: Global,
    given: &mut Given,
    devices: &Devices<'_>,
    prefix: Prefix,
    env: &CowPairs<'_>,
) -> Result<(), AllocError>
    ensures properties { OnOk result (given.new.properties.items
        ≡ given.old.properties.items ++ (by_pci devices.now prefix (interface devices.now env.now)).properties) }
    ensures needs { OnOk result (given.new.needs ≡ with_texts given.old.needs (by_pci devices.now prefix (interface devices.now env.now)).needs) }
{
    let Some(pci) = parent_after_virtio(alloc, devices)? else {
        return Ok(());
    };
    if !is_of(b"pci", None, pci) {
        return Ok(());
    }
    let Some(own) = named_function(alloc, devices, pci)? else {
        return given.needs.add(alloc, b"physfn");
    };
    give_on_board(alloc, given, prefix, devices.event(), env, &own)?;
    give_by_function(alloc, given, devices, prefix, env, own.pci, &own.suffix)
}
