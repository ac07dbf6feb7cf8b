//! Names by the aliases of a device tree.
ghost use Rattle.std.specs.Prelude.{◌≡◌, IfOk, option_map};
ghost use Rattle.builtin_net.specs.Trees.{alias_of, by_tree, clear_number, first_alias, node_link};

use crate::buses::parent;
use crate::prefixes::Prefix;
use crate::words::{MAX_NUMBER, file_of, push_number};
use builtin_devices::{Base, Devices, file_at, files_below, number_in};
use device_core::Event;
use std::alloc::{AllocError, Global};
use text_bytes::following;

/// The folder of the aliases of a device tree.
pub(crate) const ALIASES_FOLDER: &[u8] = b"/firmware/devicetree/base/aliases";

/// What follows the path of a device in that of the link to its node.
const NODE: &[u8] = b"/of_node";

/// Where the link of the event device to its node leads, or else that of the device above.
#[tactic(auto, unfolding(crate::specs::Trees::node_link))]
pub(crate) fn node_link<'a>(
    alloc: Global,
    devices: &Devices<'a>,
) -> Result<Option<&'a [u8]>, AllocError>
    ensures { IfOk result (λ link. option_map (λ t. t.now) link ≡ node_link devices.now) }
{
    let event = devices.event();
    if let Some(link) = file_of(alloc, event, event.device(), NODE)? {
        return Ok(Some(link));
    }
    let Some(device) = parent(alloc, devices)? else {
        return Ok(None);
    };
    let link = file_of(alloc, event, device, NODE)?;
    Ok(link)
}

/// The number of an alias, by what follows `ethernet` in its name, and 0 if nothing does; `None` if another alias has
/// the same number, 0.
#[tactic(auto, unfolding(crate::specs::Trees::clear_number))]
fn clear_number(event: &Event<'_>, following: &[u8]) -> Option<u64>
    ensures { result ≡ clear_number event.now following.now }
{
    if following.is_empty() {
        return match file_at(event, b"/firmware/devicetree/base/aliases/ethernet0") {
            Some(_) => None,
            None => Some(0),
        };
    }
    let number = number_in(Base::AsWritten, MAX_NUMBER, following)?;
    if number == 0 && file_at(event, b"/firmware/devicetree/base/aliases/ethernet").is_some() {
        return None;
    }
    Some(number)
}

/// What follows `ethernet` in the name of a file, if it is the alias of a node.
fn alias_of<'a>(node: &[u8], path: &'a [u8], text: &[u8]) -> Option<&'a [u8]>
    ensures { option_map (λ t. t.now) result ≡ alias_of node.now (path.now, text.now) }
{
    if text != node {
        return None;
    }
    following(b"ethernet", path)
}

/// What follows `ethernet` in the name of the first alias of a node.
fn first_alias<'a>(
    alloc: Global,
    event: &Event<'a>,
    node: &[u8],
) -> Result<Option<&'a [u8]>, AllocError>
    ensures { IfOk result (λ following. option_map (λ t. t.now) following ≡ first_alias event.now node.now) }
{
    for file in files_below(alloc, event, ALIASES_FOLDER)? {
        if let Some(end) = alias_of(node, file.0, file.1) {
            return Ok(Some(end));
        }
    }
    Ok(None)
}

/// What names say about the node of an interface, which only Ethernet has.
#[tactic(auto, unfolding(crate::specs::Trees::by_tree))]
pub(crate) fn by_tree(
    alloc: Global,
    devices: &Devices<'_>,
    prefix: Prefix,
) -> Result<Option<Vec<u8>>, AllocError>
    ensures { IfOk result (λ text. option_map (λ t. t.items) text ≡ by_tree devices.now prefix) }
{
    if !matches!(prefix, Prefix::Ethernet) {
        return Ok(None);
    }
    let Some(link) = node_link(alloc, devices)? else {
        return Ok(None);
    };
    let node = following(b"/firmware/devicetree/base", link).unwrap_or(link);
    let Some(end) = first_alias(alloc, devices.event(), node)? else {
        return Ok(None);
    };
    let Some(number) = clear_number(devices.event(), end) else {
        return Ok(None);
    };
    let mut text = Vec::new(alloc);
    push_number(&mut text, b"d", number)?;
    Ok(Some(text))
}
