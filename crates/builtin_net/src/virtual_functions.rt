//! Virtual functions, whose names are those of the physical one.
ghost use Rattle.std.specs.Prelude.{◌≡◌, IfOk, option_map};
ghost use Rattle.builtin_net.specs.Virtual.{named_function, number_leading, virtual_number};

use crate::words::{file_of, joined};
use builtin_devices::{Devices, files_below};
use device_core::{Device, Event};
use std::alloc::{AllocError, Global};
use std::marker::Model;
use text_bytes::{following, is_decimal};

/// A function by which an interface is named.
#[derive(Drop)]
pub(crate) struct NamedFunction<'d, 'a> {
    /// The device.
    pub(crate) pci: &'d Device<'a>,
    /// What follows its names: the number of the virtual function, or nothing.
    pub(crate) suffix: Vec<u8>,
}

impl<'d, 'a> Model for NamedFunction<'d, 'a> {
    ghost use Rattle.builtin_net.specs.Virtual.{Named};

    ghost Value = { Named };

    ghost view = { λ f. (f.pci.now, f.suffix.items) };
}

/// The number of a virtual function, if a link of its physical one leads to it.
#[tactic(auto, unfolding(crate::specs::Virtual::number_leading))]
fn number_leading<'a>(path: &[u8], link: &'a [u8], text: &[u8]) -> Option<&'a [u8]>
    ensures { option_map (λ t. t.now) result ≡ number_leading path.now (link.now, text.now) }
{
    let digits = following(b"virtfn", link)?;
    if !is_decimal(digits) || text != path {
        return None;
    }
    Some(digits)
}

/// The number of a virtual function among those of its physical one.
#[tactic(auto, unfolding(crate::specs::Virtual::virtual_number))]
fn virtual_number<'a>(
    alloc: Global,
    event: &Event<'a>,
    physical: &[u8],
    path: &[u8],
) -> Result<Option<&'a [u8]>, AllocError>
    ensures { IfOk result (λ number. option_map (λ t. t.now) number ≡ virtual_number event.now physical.now path.now) }
{
    for file in files_below(alloc, event, physical)? {
        if let Some(number) = number_leading(path, file.0, file.1) {
            return Ok(Some(number));
        }
    }
    Ok(None)
}

/// The function by which an interface is named; `None` if the block does not describe the physical one.
#[tactic(auto, unfolding(crate::specs::Virtual::named_function))]
pub(crate) fn named_function<'d, 'a>(
    alloc: Global,
    devices: &'d Devices<'a>,
    pci: &'d Device<'a>,
) -> Result<Option<NamedFunction<'d, 'a>>, AllocError>
    ensures { IfOk result (λ named. named ≡ named_function devices.now pci.now) }
{
    let own = NamedFunction {
        pci,
        suffix: Vec::new(alloc),
    };
    let Some(path) = file_of(alloc, devices.event(), pci, b"/physfn")? else {
        return Ok(Some(own));
    };
    let Some(physical) = devices.device_by(path) else {
        return Ok(None);
    };
    match virtual_number(alloc, devices.event(), physical.path(), pci.path())? {
        Some(number) => Ok(Some(NamedFunction {
            pci: physical,
            suffix: joined(alloc, b"v", number)?,
        })),
        None => Ok(Some(own)),
    }
}
