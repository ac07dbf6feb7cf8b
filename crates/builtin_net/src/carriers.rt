//! The names of an interface below a device of USB or of bcma: those of the function of PCI above, with an end.
ghost use Rattle.std.specs.Prelude.{◌≡◌, ◌++◌, OnOk};
ghost use Rattle.text_tables.specs.Texts.{with_texts};
ghost use Rattle.builtin_net.specs.Allowed.{interface};
ghost use Rattle.builtin_net.specs.Names.{by_carrier};

use crate::function_names::give_by_function;
use crate::given::{Given, give};
use crate::prefixes::Prefix;
use crate::usb::{bcma_suffix, usb_suffix};
use builtin_devices::Devices;
use std::alloc::{AllocError, Global};
use text_bytes::kernel_name;
use text_tables::CowPairs;

/// A bus with devices that carry interfaces.
#[derive(Clone, Copy)]
pub(crate) enum Bus {
    /// USB, by its interfaces.
    Usb,
    /// bcma, by its cores.
    Bcma,
}

/// Gives the names of an interface of USB or a core of bcma that an interface is: those of the function of PCI above it,
/// with an end, or else for USB the end alone.
#[tactic(auto, unfolding(crate::specs::Names::by_carrier))]
pub(crate) fn give_by_carrier(
    alloc: Global,
    given: &mut Given,
    bus: Bus,
    devices: &Devices<'_>,
    prefix: Prefix,
    env: &CowPairs<'_>,
) -> Result<(), AllocError>
    ensures properties { OnOk result (given.new.properties.items
        ≡ given.old.properties.items ++ (by_carrier bus devices.now prefix (interface devices.now env.now)).properties) }
    ensures needs { OnOk result (given.new.needs
        ≡ with_texts given.old.needs (by_carrier bus devices.now prefix (interface devices.now env.now)).needs) }
{
    let path = devices.event().device().path();
    let carrier = match bus {
        Bus::Usb => devices.above(alloc, b"usb", Some(b"usb_interface"), path)?,
        Bus::Bcma => devices.above(alloc, b"bcma", None, path)?,
    };
    let Some(device) = carrier else {
        return Ok(());
    };
    let kernel = kernel_name(alloc, device.path())?;
    let suffix = match bus {
        Bus::Usb => usb_suffix(alloc, kernel.as_slice())?,
        Bus::Bcma => bcma_suffix(alloc, kernel.as_slice())?,
    };
    let Some(suffix) = suffix else {
        return Ok(());
    };
    if let Some(pci) = devices.above(alloc, b"pci", None, device.path())? {
        return give_by_function(alloc, given, devices, prefix, env, pci, &suffix);
    }
    match bus {
        Bus::Usb => {
            let names = &mut given.properties;
            give(
                alloc,
                names,
                b"ID_NET_NAME_PATH",
                prefix.text(),
                Some(suffix),
            )
        }
        Bus::Bcma => Ok(()),
    }
}
