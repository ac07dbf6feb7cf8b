//! The names of an interface by the buses that it is attached to, if these have no functions of PCI.
ghost use Rattle.std.specs.Prelude.{◌≡◌, ◌++◌, OnOk};
ghost use Rattle.builtin_net.specs.Allowed.{interface};
ghost use Rattle.builtin_net.specs.Names.{by_buses, by_kernels};

use crate::buses::{by_ccw, by_netdevsim, by_platform, by_vio, by_xen};
use crate::given::give;
use builtin_devices::Devices;
use std::alloc::{AllocError, Global};
use text_bytes::Bytes;
use text_tables::CowPairs;

/// Gives the names by the name of the device above.
#[tactic(auto, unfolding(crate::specs::Names::by_kernels))]
fn give_by_kernels(
    alloc: Global,
    names: &mut Vec<(Bytes, Bytes)>,
    devices: &Devices<'_>,
    prefix: &[u8],
) -> Result<(), AllocError>
    ensures { OnOk result (names.new.items ≡ names.old.items ++ by_kernels devices.now prefix.now) }
{
    let ccw = by_ccw(alloc, devices)?;
    give(alloc, names, b"ID_NET_NAME_PATH", prefix, ccw)?;
    let vio = by_vio(alloc, devices)?;
    give(alloc, names, b"ID_NET_NAME_SLOT", prefix, vio)?;
    let platform = by_platform(alloc, devices)?;
    give(alloc, names, b"ID_NET_NAME_PATH", prefix, platform)
}

/// Gives the names by buses whose devices have no functions of PCI.
#[tactic(auto, unfolding(crate::specs::Names::by_buses))]
pub(crate) fn give_by_buses(
    alloc: Global,
    names: &mut Vec<(Bytes, Bytes)>,
    devices: &Devices<'_>,
    prefix: &[u8],
    env: &CowPairs<'_>,
) -> Result<(), AllocError>
    ensures { OnOk result (names.new.items ≡ names.old.items ++ by_buses devices.now prefix.now (interface devices.now env.now)) }
{
    give_by_kernels(alloc, names, devices, prefix)?;
    let simulated = by_netdevsim(alloc, devices, env)?;
    give(alloc, names, b"ID_NET_NAME_PATH", prefix, simulated)?;
    let xen = by_xen(alloc, devices)?;
    give(alloc, names, b"ID_NET_NAME_SLOT", prefix, xen)
}
