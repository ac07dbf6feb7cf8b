//! What the keys of `[Match]` say about an interface.
ghost use Rattle.std.specs.Prelude.{◌≡◌, ◌++◌, IfOk, OnOk, map, option_map};
ghost use Rattle.builtin_link.specs.Checks.{checks_of, condition_check, kind_checks, name_checks, permanent_address};

use crate::checks::{
    Check, Need, address_check, kind_check, known_check, property_check, text_check,
};
use crate::hardware::type_text;
use crate::machines::written_holds;
use crate::numbers::own_number;
use builtin_devices::{attribute, is_number};
use device_core::Event;
use link_files::{MATCH, Setting, WordKind, last_of};
use std::alloc::{AllocError, Global};
use text_bytes::kernel_name;
use text_tables::CowPairs;

/// The conditions on the machine, by their keys.
const CONDITIONS: [(&[u8], Need); 7] = [
    (b"Host", Need::Host),
    (b"Virtualization", Need::Virtualization),
    (b"KernelCommandLine", Need::KernelCommandLine),
    (b"KernelVersion", Need::KernelVersion),
    (b"Credential", Need::Credential),
    (b"Architecture", Need::Architecture),
    (b"Firmware", Need::Firmware),
];

/// The address of the hardware: that of the interface, if the block says that this is it, or else what the block says of it.
#[tactic(auto, unfolding(crate::specs::Checks::permanent_address))]
fn permanent_address<'a>(event: &Event<'a>) -> Option<&'a [u8]>
    ensures { option_map (λ t. t.now) result ≡ permanent_address event.now }
{
    if is_number(0, own_number(event, b"addr_assign_type")) {
        attribute(event.device(), b"address")
    } else {
        event.constants().get(b"permaddr")
    }
}

/// A condition on the machine, by its key.
fn condition_check(
    alloc: Global,
    event: &Event<'_>,
    settings: &[Setting],
    key: &[u8],
    need: Need,
) -> Result<Check, AllocError>
    ensures { IfOk result (λ check. check ≡ condition_check event.now settings.now (key.now, need)) }
{
    let value = last_of(MATCH, key, settings);
    if value.is_empty() {
        return Ok(Check::Absent);
    }
    match written_holds(alloc, event, need, value)? {
        Some(holds) => Ok(Check::of(holds)),
        None => Ok(Check::Lacks(need)),
    }
}

/// What the keys say about the name of an interface, its place and its driver.
#[tactic(auto, unfolding(crate::specs::Checks::name_checks))]
fn name_checks(
    alloc: Global,
    event: &Event<'_>,
    env: &CowPairs<'_>,
    settings: &[Setting],
) -> Result<[Check; 3], AllocError>
    ensures { IfOk result (λ checks. checks ≡ name_checks event.now env.now settings.now) }
{
    let kernel = kernel_name(alloc, event.device().path())?;
    let kernel = Some(kernel.as_slice());
    let name = text_check(alloc, WordKind::Name, b"OriginalName", settings, kernel)?;
    let place = env.get(b"ID_PATH");
    let path = text_check(alloc, WordKind::Glob, b"Path", settings, place)?;
    let own = env.get(b"ID_NET_DRIVER");
    let driver = known_check(alloc, Need::Driver, b"Driver", settings, own)?;
    Ok([name, path, driver])
}

/// What the keys say about the type of an interface, its kind, its addresses and its properties.
#[tactic(auto, unfolding(crate::specs::Checks::kind_checks))]
fn kind_checks(
    alloc: Global,
    event: &Event<'_>,
    env: &CowPairs<'_>,
    settings: &[Setting],
) -> Result<[Check; 5], AllocError>
    ensures { IfOk result (λ checks. checks ≡ kind_checks event.now env.now settings.now) }
{
    let hardware = known_check(alloc, Need::Hardware, b"Type", settings, type_text(event))?;
    let kind = kind_check(alloc, settings, event.constants().get(b"kind"))?;
    let own = attribute(event.device(), b"address");
    let address = address_check(alloc, Need::Address, b"MACAddress", settings, own)?;
    let own = permanent_address(event);
    let need = Need::PermanentAddress;
    let permanent = address_check(alloc, need, b"PermanentMACAddress", settings, own)?;
    let property = property_check(alloc, env, settings)?;
    Ok([hardware, kind, address, permanent, property])
}

/// Adds the conditions on the machine.
fn add_conditions(
    alloc: Global,
    event: &Event<'_>,
    settings: &[Setting],
    conditions: &[(&[u8], Need)],
    checks: &mut Vec<Check>,
) -> Result<(), AllocError>
    ensures { OnOk result (checks.new.items
        ≡ checks.old.items ++ map (condition_check event.now settings.now) (map (λ condition. (condition.0.now, condition.1)) conditions.now)) }
{
    for condition in conditions {
        checks.push(condition_check(alloc, event, settings, condition.0, condition.1)?)?;
    }
    Ok(())
}

/// What the keys of `[Match]` say, each by itself.
#[tactic(auto, unfolding(crate::specs::Checks::checks_of))]
pub(crate) fn checks_of(
    alloc: Global,
    event: &Event<'_>,
    env: &CowPairs<'_>,
    settings: &[Setting],
) -> Result<Vec<Check>, AllocError>
    ensures { IfOk result (λ checks. checks.items ≡ checks_of event.now env.now settings.now) }
{
    let mut checks = Vec::from_slice(alloc, &name_checks(alloc, event, env, settings)?)?;
    checks.extend_from_slice(&kind_checks(alloc, event, env, settings)?)?;
    add_conditions(alloc, event, settings, &CONDITIONS, &mut checks)?;
    Ok(checks)
}
