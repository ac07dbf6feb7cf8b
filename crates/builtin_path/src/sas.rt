//! What a disk of SAS adds.
ghost use Rattle.std.specs.Prelude.{◌≡◌, [], IfOk, codes, if◌then◌else◌, option_map, true};
ghost use Rattle.text_bytes.specs.Kernels.{last_component};
ghost use Rattle.builtin_path.specs.Members.{begins};
ghost use Rattle.builtin_path.specs.Stops.{absent, adding};
ghost use Rattle.builtin_path.specs.Scsi.{expander_stop, narrow_stop, phy_part, sas_stop, wide_stop};

use crate::members::{Member, class_attribute_at, from_first};
use crate::scsi::unit_text;
use crate::stops::{Stop, absent, lost};
use crate::texts::concatenated;
use builtin_devices::{Base, number_in};
use std::alloc::{AllocError, Global};
use text_bytes::Bytes;
use text_tables::OwnedTexts;

/// What a disk of SAS at a port of several phys adds, by the devices from the target on.
fn wide_stop(alloc: Global, member: &Member<'_>, devices: &[Member<'_>]) -> Result<Stop, AllocError>
    ensures { IfOk result (λ stop. stop ≡ wide_stop member.now devices.now) }
{
    let Some(sas) = class_attribute_at(alloc, devices, 1, b"sas_device", b"sas_address")? else {
        return lost(alloc, b"sas_address", true);
    };
    let unit = unit_text(alloc, member)?;
    let part = concatenated(alloc, &[b"sas-", sas, b"-", unit.as_slice()])?;
    Ok(Stop::adding(alloc, part, true, true, 0))
}

/// The part of a disk of SAS at one phy, by the address of what is above its port, if that is an expander.
fn phy_part(
    alloc: Global,
    member: &Member<'_>,
    phy: &[u8],
    sas: Option<&[u8]>,
) -> Result<Bytes, AllocError>
    ensures { IfOk result (λ part. part ≡ phy_part member.now phy.now (option_map (λ t. t.now) sas.entry)) }
{
    let unit = unit_text(alloc, member)?;
    match sas {
        None => concatenated(alloc, &[b"sas-phy", phy, b"-", unit.as_slice()]),
        Some(sas) => concatenated(
            alloc,
            &[b"sas-exp", sas, b"-phy", phy, b"-", unit.as_slice()],
        ),
    }
}

/// What the block would have to report about an expander: its address.
fn expander_needs(
    alloc: Global,
    expander: &Member<'_>,
    sas: Option<&[u8]>,
) -> Result<OwnedTexts, AllocError>
    ensures { IfOk result (λ needs. needs
        ≡ (if begins (codes "expander") (last_component expander.now.path) then absent (codes "sas_address") (option_map (λ t. t.now) sas.entry) else [])) }
{
    if expander.component().starts_with(b"expander") {
        absent(alloc, b"sas_address", sas)
    } else {
        Ok(OwnedTexts::new(alloc))
    }
}

/// What a disk of SAS at one phy adds, by what is above its port and the address of that, if it is an expander.
fn addressed_stop(
    alloc: Global,
    member: &Member<'_>,
    phy: &[u8],
    expander: &Member<'_>,
    sas: Option<&[u8]>,
) -> Result<Stop, AllocError>
    ensures { IfOk result (λ stop. stop
        ≡ record (adding (phy_part member.now phy.now (option_map (λ t. t.now) sas.entry)) true true 0) {
          needs = if begins (codes "expander") (last_component expander.now.path) then absent (codes "sas_address") (option_map (λ t. t.now) sas.entry) else [];
        }) }
{
    let needs = expander_needs(alloc, expander, sas)?;
    let part = phy_part(alloc, member, phy, sas)?;
    let mut stop = Stop::adding(alloc, part, true, true, 0);
    stop.needs = needs;
    Ok(stop)
}

/// What a disk of SAS at one phy adds, by what is above its port.
fn expander_stop(
    alloc: Global,
    member: &Member<'_>,
    phy: &[u8],
    expander: &Member<'_>,
) -> Result<Stop, AllocError>
    ensures { IfOk result (λ stop. stop ≡ expander_stop member.now phy.now expander.now) }
{
    let sas = expander.class_attribute(alloc, b"sas_device", b"sas_address")?;
    addressed_stop(alloc, member, phy, expander, sas)
}

/// What a disk of SAS at one phy adds, by the devices from the target on.
fn narrow_stop(
    alloc: Global,
    member: &Member<'_>,
    devices: &[Member<'_>],
) -> Result<Stop, AllocError>
    ensures { IfOk result (λ stop. stop ≡ narrow_stop member.now devices.now) }
{
    let Some(phy) = class_attribute_at(alloc, devices, 1, b"sas_device", b"phy_identifier")? else {
        return lost(alloc, b"phy_identifier", true);
    };
    match devices.get(3) {
        Some(expander) => expander_stop(alloc, member, phy, expander),
        None => Ok(Stop::ending(true, true, OwnedTexts::new(alloc))),
    }
}

/// What a disk of SAS adds, by how many phys its port has.
#[tactic(auto, unfolding(crate::specs::Scsi::sas_stop))]
pub(crate) fn sas_stop(
    alloc: Global,
    member: &Member<'_>,
    above: &[Member<'_>],
) -> Result<Stop, AllocError>
    ensures { IfOk result (λ stop. stop ≡ sas_stop member.now above.now) }
{
    let devices = from_first(b"scsi_target", above);
    let Some(phys) = class_attribute_at(alloc, devices, 2, b"sas_port", b"num_phys")? else {
        return lost(alloc, b"num_phys", true);
    };
    let Some(count) = number_in(Base::AsWritten, (1 << 32) - 1, phys) else {
        return Ok(Stop::ending(true, true, OwnedTexts::new(alloc)));
    };
    if count > 1 {
        wide_stop(alloc, member, devices)
    } else {
        narrow_stop(alloc, member, devices)
    }
}
