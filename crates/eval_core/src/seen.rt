//! What is seen of an event before its rules run, and which checks this rules out.
ghost use Rattle.std.specs.Prelude.{◌≡◌, Some, IfOk};
ghost use Rattle.eval_core.specs.Checks.{attribute_seen, is_other, is_ruled_out, seen};

use crate::checks::Check;
use crate::heads::first_byte;
use crate::sketches::sketch;
use device_core::Device;
use eval_state::Chain;
use std::alloc::{AllocError, Global};
use text_bytes::{Bytes, trimmed};

/// The sketch of an attribute of a device as it is compared, if it has one.
fn attribute_seen(device: &Device<'_>, name: &[u8]) -> Option<u64>
    ensures { result ≡ attribute_seen device.now name.now }
{
    Some(sketch(trimmed(device.attrs().get(name)?)))
}

/// The sketches of an event's action and of its device's kernel name, subsystem and driver, the first byte of
/// that name, and the sketches of the attributes of these names.
pub(crate) fn seen(
    alloc: Global,
    names: &[Bytes],
    event: &Chain<'_>,
) -> Result<Vec<Option<u64>>, AllocError>
    ensures { IfOk result (λ found. found.items ≡ seen names.now event.now) }
{
    let device = event.device();
    let mut found = Vec::with_capacity(alloc, names.len().saturating_add(5))?;
    found.push(Some(sketch(event.event().action())))?;
    found.push(Some(sketch(event.kernel())))?;
    found.push(Some(sketch(device.subsystem().unwrap_or(b""))))?;
    found.push(Some(sketch(device.driver().unwrap_or(b""))))?;
    found.push(Some(first_byte(event.kernel())))?;
    for name in names {
        found.push(attribute_seen(device, name.as_slice()))?;
    }
    Ok(found)
}

/// Whether what is seen does not have this sketch.
fn is_other(sketch: u64, seen: Option<u64>) -> bool
    ensures { result ≡ is_other sketch seen }
{
    match seen {
        None => true,
        Some(found) => found != sketch,
    }
}

/// Whether what is seen of an event rules out that a check holds.
pub(crate) fn is_ruled_out(seen: &[Option<u64>], check: Check) -> bool
    ensures { result ≡ is_ruled_out seen.now (Some check) }
{
    match seen.get(check.slot) {
        None => false,
        Some(found) => is_other(check.sketch, *found),
    }
}
