//! Where an assignment to an attribute or a kernel parameter writes.
ghost use Rattle.std.specs.Prelude.{◌≡◌, IfOk};
ghost use Rattle.eval_assignments.specs.Written.{manual_name, udev_name, written_name};

use crate::attributes::found_attribute;
use crate::parameters::found_parameter;
use eval_state::State;
use rule_types::Target;
use std::alloc::{AllocError, Global};
use text_bytes::{Bytes, Profile};

/// The attribute or the parameter to which a name leads for udev.
fn udev_name(alloc: Global, target: &Target, state: &State<'_>) -> Result<Option<Bytes>, AllocError>
    ensures { IfOk result (λ name. name ≡ udev_name target.now state.now) }
{
    match target {
        Target::Attr(name) => found_attribute(alloc, &state.event, name.as_slice()),
        Target::Sysctl(name) => found_parameter(alloc, name.as_slice(), state),
        _ => Ok(None),
    }
}

/// The same by the manual, for which each is written as it is named.
fn manual_name(alloc: Global, target: &Target) -> Result<Option<Bytes>, AllocError>
    ensures { IfOk result (λ name. name ≡ manual_name target.now) }
{
    match target {
        Target::Attr(name) => Ok(Some(Bytes::copy_of(alloc, name.as_slice())?)),
        Target::Sysctl(name) => Ok(Some(Bytes::copy_of(alloc, name.as_slice())?)),
        _ => Ok(None),
    }
}

/// The attribute or the kernel parameter that an assignment to a target writes, by its name as it is reported; `None` if
/// it writes none, or the target is another one.
pub fn written_name(
    alloc: Global,
    target: &Target,
    state: &State<'_>,
) -> Result<Option<Bytes>, AllocError>
    ensures { IfOk result (λ name. name ≡ written_name state.now.event.profile target.now state.now) }
{
    match state.event.event().profile() {
        Profile::Manual => manual_name(alloc, target),
        Profile::Udev => udev_name(alloc, target, state),
    }
}
