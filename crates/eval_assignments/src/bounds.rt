//! How many bytes udev has room for in a text that is assigned.
ghost use Rattle.std.specs.Prelude.{◌≡◌};
ghost use Rattle.eval_assignments.specs.Bounds.{most_bytes_of};

use eval_rendering::{MAX_COMMAND_BYTES, MAX_PATH_BYTES, MAX_VALUE_BYTES};
use rule_types::Target;

/// The most bytes of a text for udev (systemd 257), by what it is assigned to.
pub(crate) fn most_bytes_of(target: &Target) -> usize
    ensures { result ≡ most_bytes_of target.now }
{
    match target {
        Target::Tag | Target::Name | Target::Symlink => MAX_PATH_BYTES,
        Target::Seclabel(_) => MAX_COMMAND_BYTES,
        _ => MAX_VALUE_BYTES,
    }
}
