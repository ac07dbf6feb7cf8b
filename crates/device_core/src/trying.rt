//! Which rules are tried at an event.
ghost use Rattle.std.specs.Prelude.{◌≡◌};
ghost use Rattle.device_core.specs.Tried.{lacks_event, tried};

use crate::events::Event;
use text_bytes::Profile;

/// Whether the device of an event has no such event: for udev (systemd 257) one without a subsystem has none but its removal.
#[tactic(auto, unfolding(crate::specs::Tried::lacks_event))]
pub fn lacks_event(event: &Event<'_>) -> bool
    ensures { result ≡ lacks_event event.now }
{
    match event.profile() {
        Profile::Manual => false,
        Profile::Udev => {
            event.device().subsystem().is_none() && event.action() != b"remove".as_slice()
        }
    }
}

/// The rules that are tried at an event: all of these, or none if the device has no such event.
pub fn tried<'r, R>(event: &Event<'_>, rules: &'r [R]) -> &'r [R]
    ensures { result.now ≡ tried event.now rules.now }
{
    if lacks_event(event) { &[] } else { rules }
}
