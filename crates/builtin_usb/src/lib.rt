//! The builtin usb_id of udev (systemd 257): what a USB device says about itself.
#![tactic(auto)]

mod identities;
mod interfaces;
mod kinds;
mod laws;
mod needs;
mod properties;
mod running;
mod subjects;
mod units;

pub use laws::{
    bus_does_not_matter, interfaces_are_between_colons, interfaces_are_few,
    properties_are_reported_twice, serials_are_short,
};
pub use running::usb_id;
