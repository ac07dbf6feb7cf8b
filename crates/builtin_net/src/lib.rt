//! The builtin net_id of udev (systemd 257): names for network interfaces, by what they are attached to.
#![tactic(auto)]

mod allowed;
mod builtin;
mod bus_names;
mod buses;
mod carriers;
mod function_names;
mod functions;
mod given;
mod identity;
mod laws;
mod names;
mod needs;
mod pci_names;
mod ports;
mod prefixes;
mod slots;
mod trees;
mod usb;
mod virtual_functions;
mod words;

pub use builtin::net_id;
pub use laws::{forbidden_interfaces_fail, names_are_short, stacked_interfaces_have_no_names};
