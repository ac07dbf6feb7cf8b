//! The builtin path_id of udev (systemd 257): the path of buses and ports that leads to a device.
#![tactic(auto)]

mod laws;
mod members;
mod nvme;
mod path;
mod revisions;
mod sas;
mod scsi;
mod scsi_hosts;
mod scsi_transports;
mod stops;
mod table;
mod tags;
mod texts;
mod usb;
mod way;

pub use laws::{
    each_part_distinguishes_paths, nothing_is_set_without_a_path, parts_distinguish_ports,
    tags_are_short,
};
pub use path::path_id;
