//! The files, folders and index that a command line asks for, and how they are read.
//!
//! No crate below this one opens a file: they receive whole files, in memory. So everything that can fail outside the
//! program before its input and output begin fails here, and each fault has the path that its message names. A run that names
//! the standard input as one of its files reads it whole first. After that it is a file of the disk, under its name, so that no
//! crate that reads files knows of it.
#![tactic(auto)]

mod account_files;
mod additions;
mod again;
mod asking;
mod disk;
mod fault;
mod input_disk;
mod input_laws;
mod input_reading;
mod laws;
mod listing;
mod look;
mod memory_disk;
mod places;
mod read_again;
mod reading;
mod reading_laws;
mod real_disk;
mod real_looks;
mod real_steps;
mod real_system;
mod rooted_disk;
mod rooted_steps;
mod step;
mod system;
mod walking;

pub use account_files::{path_below, read_account_files};
pub use additions::{kind_added, name_at};
pub use again::{MAX_TRIES, is_interrupted};
pub use asking::wanted;
pub use disk::{Disk, DiskFault, Entry};
pub use fault::{ReadFault, fault_at};
pub use input_disk::InputDisk;
pub use input_laws::{all_else_is_answered_by_the_disk, the_input_is_a_file};
pub use input_reading::{InputFault, read_whole};
pub use laws::dots_lead_one_folder_up;
pub use listing::counts;
pub use look::Look;
pub use memory_disk::{DiskNode, MemoryDisk, MemoryEntry, MemoryPlace};
pub use places::{Folder, Wanted};
pub use read_again::Again;
pub use reading::{read_all, read_index};
pub use reading_laws::an_input_is_read_to_its_end;
pub use real_disk::RealDisk;
pub use real_system::RealSystem;
pub use rooted_disk::RootedDisk;
pub use step::{End, Identity, Step};
pub use system::{Node, NodeKind, Opened, System};
pub use walking::Next;
