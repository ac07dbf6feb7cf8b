//! Events and their devices: cuts the input of events into blocks in bounded memory, and reads a block as an event.
//!
//! Notes say what in a block udev would have been told otherwise, whatever the rules are, and whether rules are tried at all.
#![tactic(auto)]

mod behind;
mod devices;
mod draft;
mod events;
mod faults;
mod fields;
mod filling;
mod kinds;
mod laws;
mod lines;
mod note_laws;
mod notes;
mod parts;
mod programs;
mod read;
mod run_ends;
mod splitter;
mod trying;

pub use devices::{Device, DeviceNumber};
pub use events::Event;
pub use faults::{BlockFault, BlockFaultKind};
pub use kinds::BlockNoteKind;
pub use laws::{
    a_number_of_the_block_is_kept_by_the_manual, a_property_behind_a_command_is_known,
    a_property_of_the_farthest_parent, some_numbers,
};
pub use lines::{DeviceField, LineKind};
pub use note_laws::{
    a_carriage_return_at_line_ends_is_noted, a_device_without_an_event_is_noted,
    a_path_that_begins_with_sys_is_noted, a_property_behind_commands_is_noted,
    a_property_that_udev_stores_is_noted, an_action_that_udev_does_not_have_is_noted,
    attributes_of_a_removed_device_are_noted, no_rule_is_tried_at_a_device_without_a_subsystem,
    notes_about_a_block_are_in_order, nothing_about_a_block_is_noted_by_the_manual,
};
pub use notes::{BlockNote, block_notes};
pub use programs::ProgramAnswer;
pub use read::read_block;
pub use splitter::{SplitFault, Splitter, Taken};
pub use text_tables::{Pairs, Table, Texts};
pub use trying::{lacks_event, tried};
