//! What searches for one device and the texts of assignments ask for and a dry run does not read: attributes that udev reads of
//! devices that the block does not have, or of which it tells nothing. And the whole outcome of an event, as its answer tells it: with
//! the notes on these, and with the kernel's mode of the node.
//!
//! Rules are evaluated once more, as they were read, by something that watches them, and only if they ask for attributes of other
//! devices. So evaluating them stays as it is.
#![tactic(auto)]

mod asked;
mod given;
mod kernel_modes;
mod laws;
mod others;
mod sets;
mod watching;
mod whole;

pub use laws::{
    a_block_gives_attributes_if_a_device_of_it_has_one,
    a_block_without_attributes_is_noted_by_the_first_rule_that_looks_at_one,
    a_note_is_left_by_a_search_or_an_assignment_that_asks_for_what_is_not_read,
    rules_that_ask_for_no_other_device_leave_no_note,
    texts_are_rendered_for_the_devices_that_their_keys_apply_to,
    the_mode_of_a_node_is_the_kernels_unless_rules_set_one,
};
pub use others::ask_others;
pub use whole::{completed, evaluate_whole};
