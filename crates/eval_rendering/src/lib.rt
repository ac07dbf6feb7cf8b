//! Texts with substitutions over an event, and matches: whether a part of a rule holds, and the search for a device along
//! the chain.
//!
//! What is rendered has the bytes replaced that may not be in a link or an attribute. Each key has one line that says what it
//! looks at; how a comparison then holds is defined once for each kind of comparison. The search is for one device for which all
//! matches hold, so that no two matches can be met by different devices. No match allocates.
#![tactic(auto)]

mod attributes;
mod behind;
mod bounded_text;
mod bounds;
mod examples;
mod holding;
mod laws;
mod matched_attributes;
mod matching_laws;
mod names;
mod paths;
mod pieces;
mod plain;
mod rendered;
mod rendering;
mod short_name;
mod spaced_words;
mod udev;
mod upward;
mod words;

pub use attributes::{as_read, ends_line};
pub use behind::{linked_device, may_be_untold};
pub use bounds::{MAX_BYTES, MAX_COMMAND_BYTES, MAX_PATH_BYTES, MAX_VALUE_BYTES};
pub use examples::{some_attributes, some_subsystems, some_values};
pub use holding::agrees;
pub use laws::{
    a_name_is_rendered_as_a_text, an_attribute_behind_the_link_is_one_of_the_device_above,
    some_names_of_attributes, what_the_block_has_is_read,
};
pub use matched_attributes::{Attribute, attribute_at, event_attribute, is_not_read};
pub use matching_laws::{
    a_device_that_is_tried_is_selected, a_name_with_a_sign_is_rendered,
    a_named_device_is_looked_at, a_plain_name_looks_at_the_device, all_that_may_be_cut_off_is,
    an_absent_attribute_fails_both, the_first_part_is_between_bars,
};
pub use names::rendered_name;
pub use paths::{is_unread, read_value};
pub use plain::{is_known_constant, is_not_given, plain_holds, result_holds};
pub use rendered::{Mode, Rendered};
pub use rendering::{render, render_text};
pub use short_name::ShortName;
pub use text_bytes::{attribute_safe, link_safe, underscored};
pub use upward::{driver_at, found_place, holds_at, subsystem_at};
