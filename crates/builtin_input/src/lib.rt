//! The builtin input_id of udev (systemd 257): the kinds of an input device, by the bitmaps of what it can do.
#![tactic(auto)]

mod bitmaps;
mod capabilities;
mod groups;
mod input;
mod kinds;
mod laws;
mod signs;

pub use input::input_id;
pub use laws::{
    accelerometers_are_nothing_else, devices_with_nothing_have_no_kind,
    leading_zeros_change_nothing, mice_are_not_joysticks, some_kinds_imply_others,
    the_last_word_is_the_lowest, touchpads_are_not_touchscreens,
};
