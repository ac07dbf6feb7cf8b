//! What udev's builtins usb_id, path_id, input_id and net_id share: the devices and files that a block describes,
//! numbers, and the outcome of a builtin.
//!
//! It also has the trait of what evaluating rules asks beyond the event itself: a hardware database, udev's builtins, and the
//! files of the root that IMPORT{file} names.
#![tactic(auto)]

mod addresses;
mod devices;
mod fields;
mod files;
mod folders;
mod knowledge;
mod numbers;
mod outcomes;
mod root_files;
mod upward;

pub use addresses::{Address, address_of};
pub use devices::{Devices, attribute, is_of, is_text, some_text, type_of};
pub use fields::marked_digits;
pub use files::{file_at, files_below};
pub use knowledge::Knowledge;
pub use numbers::{Base, bytes_of, digits_in, is_below_zero, is_number, name_number, number_in};
pub use outcomes::{BuiltinOutcome, NetNames, add_property, need_attribute, word_about};
pub use root_files::{RootFile, RootFiles};
