//! The `.link` files of systemd.link(5), by which udev names network interfaces: which of them count, what they set, and what
//! is wrong with them.
//!
//! A fault is about a line that is not as systemd.link(5) has it, or about a file that is for no interface. The keys and the
//! forms of their values are in the tables of `keys`.
#![tactic(auto)]

mod booleans;
mod drop_ins;
mod fault;
mod file_faults;
mod files;
mod joined;
mod keys;
mod laws;
mod line_faults;
mod lines;
mod lint_laws;
mod lists;
mod matching;
mod names;
mod placed_fault;
mod sections;
mod settings;
mod values;
mod words;

pub use booleans::{is_no, is_yes};
pub use drop_ins::DropIns;
pub use fault::LinkFault;
pub use file_faults::link_faults;
pub use files::{LinkFile, is_masked, link_folder, path_of, read_links, with_drop_ins};
pub use laws::{
    files_are_put_together, lines_are_put_together, lines_set_keys, names_are_short,
    names_of_interfaces, values_are_split,
};
pub use lines::{bare, from_start, is_comment, is_continued, stripped};
pub use lint_laws::{
    faultless_files_are_used, faults_have_their_places, files_ask_for_an_interface,
    keys_take_their_values,
};
pub use lists::{LINK, MATCH, is_list, is_of, last_of, list_of};
pub use names::is_interface_name;
pub use placed_fault::PlacedFault;
pub use settings::{Setting, section_of, unmarked};
pub use words::{WordKind, is_whole, words_of};
