//! What the assignments of a rule change, as described in udev(7) under "assign keys".
//!
//! A definition has one row for each key, and the code one arm; if an arm needs more than a line, it has a function of
//! its own. Whether a key is final is checked before anything else, so that nothing is rendered for an assignment that
//! is not made.
#![tactic(auto)]

mod assigning;
mod attributes;
mod bounds;
mod escapes;
mod finals;
mod givens;
mod laws;
mod links;
mod lists;
mod modes;
mod names;
mod options;
mod parameters;
mod properties;
mod runs;
mod step;
mod tags;
mod written;

pub use escapes::Escape;
pub use finals::{final_key, is_settled};
pub use laws::{kept_links_are_plain, plain_paths_are_links, reported_modes_are_read_back};
pub use modes::four_digits;
pub use names::is_interface;
pub use step::{lacks_number, set_all, set_one};
pub use written::written_name;
