//! The builtin net_setup_link of udev (systemd 257): the name that a network interface gets, by `.link` files.
#![tactic(auto)]

mod addresses;
mod checks;
mod globs;
mod hardware;
mod keys;
mod laws;
mod link;
mod machines;
mod numbers;
mod policies;
mod versions;

pub use laws::{
    negated_words_deny, new_names_may_be_names, only_new_interfaces_are_named,
    tables_have_their_rows,
};
pub use link::net_setup_link;
