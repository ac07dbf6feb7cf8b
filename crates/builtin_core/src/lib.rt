//! What evaluating rules asks beyond the event: udev's builtins, over a hardware database; and the devices that the path of an event
//! shows, of which those that the block lacks are what the builtins that go up from the event device would have to be told.
#![tactic(auto)]

mod asking;
mod builtins;
mod kinds;
mod laws;
mod needs;
mod paths;
mod virtual_functions;

pub use builtins::Builtins;
pub use laws::{
    each_kind_is_asked_for_by_its_builtins, names_say_what_devices_are, other_names_say_nothing,
    paths_show_devices,
};
