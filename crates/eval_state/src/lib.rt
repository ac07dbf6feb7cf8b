//! The state of an event while rules run: what is known about it, and what the rules have collected.
#![tactic(auto)]

mod chain;
mod files;
mod finals;
mod labels;
mod laws;
mod made_runs;
mod named;
mod note_kind;
mod notes;
mod place;
mod properties;
mod ran;
mod runs;
mod scene;
mod start;
mod state;

pub use chain::Chain;
pub use files::starred;
pub use finals::{FinalKey, Finals};
pub use labels::{Label, Labels};
pub use laws::{
    a_note_keeps_the_first_bytes, a_path_leads_where_its_components_do,
    an_empty_property_is_none_for_udev, some_paths, starred_names_are_there,
    what_the_device_has_is_there,
};
pub use made_runs::{MadeRun, MadeRuns};
pub use named::Named;
pub use note_kind::NoteKind;
pub use notes::{Note, Notes};
pub use place::Place;
pub use properties::set_property;
pub use ran::Ran;
pub use runs::{Run, Runs};
pub use scene::Scene;
pub use start::node_path;
pub use state::State;
