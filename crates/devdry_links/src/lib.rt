//! What a run reads beside its rules and database, and what is said of whole files.
//!
//! These are the `.link` files by which udev names network interfaces, with their drop-ins, and `verify --links`, which checks
//! them in place of rules; and the files of the root that IMPORT{file} takes properties from, as far as rules name them as they
//! are written. What can't be read of them is reported or left out, and never ends a run. A note tells, once, of a mistake that
//! is about a whole file: it was saved on Windows, it is of another kind than the subcommand reads, or it is read without the
//! files that it belongs to.
#![tactic(auto)]

mod asked;
mod checking;
mod file_note_laws;
mod import_laws;
mod import_reading;
mod laws;
mod lines;
mod lying;
mod naming;
mod notes;
mod places;
mod ranks;
mod reading;
mod survey;
mod unseen;
mod visits;

pub use asked::{asks_folder, asks_root};
pub use checking::{LinksToCheck, read_links_to_check};
pub use file_note_laws::{
    another_kind_is_told, hidden_files_are_left_out, no_break_spaces_are_found, roots_are_told,
    unseen_signs_are_told_once,
};
pub use import_laws::{files_are_named_in_full, what_is_there_decides};
pub use import_reading::read_root_files;
pub use laws::{folders_have_their_places, what_cannot_be_read_masks};
pub use lying::{asks_lying, is_events};
pub use notes::{folder_note, notes_of};
pub use places::LinkPlace;
pub use reading::{LinksRead, read_link_files};
pub use survey::LinkSurvey;
pub use visits::LinkVisit;
