//! Texts as JSON: any bytes as a string that is UTF-8 and loses nothing, members of objects, and what values made of lists
//! are.
#![tactic(auto)]

mod laws;
mod members;
mod telling;

pub use laws::{an_array_is_its_values, an_object_is_its_members, told_texts_are_read_back};
pub use members::{write_number, write_told, write_word};
pub use telling::{told, write_told_key, write_told_value};
