//! Answers: the outcome of an event as lines or as JSON, rules with a database as what answers events, and what differs
//! between two answers to one event.
//!
//! Each line is a word and what it says, so that a reader can cut it at its first space. Every text is escaped, so
//! that no text can be taken for a line. Each value can have with it which rule it comes from. As JSON an answer is one object
//! on a line that says what the lines say; no text is escaped as there, but told by `text_json`, since a string of JSON has to
//! be UTF-8. `Compared` is itself an answering of events, made of two others.
#![tactic(auto)]

mod answers;
mod compare_laws;
mod compared;
mod compared_answers;
mod front;
mod items;
mod json_answers;
mod json_items;
mod laws;
mod lines;
mod objects;
mod shape;
mod sides;
mod tables;
mod values;
mod whole_sources;

pub use answers::{answer, answer_lines, sourced_lines};
pub use compare_laws::{
    an_object_has_the_lines_that_disappear_and_appear, lines_are_reported_as_they_are_shown,
    lines_that_disappear_come_before_those_that_appear,
    no_object_is_reported_where_lines_are_the_same, nothing_is_reported_where_lines_are_the_same,
    the_same_answer_differs_in_nothing,
};
pub use compared::Compared;
pub use compared_answers::marked;
pub use json_answers::json_answer;
pub use laws::{
    a_note_about_the_block_names_no_rule, a_value_is_beside_its_rule, an_answer_has_all_its_parts,
    an_empty_answer_has_its_arrays_and_objects, answers_are_read_back,
};
pub use lines::is_hidden;
pub use sides::Side;
pub use tables::Tables;
pub use whole_sources::evaluate_whole_sources;
