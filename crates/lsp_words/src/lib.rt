//! What is told about the words of rules and of database files, and the labels, jumps and outlines of such files.
//!
//! The words are those of a hover, and those that can be completed. Which words may stand at a place is found from the
//! bytes of its row before it, one row at a time: a row is a line without its end, and may begin anywhere between the
//! tokens of a rule. The words and what they mean are in tables, a file for each family; `specs/Contexts.antt` says where a
//! place of a row is, `specs/Slots.antt` which words may stand there, and `specs/Meanings.antt` what is found.
//!
//! The labels and jumps of a rules file, and what an outline of a rules or database file lists, are found from all rows of a
//! document. A rule may go on over several rows, so each row is read by itself, and a token that does not stand whole in
//! one row is not found.
#![tactic(auto)]

mod actions;
mod attributes;
mod braces;
mod builtins;
mod classes;
mod codes;
mod completions;
mod contexts;
mod database;
mod device_properties;
mod entries;
mod examples;
mod identity_properties;
mod input_database;
mod jumps;
mod keys;
mod kinds;
mod laws;
mod mark_examples;
mod mark_laws;
mod marks;
mod matches;
mod meanings;
mod moves;
mod operators;
mod options;
mod rows;
mod slots;
mod substitutions;
mod subsystems;
mod symbols;
mod tables;
mod usb_attributes;
mod use_properties;
mod values;

pub use codes::{CodeWord, code_at};
pub use completions::{Completions, completions_at};
pub use entries::{Entry, Parts};
pub use examples::{
    codes_are_found_in_comments, keys_and_braces_are_completed, values_are_completed,
    words_are_found_around_a_place, words_of_database_files_are_found,
};
pub use jumps::{definition_of, mark_at, references_of};
pub use kinds::WordKind;
pub use laws::{
    a_value_belongs_to_its_token, all_words_are_told_about, each_word_has_its_own_text,
};
pub use mark_examples::{
    jumps_between_marks, marks_at_places, marks_of_a_document, marks_of_rows,
    outline_of_a_database, outline_of_rules,
};
pub use mark_laws::{
    comments_have_no_marks, entries_have_names, jumps_are_references_of_their_label,
    jumps_go_forward, jumps_go_to_the_first, jumps_lead_to_later_rows,
    jumps_without_a_label_go_nowhere, labels_mean_themselves, marks_are_written_in_their_row,
    references_have_the_name, rows_that_are_not_listed,
};
pub use marks::{Mark, MarkKind, marks_of};
pub use meanings::{Meaning, meaning_at};
pub use symbols::{Symbol, SymbolKind, symbols_of};
pub use tables::entries_of;
