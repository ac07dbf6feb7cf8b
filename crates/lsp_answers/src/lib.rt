//! What is answered and reported about an open document, and the settings by which that is done.
//!
//! An answer is what a word means, which names it may become, where labels and their jumps are, the document's rules or records,
//! what can be mended, and the document with its style mended. Diagnostics are what `verify` reports for rules files and `update`
//! for files of a database, and beside them what mends an unknown key. Settings are made of the words of options.
#![tactic(auto)]

mod actions;
mod answers;
mod diagnostics_laws;
mod documents;
mod edits;
mod fixes;
mod hovers;
mod labels;
mod laws;
mod message;
mod offers;
mod options;
mod queries;
mod settings;
mod settings_laws;
mod severity;
mod spots;
mod symbols;
mod writing;

pub use answers::write_answer;
pub use diagnostics_laws::diagnostics_are_those_of_the_program;
pub use documents::{write_about_whole, write_document_diagnostics};
pub use laws::{
    databases_have_no_labels, mended_texts_are_others, methods_are_found_by_their_names,
    other_methods_are_not_found, queries_are_about_open_documents, whole_edits_leave_nothing,
};
pub use options::{SettingsFault, settings_of};
pub use queries::{Method, Query, query_of};
pub use settings::Settings;
pub use settings_laws::options_ask_for_settings;
