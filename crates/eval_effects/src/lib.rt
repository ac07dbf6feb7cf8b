//! What the assignments of a rule did, as text, while they are made.
//!
//! Each assignment is made alone, and the items of its key, or the RUNs, before and after it are compared. An assignment
//! that was left out is reported with its cause. This crate also says how lines of `--why` show texts and name keys and
//! rules.
#![tactic(auto)]

mod changes;
mod effects;
mod items;
mod laws;
mod made;
mod named;
mod runs;
mod scope;
mod shown;
mod since;
mod snapshot;

pub use effects::end_and_report;
pub use items::{Item, item_name, items_of, label_item, texts_after, watch_word};
pub use laws::{final_since_the_first_rule, notes_say_what_is_left_out, shown_texts_are_read_back};
pub use named::{push_key, push_rule};
pub use shown::{push_escaped, push_joined, push_shortened, push_shown};
pub use since::Since;
