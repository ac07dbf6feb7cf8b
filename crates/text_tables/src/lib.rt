//! Small tables of texts: sets of texts, maps from names to values, and how often texts are in lists.
//!
//! Sets and maps keep the order of insertion. They are built on `IndexSet` and `IndexMap`, so that a contract sees lists in
//! the order in which texts were added, and no lookup walks the list. A table borrows its texts (`Texts`, `Pairs`, `Table`),
//! owns them (`OwnedTexts`), or borrows each until it is set (`CowPairs`); to a contract all are the same lists, and the
//! definitions in `specs/` serve all. What one list has more often than another is found by counting, in time that grows
//! with the bytes of the lists.
#![tactic(auto)]

mod among;
mod cow_pairs;
mod headed_names;
mod laws;
mod name_flags;
mod owned_texts;
mod pairs;
mod sorted_pairs;
mod table;
mod tallies;
mod tally_laws;
mod texts;

pub use among::{is_among, is_name_among};
pub use cow_pairs::CowPairs;
pub use laws::{
    added_texts_are_there, names_have_values, new_names_come_last, new_texts_come_last,
    removed_names_are_gone, removed_texts_are_gone, set_names_have_their_values,
    set_names_stay_in_place,
};
pub use owned_texts::OwnedTexts;
pub use pairs::Pairs;
pub use sorted_pairs::SortedPairs;
pub use table::Table;
pub use tallies::{count_one, surplus};
pub use tally_laws::{
    differences_lead_from_old_to_new, lines_are_chosen_whatever_is_shown,
    lines_are_reported_as_often_as_they_are_more, no_line_disappears_and_appears,
    nothing_differs_where_lines_are_the_same, the_last_of_equal_lines_are_reported,
    what_is_shown_is_reported,
};
pub use texts::Texts;
