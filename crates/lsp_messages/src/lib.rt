//! Messages of JSON-RPC 2.0 as the Language Server Protocol has them, and texts as an editor speaks of them.
//!
//! What a client sent, with its parameters, stays borrowed from the value of JSON; what a server sends is written. A message is
//! told by its members alone: `jsonrpc` is not looked at. A text is bytes, and its rows are those of the protocol. Characters are
//! counted in the units of an encoding on which editor and server agree. Beside positions and changes of a text the crate has the
//! texts that are open.
#![tactic(auto)]

mod changes;
mod counting;
mod documents;
mod edited;
mod errors;
mod examples;
mod laws;
mod message;
mod numbers;
mod offers;
mod options;
mod parameters;
mod positions;
mod responses;
mod rows;
mod text_changes;
mod text_laws;
mod whole_rows;

pub use changes::changes_of;
pub use counting::{Encoding, fitting, units};
pub use documents::{Document, Documents, MAX_BYTES, MAX_DOCUMENTS};
pub use errors::{ErrorCode, error_response};
pub use examples::{
    some_beginnings, some_changes, some_messages, some_parameters, some_positions,
    some_that_are_invalid,
};
pub use laws::{
    each_item_is_a_change, errors_have_their_numbers, messages_are_read_back,
    messages_are_their_parts, messages_are_what_is_meant, positions_are_read_back,
};
pub use message::{Message, message_of};
pub use offers::offers_utf8;
pub use options::{Options, options_of};
pub use parameters::{
    Opened, Placed, Ranged, includes_declaration, opened_of, placed_of, ranged_of, uri_of,
    version_of,
};
pub use positions::write_range;
pub use responses::{begin_notification, begin_response, null_response};
pub use rows::{Position, Rows};
pub use text_changes::Change;
pub use text_laws::{
    changes_keep_utf8, changes_of_a_text, documents_are_bounded, documents_are_found,
    empty_changes_change_nothing, most_that_fits, places_are_in_their_rows, places_come_back,
    places_of_a_text, positions_name_places, rows_of_a_text, units_are_those_of_characters,
    whole_texts_bring_documents_back,
};
