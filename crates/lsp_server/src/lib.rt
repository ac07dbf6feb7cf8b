//! The language server: the session of an editor with it, its state, and what it sends for each content that a client sends.
//!
//! A session is the frames of an input, each replied to before the next read. A frame is a header part, which says how many bytes
//! the content has, and the content. Frames are taken byte by byte, so that it does not matter in which pieces they are read. What
//! is held is bounded: at most 4,096 bytes of a header part, and at most 16,777,216 of a content.
//!
//! The server is one function of the contents: `specs/Contents.antt` says what comes of each. What it answers and reports about a
//! document is in `lsp_answers`.
#![tactic(auto)]

mod beginning;
mod capabilities;
mod contents;
mod documents;
mod errors;
mod frame_laws;
mod frames;
mod framing;
mod headers;
mod inputs;
mod laws;
mod notifications;
mod publishing;
mod replies;
mod replying;
mod requests;
mod sending;
mod server;
mod session_laws;
mod sessions;
mod taking;
mod turning;

pub use frame_laws::{
    a_content_too_long_is_passed_over, header_parts_of_examples, little_is_held,
    pieces_do_not_count, what_is_framed_is_read_back, what_stands_before_a_frame_is_skipped,
};
pub use frames::{FramePart, Frames, Item};
pub use laws::{
    other_documents_stay, other_notifications_change_nothing, requests_are_answered,
    requests_out_of_order_are_refused, what_is_asked_is_answered,
    what_is_not_understood_changes_nothing, what_is_open_is_bounded,
    what_is_opened_is_held_until_it_is_closed, what_is_out_of_step_is_not_used,
};
pub use replying::{Exit, Reply, Replying};
pub use server::{Phase, Server};
pub use session_laws::{framed_contents_are_replied_to, some_sessions, what_is_said_stays};
pub use sessions::serve_editor;
