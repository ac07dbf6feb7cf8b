//! The two ends of a run, and sessions: what a command line asks for, the streams, and how the blocks of an input are answered
//! one by one, turn by turn, for any way of answering events.
//!
//! This crate also writes what a run says, with the status that results, shows places and words in messages, and reads files
//! of options, which have one word a line. It says nothing about what the words mean: that is said where the other words of a
//! command line are read.
#![tactic(auto)]

mod advice_laws;
mod answering;
mod block_advice;
mod block_faults;
mod delivery;
mod device;
mod escaping;
mod event_line;
mod faults;
mod files;
mod folders;
mod following;
mod hearing;
mod inputs;
mod kinds;
mod laws;
mod line;
mod listening;
mod memory_sink;
mod memory_source;
mod names;
mod option_laws;
mod places;
mod session;
mod std_streams;
mod tallying;
mod turning;
mod words;
mod writing;

pub use advice_laws::{advice_follows_the_line, each_fault_has_its_own_advice};
pub use answering::Answering;
pub use delivery::{
    deliver, deliver_in_pieces, report_failure, report_in_pieces, report_out_of_memory,
};
pub use device::{DeviceFault, Sink, Source};
pub use escaping::{escaped_count, is_plain, push_escaped};
pub use event_line::push_event;
pub use files::{OptionsFault, read_options};
pub use folders::folder_path;
pub use following::{Telling, answer_after_messages, find_after_messages};
pub use inputs::{Findings, answer_input};
pub use kinds::same_kind;
pub use laws::{
    answers_do_not_depend_on_the_pieces, answers_end_at_the_first_fault, known_answers_stay,
    the_manual_changes_no_event,
};
pub use line::{AccountFile, Color, Format, Line, LineFault, Request, Verb};
pub use listening::Tally;
pub use memory_sink::MemorySink;
pub use memory_source::MemorySource;
pub use names::{flag_names, valued_names};
pub use option_laws::{lines_are_words, lines_that_are_bad, options_have_their_values};
pub use places::{push_place, push_word};
pub use session::{Session, SessionFault, Step};
pub use std_streams::{SinkOver, SourceOver};
pub use tallying::answer_and_tally;
pub use turning::{TurnFault, turn};
pub use words::{has_value_of, is_flag, is_word};
pub use writing::{hand_on, hand_on_each, write_all};
