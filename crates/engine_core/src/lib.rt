//! The whole run over files that have been read: it takes a command line, files, an index and an input, and returns
//! bytes and a status.
//!
//! This crate opens no file and knows no terminal: files and index are bytes, the input is a source and the outputs
//! are sinks, so that the contracts of `serve` and `serve_compare` can say what is written, to the byte. Reports on
//! files and what differs between two answers are built by the crates below; this one takes `events` and `compare`
//! from their messages to their answers, and is where rules meet udev's builtins.
#![tactic(auto)]

mod asked;
mod comparing;
mod events;
mod mending;
mod reported;
mod serving;
mod shared;
mod sides;

pub use asked::AskedTables;
pub use comparing::serve_compare;
pub use engine_answers::Tables;
pub use engine_sessions::{
    Answering, Color, DeviceFault, Format, Line, LineFault, MemorySink, MemorySource, Request,
    Session, SessionFault, Sink, SinkOver, Source, SourceOver, Step, TurnFault, Verb, deliver,
    hand_on, hand_on_each, report_failure, report_in_pieces, report_out_of_memory, turn, write_all,
};
pub use reported::ReportedTables;
pub use serving::serve;
pub use trie_build::{Index, IndexFault};
