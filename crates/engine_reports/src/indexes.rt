//! The index that is passed in instead of the files of the database.
//!
//! It is checked as a whole before anything is read from it, so that a damaged one is refused by name and never
//! gives a wrong answer.
ghost use Rattle.std.specs.Prelude.{option_map};
ghost use Rattle.engine_sessions.specs.Delivery.{Delivers};
ghost use Rattle.engine_reports.specs.Indexes.{Opens, refused_index};

use engine_sessions::{Sink, deliver_in_pieces};
use trie_build::{Index, IndexFault};

/// The outcome of opening an index file, if one is passed in: the index, or the first check that it fails.
///
/// It takes no memory.
pub fn open_index(index: Option<&[u8]>) -> Option<Result<Index<'_>, IndexFault>>
    ensures { Opens (option_map (λ bytes. bytes.now) index.entry) result }
{
    Some(Index::open(index?))
}

/// Writes the line on an index that fails a check, and returns the status for it, 1, or 3 if a device failed.
pub(crate) fn deliver_index_fault<W: Sink, E: Sink>(
    fault: IndexFault,
    output: &mut W,
    error: &mut E,
) -> u8
    ensures { Delivers (refused_index fault) result
        (record { out = W.shown output.old; err = E.shown error.old })
        (record { out = W.shown output.new; err = E.shown error.new }) }
{
    deliver_in_pieces(
        &[b"devdry: index: ", fault.text().as_bytes(), b"\n"],
        b"",
        1,
        output,
        error,
    )
}
