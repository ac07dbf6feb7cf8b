//! `query -` over files or over an index.
ghost use Rattle.std.specs.Prelude.{None};
ghost use Rattle.engine_reports.specs.Databases.{database};
ghost use Rattle.engine_reports.specs.LookupDatabases.{LooksUpBy};

use crate::database::open_database;
use crate::delivery::deliver_refusal;
use crate::lookups::look_up_lines;
use crate::refusal::Refusal;
use engine_sessions::{Line, Sink, Source};
use std::alloc::Global;
use text_bytes::SourceFile;
use trie_build::{Index, IndexFault};

/// Looks each line of the input up as a modalias, in the index that was opened, or otherwise in the database that the
/// files hold, after the messages about these; returns the status to exit with.
///
/// The status is that of `look_up_lines`; or 1 if the index was refused or the files hold more than a database may, and
/// then no input is read.
pub fn serve_lookups<R: Source, W: Sink, E: Sink>(
    alloc: Global,
    line: &Line<'_>,
    files: Vec<SourceFile>,
    opened: Option<Result<Index<'_>, IndexFault>>,
    input: &mut R,
    output: &mut W,
    error: &mut E,
) -> u8
    ensures { LooksUpBy line.now (database line.now files.items opened.entry) result
        (record { input = R.shown input.old; out = W.shown output.old; err = E.shown error.old })
        (record { input = R.shown input.new; out = W.shown output.new; err = E.shown error.new }) }
{
    match opened {
        None => look_up_in_files(alloc, line, files, input, output, error),
        Some(Ok(index)) => look_up_lines(alloc, b"", line.sources, &index, input, output, error),
        Some(Err(fault)) => deliver_refusal(Refusal::Index(fault), output, error),
    }
}

/// The same over files.
fn look_up_in_files<R: Source, W: Sink, E: Sink>(
    alloc: Global,
    line: &Line<'_>,
    files: Vec<SourceFile>,
    input: &mut R,
    output: &mut W,
    error: &mut E,
) -> u8
    ensures { LooksUpBy line.now (database line.now files.items None) result
        (record { input = R.shown input.old; out = W.shown output.old; err = E.shown error.old })
        (record { input = R.shown input.new; out = W.shown output.new; err = E.shown error.new }) }
{
    match open_database(alloc, line, files) {
        Ok((messages, database)) => {
            look_up_lines(
                alloc,
                &messages,
                line.sources,
                &database,
                input,
                output,
                error,
            )
        }
        Err(refusal) => deliver_refusal(refusal, output, error),
    }
}
