//! What `query` says of the database.
//!
//! `query` asks an index where one is passed in; of files it keeps just the entries that the modalias fits. Over the
//! trie of all entries `query -` answers the modaliases of its input.
ghost use Rattle.std.specs.Prelude.{◌≡◌, ◌<◌, Ok, IfOk, IfErr};
ghost use Rattle.engine_reports.specs.Outcomes.{database_outcome, query_outcome, query_over};
ghost use Rattle.engine_reports.specs.Databases.{database_of};
ghost use Rattle.engine_reports.specs.FilesRead.{files_read};
ghost use Rattle.engine_reports.specs.Messages.{message_lines};
ghost use Rattle.engine_reports.specs.Reports.{IsRefused, IsSaid, said};

use crate::answers::answer_lines;
use crate::file_choice::files_read;
use crate::messages::message_lines;
use crate::refusal::Refusal;
use crate::report::Report;
use engine_sessions::Line;
use file_messages::Message;
use hwdb_core::{read_fitting, read_sources};
use std::alloc::{AllocError, Global};
use text_bytes::{FileKind, SourceFile};
use trie_build::{Index, IndexFault, Trie, trie_of};
use trie_nodes::{Lookup, PlainDb};

/// What `query` says about the files of the database, or about the index that was opened instead.
///
/// `Index` comes exactly if the index was refused. Without one, `TooManyEntries` comes exactly if the files hold
/// more than a database may. `Memory` comes if memory runs out.
pub fn report_on_query(
    alloc: Global,
    line: &Line<'_>,
    files: Vec<SourceFile>,
    opened: Option<Result<Index<'_>, IndexFault>>,
) -> Result<Report, Refusal>
    ensures said { IfOk result (λ r. said r ≡ query_over line.now files.items opened.entry) }
    ensures status { IfOk result (λ r. r.status < 3) }
    ensures refused { IfErr result (λ e. IsSaid e (query_over line.now files.items opened.entry)) }
{
    match opened {
        None => {
            let (entries, messages) = read_answer(alloc, line, files)?;
            Ok(answered(alloc, line, &entries, &messages)?)
        }
        Some(Ok(index)) => Ok(answered(alloc, line, &index, &[])?),
        Some(Err(fault)) => Err(Refusal::Index(fault)),
    }
}

/// The entries that the line's modalias fits, of the files that are read, and the messages about these files.
fn read_answer(
    alloc: Global,
    line: &Line<'_>,
    files: Vec<SourceFile>,
) -> Result<(PlainDb, Vec<Message>), Refusal>
    ensures read { IfOk result (λ read. query_outcome line.now read.0 read.1.items
        ≡ database_outcome (query_outcome line.now) (files_read FileKind.Hwdb line.now files.items)) }
    ensures refused { IfErr result (λ e. IsSaid e (database_outcome (query_outcome line.now) (files_read FileKind.Hwdb line.now files.items))) }
{
    let files = files_read(alloc, FileKind::Hwdb, line, files)?;
    let database = read_fitting(alloc, &files, line.modalias.as_bytes())?;
    Ok((PlainDb::new(database.entries), database.messages))
}

/// The database of the files that are read, as a trie, and the lines of the messages about these. The files are
/// returned as soon as their entries are known.
///
/// `TooManyEntries` comes exactly if the files hold more than a database may, `Memory` if memory runs out.
pub fn open_database(
    alloc: Global,
    line: &Line<'_>,
    files: Vec<SourceFile>,
) -> Result<(Vec<u8>, Trie), Refusal>
    ensures database { IfOk result (λ read. database_of (files_read FileKind.Hwdb line.now files.items)
        ≡ Ok (record { messages = read.0.items; entries = read.1.entries })) }
    ensures none { IfErr result (λ e. IsRefused e (database_of (files_read FileKind.Hwdb line.now files.items))) }
{
    let files = files_read(alloc, FileKind::Hwdb, line, files)?;
    let database = read_sources(alloc, &files)?;
    drop(files);
    let messages = message_lines(alloc, &database.messages)?;
    let trie = trie_of(alloc, database.entries)?;
    Ok((messages, trie))
}

/// The answer to the line's modalias, and the messages about the files.
fn answered<L: Lookup>(
    alloc: Global,
    line: &Line<'_>,
    entries: &L,
    messages: &[Message],
) -> Result<Report, AllocError>
    ensures said { IfOk result (λ r. said r ≡ query_outcome line.now (L.entries entries.now) messages.now) }
    ensures status { IfOk result (λ r. r.status < 3) }
{
    let messages = message_lines(alloc, messages)?;
    let output = answer_lines(alloc, entries, line.modalias.as_bytes(), line.sources)?;
    Ok(Report {
        output,
        messages,
        status: 0,
    })
}
