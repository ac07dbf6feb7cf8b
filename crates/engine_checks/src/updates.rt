//! What `update` says.
ghost use Rattle.std.specs.Prelude.{◌≡◌, ◌<◌, count_by, flat_map, length, map, IfOk, IfErr};
ghost use Rattle.hwdb_core.specs.Sources.{messages_of};
ghost use Rattle.engine_formats.specs.Formats.{formatted};
ghost use Rattle.file_catalogue.specs.declared.remark.Remark.TheVariants as about;
ghost use Rattle.engine_reports.specs.Reports.{IsSaid, said};
ghost use Rattle.engine_checks.specs.Files.{database_reported};
ghost use Rattle.engine_checks.specs.Outcomes.{database_checks, update_outcome, update_status, updated_by};
ghost use Rattle.engine_checks.specs.Reported.{is_asked};
ghost use Rattle.engine_checks.specs.Tables.{AsksLike};
ghost use Rattle.engine_checks.specs.Told.{are_short, database_said, tells_messages, told};

use crate::asked::{asked_by, has_comments};
use crate::database_reported::database_reported;
use crate::in_format::in_format;
use crate::reads::read_files;
use crate::reported::{Asked, is_asked};
use crate::told_lines::tell;
use engine_formats::{formatted, messages_are_at_their_words};
use engine_reports::{Refusal, Report, files_read};
use engine_sessions::{Format, Line};
use file_catalogue::Remark;
use file_messages::Message;
use hwdb_core::read_sources;
use std::alloc::{AllocError, Global};
use text_bytes::{FileKind, SourceFile};
use trie_build::{Trie, trie_of, write_index};

/// Each line of a file of fewer bytes has its number.
const MAX_BYTES: usize = 1 << 32;

/// What is reported for files, as text, and how many diagnostics it is.
#[derive(Drop)]
struct ReportedText {
    text: Vec<u8>,
    count: usize,
}

/// What `update` says about the files passed in, in the line's format, with lints if the line asks for them, and
/// without the messages and lints that it ignores: what is reported, which makes a strict run fail, and the entries as
/// an index.
///
/// A text of the line that is not a code silences nothing. `TooManyEntries` comes exactly if the files hold more
/// than a database may, `Memory` if memory runs out.
pub fn report_on_update(
    alloc: Global,
    line: &Line<'_>,
    files: Vec<SourceFile>,
) -> Result<Report, Refusal>
    ensures said { IfOk result (λ r. said r ≡ update_outcome line.now files.items) }
    ensures status { IfOk result (λ r. r.status < 3) }
    ensures refused { IfErr result (λ e. IsSaid e (update_outcome line.now files.items)) }
{
    let files = files_read(alloc, FileKind::Hwdb, line, files)?;
    report_on_database(alloc, line, files)
}

/// The same for the files that are read, which are returned before the index is made.
fn report_on_database(
    alloc: Global,
    line: &Line<'_>,
    files: Vec<SourceFile>,
) -> Result<Report, Refusal>
    ensures said { IfOk result (λ r. said r ≡ database_checks line.now files.items) }
    ensures status { IfOk result (λ r. r.status < 3) }
    ensures refused { IfErr result (λ e. IsSaid e (database_checks line.now files.items)) }
{
    let database = read_sources(alloc, &files)?;
    let reported = reported_for_database(alloc, line, &files, &database.messages)?;
    drop(files);
    let trie = trie_of(alloc, database.entries)?;
    let report = updated(alloc, line, &trie, reported)?;
    Ok(report)
}

/// What is reported for the files, about which there are these messages.
#[tactic(auto, using(crate::proofs::BadFiles::asks_alike))]
fn reported_for_database(
    alloc: Global,
    line: &Line<'_>,
    files: &[SourceFile],
    messages: &[Message],
) -> Result<ReportedText, AllocError>
    requires { messages.now ≡ messages_of files.now }
    ensures text { IfOk result (λ t. t.text.items ≡ formatted line.now.format (flat_map (database_reported line.now) files.now)) }
    ensures count { IfOk result (λ t. t.count ≡ length (flat_map (database_reported line.now) files.now)) }
{
    let asked = asked_by(alloc, line)?;
    if tells_messages(&asked, line.format, files) {
        messages_are_at_their_words();
        let told = messages_told(alloc, &asked, messages)?;
        return Ok(told);
    }
    reported_in_format(alloc, &asked, line, files)
}

/// Whether what is reported for files is their messages: in plain lines, without lints, and where no comment counts.
fn tells_messages(asked: &Asked<'_>, format: Format, files: &[SourceFile]) -> bool
    ensures { result ≡ tells_messages asked.now format files.now }
{
    match format {
        Format::Plain => !asked.lint && !has_comments(&asked.ignored) && are_short(files),
        _ => false,
    }
}

/// Whether each of these files has fewer than 2^32 bytes, so that each of its lines has its number.
fn are_short(files: &[SourceFile]) -> bool
    ensures { result ≡ are_short files.now }
{
    files
        .iter()
        .all(|file| file.bytes.as_slice().len() < MAX_BYTES)
}

/// The plain lines of those messages that are asked for.
fn messages_told(
    alloc: Global,
    asked: &Asked<'_>,
    messages: &[Message],
) -> Result<ReportedText, AllocError>
    ensures text { IfOk result (λ t. t.text.items ≡ told asked.now (map database_said messages.now)) }
    ensures count { IfOk result (λ t. t.count ≡ count_by (λ m. is_asked asked.now (about.Message m.kind)) messages.now) }
{
    let mut text = Vec::new(alloc);
    for message in messages {
        let remark = Remark::Message(message.kind);
        tell(
            alloc,
            asked,
            &mut text,
            message.file.as_slice(),
            message.line,
            remark,
            message.word.as_slice(),
        )?;
    }
    let count = messages
        .iter()
        .filter(|message| is_asked(asked, Remark::Message(message.kind)))
        .count();
    Ok(ReportedText { text, count })
}

/// What is reported for the files, in any format.
fn reported_in_format(
    alloc: Global,
    asked: &Asked<'_>,
    line: &Line<'_>,
    files: &[SourceFile],
) -> Result<ReportedText, AllocError>
    requires { AsksLike line.now asked.now }
    ensures text { IfOk result (λ t. t.text.items ≡ formatted line.now.format (flat_map (database_reported line.now) files.now)) }
    ensures count { IfOk result (λ t. t.count ≡ length (flat_map (database_reported line.now) files.now)) }
{
    let reads = read_files(alloc, line, files)?;
    let reported = database_reported(alloc, asked, &reads)?;
    Ok(ReportedText {
        text: formatted(alloc, line.format, &reported)?,
        count: reported.len(),
    })
}

/// The index of the entries, and what is reported for the files.
fn updated(
    alloc: Global,
    line: &Line<'_>,
    entries: &Trie,
    reported: ReportedText,
) -> Result<Report, AllocError>
    ensures said { IfOk result (λ r. said r ≡ updated_by line.now reported.text.items reported.count entries.now.entries) }
    ensures status { IfOk result (λ r. r.status < 3) }
{
    let report = Report {
        output: write_index(alloc, entries)?,
        messages: reported.text,
        status: update_status(line.strict, reported.count),
    };
    Ok(in_format(alloc, line.format, report))
}

/// The status of `update`: 1 if it is strict and something is reported.
fn update_status(strict: bool, count: usize) -> u8
    ensures { result ≡ update_status strict count }
{
    if strict && count != 0 { 1 } else { 0 }
}
