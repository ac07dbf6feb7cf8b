//! The outcome of a line whose reading goes on after what can't be read.
ghost use Rattle.std.specs.Option.{option_copied};
ghost use Rattle.std.specs.Prelude.{◌≡◌, ◌≤◌, IfOk};
ghost use Rattle.devdry_folders.specs.Surveys.{AreFilesReadSome, IsListed, IsReadBy, IsReadSome, IsReportOnFiles, IsReported, IsSurveyFor};
ghost use Rattle.devdry_folders.specs.Unread.{least_status};

use crate::files::files_of;
use crate::indexes::{index_bytes, index_sight};
use crate::missing::{line_on_root, missing_lines};
use crate::sight_status::status_lines;
use crate::sights::Survey;
use crate::unread::all_unread;
use crate::visiting::visits;
use devdry_files::Disk;
use engine_sessions::{Line, same_kind};
use std::alloc::{AllocError, Global};
use text_bytes::{Bytes, FileKind, SourceFile};

/// What is reported on the error output before a run.
#[derive(Drop)]
pub struct Report {
    /// The lines.
    pub lines: Vec<u8>,
    /// The least status of the run.
    pub least: u8,
}

/// What could be read of all that a line asks for.
#[derive(Drop)]
pub struct ReadSome {
    /// The files that were read, in the order of reading.
    pub files: Vec<SourceFile>,
    /// The bytes of the index, if the line names one and it could be read.
    pub index: Option<Bytes>,
    /// What is reported before the run.
    pub report: Report,
}

/// Which files of the folders count.
#[derive(Drop)]
pub struct Listed {
    /// The lines for the output.
    pub lines: Vec<u8>,
    /// What is reported before them.
    pub report: Report,
}

/// A survey of the files and folders that a line asks for, and last of this index, if there is one.
pub(crate) fn survey_for<D: Disk>(
    alloc: Global,
    disk: &D,
    line: &Line<'_>,
    index: Option<&str>,
) -> Result<Survey, AllocError>
    ensures { IfOk result (IsSurveyFor (D.may_answer disk.now) line.now (option_copied index.entry)) }
{
    Ok(Survey {
        visits: visits(alloc, disk, line)?,
        index: index_sight(alloc, disk, index)?,
    })
}

/// The least status of a run, by the lines on what can't be read and those on where no file was found: 3 if something
/// can't be read, else 1 if files are missing.
pub fn least_status(unread: &[u8], missing: &[u8]) -> u8
    ensures status { result ≡ least_status unread.now missing.now }
    ensures least { result ≤ 3 }
{
    if !unread.is_empty() {
        3
    } else if missing.is_empty() {
        0
    } else {
        1
    }
}

/// What is reported for a survey before the run, of which files of these kinds are needed.
fn reported_for<D: Disk>(
    alloc: Global,
    disk: &D,
    line: &Line<'_>,
    kinds: &[FileKind],
    survey: &Survey,
) -> Result<Report, AllocError>
    ensures reported { IfOk result (λ r. IsReported (D.may_answer disk.now) line.now kinds.now survey.now r) }
    ensures least { IfOk result (λ r. r.least ≤ 3) }
{
    let mut lines = all_unread(alloc, line.format.is_for_people(), survey)?;
    let mut missing = missing_lines(alloc, disk, line, kinds, survey)?;
    let least = least_status(&lines, &missing);
    lines.append(&mut missing)?;
    Ok(Report { lines, least })
}

/// Reads what can be read of the files and folders that a line asks for, and last of this index, if there is one.
fn read_with<D: Disk>(
    alloc: Global,
    disk: &D,
    line: &Line<'_>,
    index: Option<&str>,
) -> Result<ReadSome, AllocError>
    ensures some { IfOk result (IsReadBy (D.may_answer disk.now) line.now (option_copied index.entry)) }
    ensures least { IfOk result (λ some. some.report.least ≤ 3) }
{
    let survey = survey_for(alloc, disk, line, index)?;
    let report = reported_for(alloc, disk, line, &[line.verb.kind_named()], &survey)?;
    let Survey { visits, index } = survey;
    Ok(ReadSome {
        files: files_of(alloc, visits)?,
        index: index_bytes(index),
        report,
    })
}

/// Reads what can be read of all that a line asks for: the files that it names in the order given, those that it adds,
/// then the folders.
///
/// If the line names a folder, the files in it whose names end in the suffix of their kind are taken, by name, each
/// as `FILE/NAME`, with one slash. What can't be read is reported, `devdry: cannot read PATH: REASON`, and the
/// least status is then 3; nothing is opened that is neither a folder nor a regular file, except the null device.
/// An absent folder is not a fault. The index is read last. If no file of the kind that the line names was read, nor an
/// index in place of the database, each of its folders that was looked at is reported, and the least status is 1,
/// unless it is 3; so is a root that is no folder, if folders are read below it beside files that are named or added.
pub fn read_what_can<D: Disk>(
    alloc: Global,
    disk: &D,
    line: &Line<'_>,
) -> Result<ReadSome, AllocError>
    ensures some { IfOk result (IsReadSome (D.may_answer disk.now) line.now) }
    ensures least { IfOk result (λ some. some.report.least ≤ 3) }
{
    read_with(alloc, disk, line, line.index)
}

/// Reads what can be read of all that a line asks for but an index, as `read_what_can` does.
pub fn read_files_that_can<D: Disk>(
    alloc: Global,
    disk: &D,
    line: &Line<'_>,
) -> Result<ReadSome, AllocError>
    ensures some { IfOk result (AreFilesReadSome (D.may_answer disk.now) line.now) }
    ensures least { IfOk result (λ some. some.report.least ≤ 3) }
{
    read_with(alloc, disk, line, None)
}

/// Reports which files of the folders that a line asks for count: each file is used, masks those of its name, is
/// hidden by another, or is skipped with the reason; what can't be read is also reported, and the least status is
/// as with `read_what_can`, but a file of any kind that the line reads is enough.
pub fn list_files<D: Disk>(alloc: Global, disk: &D, line: &Line<'_>) -> Result<Listed, AllocError>
    ensures listed { IfOk result (IsListed (D.may_answer disk.now) line.now) }
    ensures least { IfOk result (λ listed. listed.report.least ≤ 3) }
{
    let survey = survey_for(alloc, disk, line, line.index)?;
    let report = reported_for(alloc, disk, line, line.verb.kinds_read(), &survey)?;
    Ok(Listed {
        lines: status_lines(alloc, survey.visits)?,
        report,
    })
}

/// What is reported on files that were read for a line. If one of them is of the kind that the line names, that is
/// nothing, with status 0, but where files are added below a root that is no folder; otherwise all that it asks for but
/// an index is visited, and reported as with `read_what_can`.
pub fn report_on_files<D: Disk>(
    alloc: Global,
    disk: &D,
    line: &Line<'_>,
    files: &[SourceFile],
) -> Result<Report, AllocError>
    ensures report { IfOk result (IsReportOnFiles (D.may_answer disk.now) line.now files.now) }
    ensures least { IfOk result (λ report. report.least ≤ 3) }
{
    let kind = line.verb.kind_named();
    if !files.iter().any(|file| same_kind(kind, file.kind)) {
        let survey = survey_for(alloc, disk, line, None)?;
        return reported_for(alloc, disk, line, &[kind], &survey);
    }
    let lines = line_on_root(alloc, disk, line)?;
    let least = least_status(b"", &lines);
    Ok(Report { lines, least })
}
