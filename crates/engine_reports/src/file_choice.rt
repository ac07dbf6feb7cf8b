//! Which of the files passed in are read.
ghost use Rattle.std.specs.Prelude.{◌≡◌, IfOk};
ghost use Rattle.engine_reports.specs.FilesRead.{chosen, files_read, of_kind};

use engine_sessions::{Line, same_kind};
use std::alloc::{AllocError, Global};
use text_bytes::{FileKind, SourceFile, order_files};

/// The files of a kind that a run reads: those passed in if the line names files of that kind, and else those of
/// the folders, by suffix, rank and name.
pub fn files_read(
    alloc: Global,
    kind: FileKind,
    line: &Line<'_>,
    files: Vec<SourceFile>,
) -> Result<Vec<SourceFile>, AllocError>
    ensures { IfOk result (λ read. read.items ≡ files_read kind line.now files.items) }
{
    chosen(alloc, kind, line, of_kind(kind, files))
}

/// The files of both kinds that a run reads, those of rules and then those of the database.
pub(crate) fn both_read(
    alloc: Global,
    line: &Line<'_>,
    files: Vec<SourceFile>,
) -> Result<(Vec<SourceFile>, Vec<SourceFile>), AllocError>
    ensures rules { IfOk result (λ read. read.0.items ≡ files_read FileKind.Rules line.now files.items) }
    ensures database { IfOk result (λ read. read.1.items ≡ files_read FileKind.Hwdb line.now files.items) }
{
    let (rules, database) = by_kind(alloc, files)?;
    let rules = chosen(alloc, FileKind::Rules, line, rules)?;
    let database = chosen(alloc, FileKind::Hwdb, line, database)?;
    Ok((rules, database))
}

/// The files of rules, and those of the database, each in their order.
fn by_kind(
    alloc: Global,
    files: Vec<SourceFile>,
) -> Result<(Vec<SourceFile>, Vec<SourceFile>), AllocError>
    ensures rules { IfOk result (λ both. both.0.items ≡ of_kind FileKind.Rules files.items) }
    ensures database { IfOk result (λ both. both.1.items ≡ of_kind FileKind.Hwdb files.items) }
{
    files
        .into_iter()
        .partition(alloc, |file| same_kind(file.kind, FileKind::Rules))
}

/// Those of the files of a kind that a run reads.
fn chosen(
    alloc: Global,
    kind: FileKind,
    line: &Line<'_>,
    files: Vec<SourceFile>,
) -> Result<Vec<SourceFile>, AllocError>
    ensures { IfOk result (λ read. read.items ≡ chosen kind line.now files.items) }
{
    if line.names_files_of(kind) {
        Ok(files)
    } else {
        order_files(alloc, files, kind.suffix().as_bytes())
    }
}

/// Those of the files that are of a kind, in their order.
fn of_kind(kind: FileKind, mut files: Vec<SourceFile>) -> Vec<SourceFile>
    ensures { result.items ≡ of_kind kind files.items }
{
    files.retain(|file| same_kind(file.kind, kind));
    files
}
