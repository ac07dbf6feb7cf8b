//! What is reported for files of a database.
ghost use Rattle.std.specs.Prelude.{◌≡◌, ◌∷◌, [], flat_map, map, IfOk};
ghost use Rattle.hwdb_core.specs.Sources.{messages_of};
ghost use Rattle.engine_formats.specs.Diagnostics.{shown};
ghost use Rattle.engine_checks.specs.Files.{database_found_with, database_lints_counted};
ghost use Rattle.engine_checks.specs.Tables.{database_reported_by};

use crate::by_line::merged;
use crate::database_lints::{database_lint_diagnostics, database_lints_counted};
use crate::found::database_diagnostics;
use crate::ignores::ignores_counted;
use crate::reads::FileRead;
use crate::reported::{Asked, file_reported};
use engine_formats::Diagnostic;
use file_messages::Message;
use hwdb_core::read_sources;
use std::alloc::{AllocError, Global};
use std::slice::from_ref;
use text_bytes::SourceFile;

/// The messages about a file, which is one of files that hold no more than a database may. So the file holds no
/// more either, and the error means that memory ran out.
fn messages_about(alloc: Global, file: &SourceFile) -> Result<Vec<Message>, AllocError>
    ensures { IfOk result (λ messages. messages.items ≡ messages_of (file.now ∷ [])) }
{
    match read_sources(alloc, from_ref(file)) {
        Ok(database) => Ok(database.messages),
        Err(_) => Err(AllocError),
    }
}

/// All that is found in a file of a database with these messages: them, and after those of each line its lints.
fn database_found<'r>(
    alloc: Global,
    asked: &Asked<'_>,
    read: &'r FileRead<'_>,
    messages: &[Message],
) -> Result<Vec<Diagnostic<'r>>, AllocError>
    ensures { IfOk result (λ found. map shown found.items
        ≡ database_found_with read.now.text messages.now (database_lints_counted asked.now read.now.file)) }
{
    let lints = database_lints_counted(alloc, asked, read.file())?;
    let found = database_diagnostics(alloc, read.text(), messages)?;
    merged(
        alloc,
        found,
        database_lint_diagnostics(alloc, read.text(), lints)?,
    )
}

/// What is reported for a file of a database.
fn reported_for_file<'r>(
    alloc: Global,
    asked: &Asked<'_>,
    read: &'r FileRead<'_>,
) -> Result<Vec<Diagnostic<'r>>, AllocError>
    ensures { IfOk result (λ reported. map shown reported.items
        ≡ database_reported_by asked.now read.now) }
{
    let messages = messages_about(alloc, read.file())?;
    let found = database_found(alloc, asked, read, &messages)?;
    let ignores = ignores_counted(alloc, asked, read.file())?;
    file_reported(alloc, asked, read.text(), &ignores, found)
}

/// What is reported for files of a database, file by file.
pub(crate) fn database_reported<'r>(
    alloc: Global,
    asked: &Asked<'_>,
    reads: &'r [FileRead<'_>],
) -> Result<Vec<Diagnostic<'r>>, AllocError>
    ensures { IfOk result (λ reported. map shown reported.items
        ≡ flat_map (database_reported_by asked.now) reads.now) }
{
    let mut reported = Vec::new(alloc);
    for read in reads {
        reported.append(&mut reported_for_file(alloc, asked, read)?)?;
    }
    Ok(reported)
}
