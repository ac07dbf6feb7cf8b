//! What is reported for one file by itself, as an editor has it open.
ghost use Rattle.std.specs.Prelude.{◌≡◌, map, IfOk};
ghost use Rattle.text_bytes.specs.declared.source_file.SourceFile.{SourceFile};
ghost use Rattle.engine_sessions.specs.declared.line.Line.{Line};
ghost use Rattle.engine_formats.specs.Diagnostics.{shown};
ghost use Rattle.engine_formats.specs.Paths.{path_of};
ghost use Rattle.engine_checks.specs.Files.{database_reported, rules_reported};
ghost use Rattle.engine_checks.specs.Reported.{Asked};
ghost use Rattle.engine_checks.specs.Tables.{AsksLike, database_reported_by, read_at, rules_reported_by};

use crate::database_reported::database_reported;
use crate::reads::FileRead;
use crate::reported::Asked;
use crate::rules_reported::rules_reported;
use engine_formats::Diagnostic;
use std::alloc::{AllocError, Global};
use std::slice::from_ref;

/// What is reported for a rules file, whose ends of lines are as its profile reads them: what `verify` reports for it.
pub fn diagnostics_of_rules<'r>(
    alloc: Global,
    asked: &Asked<'_>,
    read: &'r FileRead<'_>,
) -> Result<Vec<Diagnostic<'r>>, AllocError>
    ensures { IfOk result (λ found. map shown found.items ≡ rules_reported_by asked.now read.now) }
{
    let counted = rules_reported(alloc, asked, from_ref(read))?;
    Ok(counted.diagnostics)
}

/// What is reported for a file of a database, which holds no more than a database may: what `update` reports for it.
pub fn diagnostics_of_database<'r>(
    alloc: Global,
    asked: &Asked<'_>,
    read: &'r FileRead<'_>,
) -> Result<Vec<Diagnostic<'r>>, AllocError>
    ensures { IfOk result (λ found. map shown found.items ≡ database_reported_by asked.now read.now) }
{
    database_reported(alloc, asked, from_ref(read))
}

/// What is reported for a file by itself is what `verify` or `update` reports for it, where the command line asks for the same
/// and opens the file by the same path. Nothing happens here: the contract is the law.
pub fn a_file_by_itself_is_reported_alike()
    ensures rules { (line : Line) (asked : Asked) (file : SourceFile) → AsksLike line asked
        → rules_reported_by asked (read_at (path_of line file) file) ≡ rules_reported line file }
    ensures database { (line : Line) (asked : Asked) (file : SourceFile) → AsksLike line asked
        → database_reported_by asked (read_at (path_of line file) file) ≡ database_reported line file }
{}
