//! The lints of a file of a database, as diagnostics.
ghost use Rattle.std.specs.Prelude.{◌≡◌, map, IfOk};
ghost use Rattle.engine_formats.specs.Diagnostics.{shown};
ghost use Rattle.engine_checks.specs.Files.{database_lint_diagnostic, database_lints_counted};

use crate::asked::has_comments;
use crate::file_text::FileText;
use crate::reported::Asked;
use engine_formats::Diagnostic;
use file_catalogue::Remark;
use hwdb_core::{PlacedLint, database_lints};
use std::alloc::{AllocError, Global};
use text_bytes::SourceFile;

/// The lints of a file of a database; none is looked for if none is asked for and comments, which may silence lints,
/// don't count.
pub(crate) fn database_lints_counted(
    alloc: Global,
    asked: &Asked<'_>,
    file: &SourceFile,
) -> Result<Vec<PlacedLint>, AllocError>
    ensures { IfOk result (λ lints. lints.items ≡ database_lints_counted asked.now file.now) }
{
    if asked.lint || has_comments(&asked.ignored) {
        database_lints(alloc, file.bytes.as_slice())
    } else {
        Ok(Vec::new(alloc))
    }
}

/// A lint of a database as a diagnostic.
fn database_lint_diagnostic<'r>(file: &'r FileText<'_>, lint: PlacedLint) -> Diagnostic<'r>
    ensures { shown result ≡ database_lint_diagnostic file.now lint }
{
    Diagnostic {
        name: file.name(),
        path: file.path(),
        source: file.line(lint.line),
        begins: lint.line,
        line: lint.line,
        column: lint.column,
        end: lint.end,
        remark: Remark::DatabaseLint(lint.lint),
        word: lint.word,
    }
}

/// Lints of a database as diagnostics.
pub(crate) fn database_lint_diagnostics<'r>(
    alloc: Global,
    file: &'r FileText<'_>,
    lints: Vec<PlacedLint>,
) -> Result<Vec<Diagnostic<'r>>, AllocError>
    ensures { IfOk result (λ found. map shown found.items ≡ map (database_lint_diagnostic file.now) lints.items) }
{
    let mut found = Vec::with_capacity(alloc, lints.len())?;
    for lint in lints {
        found.push(database_lint_diagnostic(file, lint))?;
    }
    Ok(found)
}
