//! The lints of a rules file, as diagnostics.
ghost use Rattle.std.specs.Prelude.{◌≡◌, map, IfOk};
ghost use Rattle.engine_formats.specs.Diagnostics.{shown};
ghost use Rattle.engine_checks.specs.Files.{lint_diagnostic};
ghost use Rattle.engine_checks.specs.LinesFound.{read_lints};

use crate::asked::has_comments;
use crate::file_text::FileText;
use crate::reported::Asked;
use engine_formats::Diagnostic;
use file_catalogue::Remark;
use rule_core::LandedReading;
use rule_file_lints::lints_of_lines;
use rule_lints::Lint;
use rule_places::{KeptLines, PlacedFinding};
use std::alloc::{AllocError, Global};

/// The lints of the lines of a rules file with a name; none is looked for if none is asked for and comments, which may silence
/// lints, don't count.
pub(crate) fn lints_counted(
    alloc: Global,
    asked: &Asked<'_>,
    name: &[u8],
    kept: &KeptLines,
    lines: &[LandedReading<'_>],
) -> Result<Vec<PlacedFinding<Lint>>, AllocError>
    ensures { IfOk result (λ lints. lints.items ≡ read_lints asked.now name.now kept.now lines.now) }
{
    if asked.lint || has_comments(&asked.ignored) {
        lints_of_lines(alloc, asked.profile, name, kept, lines)
    } else {
        Ok(Vec::new(alloc))
    }
}

/// A lint of a rules file as a diagnostic.
fn lint_diagnostic<'r>(file: &'r FileText<'_>, lint: PlacedFinding<Lint>) -> Diagnostic<'r>
    ensures { shown result ≡ lint_diagnostic file.now lint }
{
    Diagnostic {
        name: file.name(),
        path: file.path(),
        source: file.line(lint.line),
        begins: lint.begins,
        line: lint.line,
        column: lint.column,
        end: lint.end,
        remark: Remark::Lint(lint.kind),
        word: lint.word,
    }
}

/// Lints of a rules file as diagnostics.
pub(crate) fn lint_diagnostics<'r>(
    alloc: Global,
    file: &'r FileText<'_>,
    lints: Vec<PlacedFinding<Lint>>,
) -> Result<Vec<Diagnostic<'r>>, AllocError>
    ensures { IfOk result (λ found. map shown found.items ≡ map (lint_diagnostic file.now) lints.items) }
{
    let mut found = Vec::with_capacity(alloc, lints.len())?;
    for lint in lints {
        found.push(lint_diagnostic(file, lint))?;
    }
    Ok(found)
}
