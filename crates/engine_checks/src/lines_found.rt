//! What is found in the lines of a rules file, which are read once.
ghost use Rattle.std.specs.Prelude.{◌≡◌, map, IfOk};
ghost use Rattle.rule_remarks.specs.ByLine.{by_line};
ghost use Rattle.engine_formats.specs.Diagnostics.{shown};
ghost use Rattle.engine_checks.specs.Files.{rule_diagnostic};
ghost use Rattle.engine_checks.specs.LinesFound.{read_found, read_remarks};

use crate::by_line::merged;
use crate::file_text::FileText;
use crate::found::rule_diagnostics;
use crate::lints::{lint_diagnostics, lints_counted};
use crate::reported::Asked;
use engine_formats::Diagnostic;
use file_messages::MessageKind;
use rule_core::LandedReading;
use rule_places::{KeptLines, PlacedFinding, placed_lines};
use rule_remarks::remarks_of_lines;
use std::alloc::{AllocError, Global};
use text_bytes::Profile;

/// All that is found in the lines of a file with a name, of which one may be open at its end: the findings about each rule, and
/// after those its lints. The kept lines are those of the same file.
pub(crate) fn lines_found<'r>(
    alloc: Global,
    asked: &Asked<'_>,
    name: &[u8],
    file: &'r FileText<'_>,
    kept: &KeptLines,
    lines: Vec<LandedReading<'_>>,
    open_at: Option<u32>,
) -> Result<Vec<Diagnostic<'r>>, AllocError>
    ensures { IfOk result (λ found. map shown found.items
        ≡ read_found asked.now name.now file.now kept.now lines.entry.items open_at) }
{
    let lints = lints_counted(alloc, asked, name, kept, &lines)?;
    let remarks = remarks_counted(alloc, asked, kept, &lines)?;
    let findings = placed_lines(alloc, kept, lines, open_at)?;
    let messages = messages_found(alloc, file, findings, remarks)?;
    merged(alloc, messages, lint_diagnostics(alloc, file, lints)?)
}

/// What udev reports about the rules of lines that stay; by the manual nothing is.
fn remarks_counted(
    alloc: Global,
    asked: &Asked<'_>,
    kept: &KeptLines,
    lines: &[LandedReading<'_>],
) -> Result<Vec<PlacedFinding<MessageKind>>, AllocError>
    ensures { IfOk result (λ remarks. remarks.items ≡ read_remarks asked.now.profile asked.now.accounts kept.now lines.now) }
{
    match asked.profile {
        Profile::Manual => Ok(Vec::new(alloc)),
        Profile::Udev => remarks_of_lines(alloc, &asked.accounts, kept, lines),
    }
}

/// The findings about a file with remarks merged in by line, as diagnostics.
fn messages_found<'r>(
    alloc: Global,
    file: &'r FileText<'_>,
    findings: Vec<PlacedFinding<MessageKind>>,
    remarks: Vec<PlacedFinding<MessageKind>>,
) -> Result<Vec<Diagnostic<'r>>, AllocError>
    ensures { IfOk result (λ found. map shown found.items ≡ map (rule_diagnostic file.now) (by_line (λ p. p.begins) findings.items remarks.items)) }
{
    let found = rule_diagnostics(alloc, file, findings)?;
    merged(alloc, found, rule_diagnostics(alloc, file, remarks)?)
}
