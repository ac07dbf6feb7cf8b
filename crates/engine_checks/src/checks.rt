//! What `verify` says.
ghost use Rattle.std.specs.Prelude.{◌≡◌, ◌<◌, map, IfOk, IfErr};
ghost use Rattle.engine_formats.specs.Diagnostics.{shown};
ghost use Rattle.engine_reports.specs.Reports.{IsSaid, said};
ghost use Rattle.engine_checks.specs.Outcomes.{checks_said, rules_checks, verify_outcome};
ghost use Rattle.engine_checks.specs.Tables.{AsksLike};
ghost use Rattle.engine_sessions.specs.declared.line.Format.TheVariants.{Plain};

use crate::asked::asked_by;
use crate::in_format::in_format;
use crate::reads::read_files;
use crate::reported::Asked;
use crate::rules_reported::rules_reported;
use crate::told::{Told, told_of};
use engine_formats::{Diagnostic, formatted};
use engine_reports::{Refusal, Report, files_read, report_on_files};
use engine_sessions::{Format, Line};
use rule_core::{MAX_TOKENS, files_as_read};
use std::alloc::{AllocError, Global};
use text_bytes::{FileKind, SourceFile};

/// What `verify` says about the files passed in, by the line's profile, in its format, with lints if the line
/// asks for them, and without the messages and lints that it ignores: what is reported, and how many of the files
/// are bad.
///
/// A text of the line that is not a code silences nothing. `TooManyRules` comes exactly if the rules have more than
/// 2^24 tokens, `Memory` if memory runs out.
pub fn report_on_verify(
    alloc: Global,
    line: &Line<'_>,
    files: Vec<SourceFile>,
) -> Result<Report, Refusal>
    ensures said { IfOk result (λ r. said r ≡ verify_outcome line.now files.items) }
    ensures status { IfOk result (λ r. r.status < 3) }
    ensures refused { IfErr result (λ e. IsSaid e (verify_outcome line.now files.items)) }
{
    let files = files_read(alloc, FileKind::Rules, line, files)?;
    let files = files_as_read(alloc, line.profile, files)?;
    report_on_these(alloc, line, &files)
}

/// The same for the files that are read.
#[tactic(auto, using(crate::proofs::BadFiles::asks_alike))]
fn report_on_these(alloc: Global, line: &Line<'_>, files: &[SourceFile]) -> Result<Report, Refusal>
    ensures said { IfOk result (λ r. said r ≡ rules_checks line.now files.now) }
    ensures status { IfOk result (λ r. r.status < 3) }
    ensures refused { IfErr result (λ e. IsSaid e (rules_checks line.now files.now)) }
{
    let asked = asked_by(alloc, line)?;
    match line.format {
        Format::Plain => report_on_told(alloc, &asked, line, files),
        _ => report_on_found(alloc, &asked, line, files),
    }
}

/// The same in plain lines, by what the line asks for.
fn report_on_told(
    alloc: Global,
    asked: &Asked<'_>,
    line: &Line<'_>,
    files: &[SourceFile],
) -> Result<Report, Refusal>
    requires alike { AsksLike line.now asked.now }
    requires plain { line.now.format ≡ Plain }
    ensures said { IfOk result (λ r. said r ≡ rules_checks line.now files.now) }
    ensures status { IfOk result (λ r. r.status < 3) }
    ensures refused { IfErr result (λ e. IsSaid e (rules_checks line.now files.now)) }
{
    let Told { text, bad, tokens } = told_of(alloc, asked, line, files)?;
    if tokens > MAX_TOKENS {
        return Err(Refusal::TooManyRules);
    }
    let report = report_on_files(alloc, line.summary, files, &bad, text)?;
    Ok(report)
}

/// The same in any format, by what the line asks for.
fn report_on_found(
    alloc: Global,
    asked: &Asked<'_>,
    line: &Line<'_>,
    files: &[SourceFile],
) -> Result<Report, Refusal>
    requires { AsksLike line.now asked.now }
    ensures said { IfOk result (λ r. said r ≡ rules_checks line.now files.now) }
    ensures status { IfOk result (λ r. r.status < 3) }
    ensures refused { IfErr result (λ e. IsSaid e (rules_checks line.now files.now)) }
{
    let reads = read_files(alloc, line, files)?;
    let found = rules_reported(alloc, asked, &reads)?;
    if found.tokens > MAX_TOKENS {
        return Err(Refusal::TooManyRules);
    }
    let report = report_on_reported(alloc, line, files, &found.diagnostics)?;
    Ok(report)
}

/// What is said about files and what is reported for them.
pub(crate) fn report_on_reported(
    alloc: Global,
    line: &Line<'_>,
    files: &[SourceFile],
    reported: &[Diagnostic<'_>],
) -> Result<Report, AllocError>
    ensures said { IfOk result (λ r. said r ≡ checks_said line.now files.now (map shown reported.now)) }
    ensures status { IfOk result (λ r. r.status < 3) }
{
    let lines = formatted(alloc, line.format, reported)?;
    let report = report_on_files(alloc, line.summary, files, reported, lines)?;
    Ok(in_format(alloc, line.format, report))
}
