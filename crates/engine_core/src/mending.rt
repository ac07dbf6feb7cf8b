//! What `fmt` says about rules files.
ghost use Rattle.std.specs.Prelude.{◌≡◌, ◌<◌, ◌++◌, IfErr, IfOk, OnOk};
ghost use Rattle.engine_core.specs.Mending.{answer, changed_line, changed_names, is_changed, mend_said, mended_texts, status_of};
ghost use Rattle.engine_reports.specs.Reports.{IsSaid, said};

use engine_reports::{Refusal, Report, files_read};
use engine_sessions::Line;
use rule_places::mended_rules;
use std::alloc::{AllocError, Global};
use text_bytes::{FileKind, SourceFile, escape};

/// What `fmt` says about the files that were passed in: their texts with the style mended, one after another, or if
/// the line asks for that the names of those that this changes. `Memory` comes if memory runs out.
pub(crate) fn report_on_mending(
    alloc: Global,
    line: &Line<'_>,
    files: Vec<SourceFile>,
) -> Result<Report, Refusal>
    ensures said { IfOk result (λ r. said r ≡ mend_said line.now files.items) }
    ensures status { IfOk result (λ r. r.status < 3) }
    ensures refused { IfErr result (λ e. IsSaid e (mend_said line.now files.items)) }
{
    let files = files_read(alloc, FileKind::Rules, line, files)?;
    let output = answer(alloc, line.check, &files)?;
    let status = status_of(line.check, &output);
    Ok(Report {
        output,
        messages: Vec::new(alloc),
        status,
    })
}

/// The answer about files: their texts mended, or the names of those that this changes.
fn answer(alloc: Global, check: bool, files: &[SourceFile]) -> Result<Vec<u8>, AllocError>
    ensures { IfOk result (λ text. text.items ≡ answer check files.now) }
{
    if check {
        changed_names(alloc, files)
    } else {
        mended_texts(alloc, files)
    }
}

/// The status after an answer: 1 if names are asked for and there is one.
fn status_of(check: bool, output: &[u8]) -> u8
    ensures value { result ≡ status_of check output.now }
    ensures least { result < 3 }
{
    if check && !output.is_empty() { 1 } else { 0 }
}

/// Files with their style mended, one after another.
fn mended_texts(alloc: Global, files: &[SourceFile]) -> Result<Vec<u8>, AllocError>
    ensures { IfOk result (λ text. text.items ≡ mended_texts files.now) }
{
    let mut texts = Vec::new(alloc);
    for file in files {
        let mended = mended_rules(alloc, file.bytes.as_slice())?;
        texts.extend_from_slice(mended.as_slice())?;
    }
    Ok(texts)
}

/// The names of the files that mending changes, one a line.
fn changed_names(alloc: Global, files: &[SourceFile]) -> Result<Vec<u8>, AllocError>
    ensures { IfOk result (λ text. text.items ≡ changed_names files.now) }
{
    let mut names = Vec::new(alloc);
    for file in files {
        add_if_changed(alloc, &mut names, file)?;
    }
    Ok(names)
}

/// Adds the line of a file if mending changes it.
fn add_if_changed(alloc: Global, names: &mut Vec<u8>, file: &SourceFile) -> Result<(), AllocError>
    ensures { OnOk result (names.new.items ≡ names.old.items ++ changed_line file.now) }
{
    if is_changed(alloc, file)? {
        names.extend_from_slice(&escape(alloc, file.name.as_slice())?)?;
        names.push(b'\n')?;
    }
    Ok(())
}

/// Whether mending changes a file.
fn is_changed(alloc: Global, file: &SourceFile) -> Result<bool, AllocError>
    ensures { IfOk result (λ changed. changed ≡ is_changed file.now) }
{
    let mended = mended_rules(alloc, file.bytes.as_slice())?;
    Ok(file.bytes.as_slice() != mended.as_slice())
}
