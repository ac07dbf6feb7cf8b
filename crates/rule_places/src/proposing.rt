//! A rules file with its commas and blanks mended, before it is compared with what it was.
ghost use Rattle.std.specs.Prelude.{◌≡◌, ◌++◌, [], IfOk, OnOk};
ghost use Rattle.rule_places.specs.Proposed.{lines_left, mended_run, proposed_from, run_written};
ghost use Rattle.rule_places.specs.WholeLines.{whole_lines};

use crate::faults::is_to_mend;
use crate::lines::WholeLines;
use crate::rewriting::add_rewritten;
use crate::stretches::stretches;
use rule_core::{LandedLines, LandedReading, sum_of};
use std::alloc::{AllocError, Global};

/// A file with these bytes and joined lines, mended.
pub(crate) fn proposed_by(
    alloc: Global,
    bytes: &[u8],
    lines: LandedLines<'_>,
) -> Result<Vec<u8>, AllocError>
    ensures { IfOk result (λ written. written.items ≡ proposed_from lines.entry [] 0 (whole_lines bytes.now)) }
{
    let mut lines = lines;
    let mut written = Vec::new(alloc);
    let mut run = Vec::new(alloc);
    let mut size = 0;
    for line in WholeLines::new(bytes) {
        run.extend_from_slice(line.bytes())?;
        size = sum_of(size, line.given_size())?;
        if line.ends_joined() {
            add_run(alloc, &mut written, &lines, &run, size)?;
            lines = lines_left(lines, size);
            run = Vec::new(alloc);
            size = 0;
        }
    }
    written.extend_from_slice(&run)?;
    Ok(written)
}

/// Adds what is written for a run that has ended, and gives so many bytes: one that gives any is the first of the
/// joined lines still to come.
fn add_run(
    alloc: Global,
    written: &mut Vec<u8>,
    lines: &LandedLines<'_>,
    run: &[u8],
    size: usize,
) -> Result<(), AllocError>
    ensures { OnOk result (written.new.items ≡ written.old.items ++ run_written lines.now run.now size) }
{
    if size == 0 {
        return written.extend_from_slice(run);
    }
    match lines.first(alloc)? {
        None => written.extend_from_slice(run),
        Some(line) => add_line(alloc, written, &line, run),
    }
}

/// The joined lines still to come after such a run.
fn lines_left(lines: LandedLines<'_>, size: usize) -> LandedLines<'_>
    ensures { result ≡ lines_left lines.entry size }
{
    if size == 0 { lines } else { lines.others() }
}

/// Adds the lines that make a joined line, mended if that is to be mended.
fn add_line(
    alloc: Global,
    written: &mut Vec<u8>,
    line: &LandedReading<'_>,
    run: &[u8],
) -> Result<(), AllocError>
    ensures { OnOk result (written.new.items ≡ written.old.items ++ mended_run line.now run.now) }
{
    if !is_to_mend(line) {
        return written.extend_from_slice(run);
    }
    let text = line.reading.text;
    match &line.reading.read {
        Err(_) => written.extend_from_slice(run),
        Ok(draft) => {
            let stretches = stretches(alloc, text, &draft.parts)?;
            add_rewritten(alloc, written, text, &stretches, run)
        }
    }
}
