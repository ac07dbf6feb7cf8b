//! What is found in `.link` files, as diagnostics.
ghost use Rattle.std.specs.Prelude.{◌≡◌, flat_map, map, IfOk};
ghost use Rattle.engine_formats.specs.Diagnostics.{shown};
ghost use Rattle.engine_checks.specs.Links.{link_diagnostic, links_found};
ghost use Rattle.engine_checks.specs.Tables.{links_reported_by};

use crate::file_text::FileText;
use crate::ignores::ignores_counted;
use crate::reads::FileRead;
use crate::reported::{Asked, file_reported};
use engine_formats::Diagnostic;
use file_catalogue::Remark;
use link_files::{DropIns, PlacedFault, link_faults};
use std::alloc::{AllocError, Global};
use text_bytes::SourceFile;

/// A fault of a file as a diagnostic.
fn link_diagnostic<'r>(file: &'r FileText<'_>, fault: PlacedFault) -> Diagnostic<'r>
    ensures { shown result ≡ link_diagnostic file.now fault }
{
    Diagnostic {
        name: file.name(),
        path: file.path(),
        source: file.line(fault.line),
        begins: fault.line,
        line: fault.line,
        column: fault.column,
        end: fault.end,
        remark: Remark::LinkFault(fault.fault),
        word: fault.word,
    }
}

/// Faults of a file as diagnostics.
fn link_diagnostics<'r>(
    alloc: Global,
    file: &'r FileText<'_>,
    faults: Vec<PlacedFault>,
) -> Result<Vec<Diagnostic<'r>>, AllocError>
    ensures { IfOk result (λ found. map shown found.items ≡ map (link_diagnostic file.now) faults.items) }
{
    let mut found = Vec::with_capacity(alloc, faults.len())?;
    for fault in faults {
        found.push(link_diagnostic(file, fault))?;
    }
    Ok(found)
}

/// What is found in a file among these.
fn links_found<'r>(
    alloc: Global,
    files: &DropIns<'_>,
    read: &'r FileRead<'_>,
) -> Result<Vec<Diagnostic<'r>>, AllocError>
    ensures { IfOk result (λ found. map shown found.items ≡ links_found read.now.text files.now read.now.file) }
{
    let faults = link_faults(alloc, files, read.file())?;
    link_diagnostics(alloc, read.text(), faults)
}

/// What is reported for a file among these.
fn reported_for_file<'r>(
    alloc: Global,
    asked: &Asked<'_>,
    files: &DropIns<'_>,
    read: &'r FileRead<'_>,
) -> Result<Vec<Diagnostic<'r>>, AllocError>
    ensures { IfOk result (λ reported. map shown reported.items ≡ links_reported_by asked.now files.now read.now) }
{
    let found = links_found(alloc, files, read)?;
    let ignores = ignores_counted(alloc, asked, read.file())?;
    file_reported(alloc, asked, read.text(), &ignores, found)
}

/// What is reported for files, file by file.
pub(crate) fn links_reported<'r>(
    alloc: Global,
    asked: &Asked<'_>,
    files: &[SourceFile],
    reads: &'r [FileRead<'_>],
) -> Result<Vec<Diagnostic<'r>>, AllocError>
    ensures { IfOk result (λ reported. map shown reported.items
        ≡ flat_map (links_reported_by asked.now files.now) reads.now) }
{
    let files = DropIns::of(alloc, files)?;
    let mut reported = Vec::new(alloc);
    for read in reads {
        reported.append(&mut reported_for_file(alloc, asked, &files, read)?)?;
    }
    Ok(reported)
}
