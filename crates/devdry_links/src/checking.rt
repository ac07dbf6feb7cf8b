//! The `.link` files and drop-ins that are checked.
ghost use Rattle.std.specs.Prelude.{◌≡◌, ◌≤◌, IfOk, filter};
ghost use Rattle.devdry_links.specs.Checking.{AreLinksFor, AreLinksToCheck, AreNamed, counts, counts_as_drop_in};

use crate::survey::survey;
use devdry_files::{Disk, RootedDisk};
use devdry_folders::{Report, least_status, read_files_that_can};
use engine_sessions::Line;
use link_files::is_masked;
use std::alloc::{AllocError, Global};
use text_bytes::{SourceFile, begins_with, order_files, split_once};

/// Files to check.
#[derive(Drop)]
pub struct LinksToCheck {
    /// The files, in order.
    pub files: Vec<SourceFile>,
    /// What is reported before the check.
    pub report: Report,
}

/// Those files that count.
fn counting(mut files: Vec<SourceFile>) -> Vec<SourceFile>
    ensures { result.items ≡ filter counts files.items }
{
    files.retain(|file| !is_masked(file));
    files
}

/// Whether a drop-in counts.
fn counts_as_drop_in(file: &SourceFile) -> bool
    ensures { result ≡ counts_as_drop_in file.now }
{
    match split_once(b'/', file.name.as_slice()) {
        Some((_, name)) => !file.bytes.as_slice().is_empty() && !begins_with(b'.', name),
        None => false,
    }
}

/// Those drop-ins that count.
fn counting_drop_ins(mut files: Vec<SourceFile>) -> Vec<SourceFile>
    ensures { result.items ≡ filter counts_as_drop_in files.items }
{
    files.retain(|file| counts_as_drop_in(file));
    files
}

/// The files of a root to check, as a disk answers.
fn read_of_root<D: Disk>(alloc: Global, disk: &D, root: &str) -> Result<LinksToCheck, AllocError>
    ensures read { IfOk result (AreLinksToCheck (D.may_answer disk.now) root.now) }
    ensures least { IfOk result (λ links. links.report.least ≤ 3) }
{
    let survey = survey(alloc, disk, root)?;
    let least = least_status(&survey.unread, b"");
    let mut files = counting(survey.files);
    let mut drop_ins = counting_drop_ins(order_files(alloc, survey.drop_ins, b".conf")?);
    files.append(&mut drop_ins)?;
    Ok(LinksToCheck {
        files,
        report: Report {
            lines: survey.unread,
            least,
        },
    })
}

/// Reads the files that a line names.
fn read_named<D: Disk>(alloc: Global, disk: &D, line: &Line<'_>) -> Result<LinksToCheck, AllocError>
    ensures read { IfOk result (AreNamed (D.may_answer disk.now) line.now) }
    ensures least { IfOk result (λ links. links.report.least ≤ 3) }
{
    let some = read_files_that_can(alloc, disk, line)?;
    Ok(LinksToCheck {
        files: some.files,
        report: some.report,
    })
}

/// Reads the `.link` files and drop-ins that a line checks: those that it names, and otherwise those inside its root that count,
/// which are looked for as `read_link_files` does. What can't be read is reported in the same way. There is an error only
/// if memory runs out.
pub fn read_links_to_check<D: Disk>(
    alloc: Global,
    disk: &D,
    line: &Line<'_>,
) -> Result<LinksToCheck, AllocError>
    ensures read { IfOk result (AreLinksFor (D.may_answer disk.now) line.now) }
    ensures least { IfOk result (λ links. links.report.least ≤ 3) }
{
    if line.files.is_empty() {
        let inside = RootedDisk::new(disk, line.root);
        read_of_root(alloc, &inside, line.root)
    } else {
        read_named(alloc, disk, line)
    }
}
