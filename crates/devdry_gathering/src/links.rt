//! What lines that answer events as udev does read beside their files.
ghost use Rattle.std.specs.Prelude.{◌≡◌, IfOk};
ghost use Rattle.devdry_gathering.specs.Links.{FindsFor, HasLinks, ReadsLinks, does_as_udev};

use crate::gathered::nothing;
use builtin_devices::RootFiles;
use devdry_files::Disk;
use devdry_folders::Report;
use devdry_links::{read_link_files, read_root_files};
use engine_formats::shown_in;
use engine_sessions::{Line, Verb};
use std::alloc::{AllocError, Global};
use text_bytes::{Profile, SourceFile};

/// Whether a line answers events as udev does.
fn does_as_udev(line: &Line<'_>) -> bool
    ensures { result ≡ does_as_udev line.now }
{
    line.verb == Verb::Events && line.profile == Profile::Udev
}

/// Reads the `.link` files for a line that names interfaces by them.
fn take_links<D: Disk>(alloc: Global, disk: &D, line: &mut Line<'_>) -> Result<Report, AllocError>
    ensures { IfOk result (HasLinks (D.may_answer disk.now) line.old line.new) }
{
    let read = read_link_files(alloc, disk, line.root)?;
    line.links = read.links;
    let Report { lines, least } = read.report;
    Ok(Report {
        lines: shown_in(line.format, lines),
        least,
    })
}

/// Reads the `.link` files for a line, if it names interfaces by them, and says what can't be read of them.
pub(crate) fn read_links<D: Disk>(
    alloc: Global,
    disk: &D,
    line: &mut Line<'_>,
) -> Result<Report, AllocError>
    ensures { IfOk result (ReadsLinks (D.may_answer disk.now) line.old line.new) }
{
    if does_as_udev(line) {
        take_links(alloc, disk, line)
    } else {
        Ok(nothing(alloc))
    }
}

/// What is found in a line's root at the paths that the rules of files import, if it answers events as udev does.
pub(crate) fn find_files<D: Disk>(
    alloc: Global,
    disk: &D,
    line: &Line<'_>,
    files: &[SourceFile],
) -> Result<RootFiles, AllocError>
    ensures { IfOk result (FindsFor (D.may_answer disk.now) line.now files.now) }
{
    if does_as_udev(line) {
        read_root_files(alloc, disk, line.root, files)
    } else {
        Ok(RootFiles::new(alloc))
    }
}
