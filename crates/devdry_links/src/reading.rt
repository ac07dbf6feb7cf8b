//! The `.link` files of a root that count, and what is reported about the others.
ghost use Rattle.std.specs.Prelude.{◌≡◌, ◌++◌, ◌≤◌, IfOk, OnOk, flat_map};
ghost use Rattle.devdry_files.specs.Inside.{MayInside};
ghost use Rattle.devdry_links.specs.Reading.{AreLinksRead, line_on_link};

use crate::survey::survey;
use devdry_files::{Disk, RootedDisk};
use devdry_folders::{Report, least_status, push_escaped};
use link_files::{LinkFile, read_links};
use std::alloc::{AllocError, Global};

/// What was read of the `.link` files of a root.
#[derive(Drop)]
pub struct LinksRead {
    /// The files that count, in order, each with its drop-ins.
    pub links: Vec<LinkFile>,
    /// What is reported before a run.
    pub report: Report,
}

/// Adds the line on a file that is not used since a line of it, or of a drop-in, is not understood.
fn push_line(
    alloc: Global,
    root: &str,
    link: &LinkFile,
    lines: &mut Vec<u8>,
) -> Result<(), AllocError>
    ensures { OnOk result (lines.new.items ≡ lines.old.items ++ line_on_link root.now link.now) }
{
    if link.is_sound() {
        return Ok(());
    }
    let mut path = Vec::from_slice(alloc, root.as_bytes())?;
    path.extend_from_slice(link.path())?;
    push_escaped(alloc, lines, b"devdry: ", &path)?;
    lines.extend_from_slice(b": not used: a line of it or of a drop-in is not understood\n")
}

/// Adds the lines on files that are not used.
fn push_lines(
    alloc: Global,
    root: &str,
    links: &[LinkFile],
    lines: &mut Vec<u8>,
) -> Result<(), AllocError>
    ensures { OnOk result (lines.new.items ≡ lines.old.items ++ flat_map (line_on_link root.now) links.now) }
{
    for link in links {
        push_line(alloc, root, link, lines)?;
    }
    Ok(())
}

/// The `.link` files that count, as a disk answers, and what is reported about them.
fn read_links_of<D: Disk>(alloc: Global, disk: &D, root: &str) -> Result<LinksRead, AllocError>
    ensures read { IfOk result (AreLinksRead (D.may_answer disk.now) root.now) }
    ensures least { IfOk result (λ read. read.report.least ≤ 3) }
{
    let survey = survey(alloc, disk, root)?;
    let links = read_links(alloc, survey.files, survey.drop_ins)?;
    let least = least_status(&survey.unread, b"");
    let mut lines = survey.unread;
    push_lines(alloc, root, &links, &mut lines)?;
    Ok(LinksRead {
        links,
        report: Report { lines, least },
    })
}

/// Reads the `.link` files of a root and their drop-ins, as systemd.link(5) has their folders: `/etc/systemd/network`,
/// `/run/systemd/network`, `/usr/local/lib/systemd/network` and `/usr/lib/systemd/network`, each after the root, and in
/// each of these `NAME.link.d` for the drop-ins of `NAME.link`. A symlink is followed inside the root, an absent folder is
/// empty, and folders are skipped among files.
///
/// What can't be read is reported, `devdry: cannot read PATH: REASON`, and the least status is then 3; such a file hides
/// those of its name in further folders, as one without bytes does. A file that does not count since a line of it or of a
/// drop-in is not understood is reported after that. There is an error only if memory runs out.
pub fn read_link_files<D: Disk>(
    alloc: Global,
    disk: &D,
    root: &str,
) -> Result<LinksRead, AllocError>
    ensures read { IfOk result (AreLinksRead (MayInside (D.may_answer disk.now) root.now) root.now) }
    ensures least { IfOk result (λ read. read.report.least ≤ 3) }
{
    let inside = RootedDisk::new(disk, root);
    read_links_of(alloc, &inside, root)
}
