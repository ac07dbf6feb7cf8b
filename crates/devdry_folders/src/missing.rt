//! What is reported where no file was found that a run needs.
ghost use Rattle.std.specs.Prelude.{◌≡◌, IfOk};
ghost use Rattle.devdry_folders.specs.Missing.{AreMissing, IsLineOnRoot, has_needed, looks_at_root, root_line};

use crate::elsewhere::files_elsewhere;
use crate::indexes::is_index_read;
use crate::nothing::{nothing_lines, push_line};
use crate::sights::Survey;
use crate::unread::{has_files, is_one_of};
use devdry_files::{Disk, Look, RootedDisk};
use engine_sessions::Line;
use std::alloc::{AllocError, Global};
use text_bytes::FileKind;

/// Whether a file of these kinds was read, or the index in place of the database.
fn has_needed(kinds: &[FileKind], survey: &Survey) -> bool
    ensures { result ≡ has_needed kinds.now survey.now }
{
    has_files(kinds, &survey.visits)
        || (is_one_of(kinds, FileKind::Hwdb) && is_index_read(&survey.index))
}

/// Whether folders are read below a root that a line gives, beside files that it names or adds: then a root that is no folder
/// is not noticed by what is missing.
fn looks_at_root(line: &Line<'_>) -> bool
    ensures { result ≡ looks_at_root line.now }
{
    let has_own_files = !line.files.is_empty() | !line.added.is_empty();
    let mut kinds = line.verb.kinds_read().iter();
    !line.root.is_empty() && has_own_files && kinds.any(|kind| line.reads_folders_of(*kind))
}

/// The line on a root that is no folder, by a look at it.
fn root_line(alloc: Global, root: &str, look: Look) -> Result<Vec<u8>, AllocError>
    ensures { IfOk result (λ text. text.items ≡ root_line root.now look) }
{
    let mut lines = Vec::new(alloc);
    match look {
        Look::Absent => push_line(alloc, &mut lines, root.as_bytes(), b": absent")?,
        Look::File | Look::Other => {
            push_line(alloc, &mut lines, root.as_bytes(), b": not a folder")?;
        }
        Look::Folder | Look::Forbidden | Look::Failed => {}
    }
    Ok(lines)
}

/// The line on the root of a line, if it is looked at and is no folder.
pub(crate) fn line_on_root<D: Disk>(
    alloc: Global,
    disk: &D,
    line: &Line<'_>,
) -> Result<Vec<u8>, AllocError>
    ensures { IfOk result (λ text. IsLineOnRoot (D.may_answer disk.now) line.now text.items) }
{
    if !looks_at_root(line) {
        return Ok(Vec::new(alloc));
    }
    let look = disk.look(alloc, line.root)?;
    root_line(alloc, line.root, look)
}

/// What is reported if no file of these kinds was read, or if folders are read below a root that is no folder; nothing
/// otherwise.
pub(crate) fn missing_lines<D: Disk>(
    alloc: Global,
    disk: &D,
    line: &Line<'_>,
    kinds: &[FileKind],
    survey: &Survey,
) -> Result<Vec<u8>, AllocError>
    ensures { IfOk result (λ text. AreMissing (D.may_answer disk.now) line.now kinds.now survey.now text.items) }
{
    if has_needed(kinds, survey) {
        return line_on_root(alloc, disk, line);
    }
    let inside = RootedDisk::new(disk, line.root);
    let others = files_elsewhere(alloc, &inside, line, kinds)?;
    nothing_lines(alloc, kinds, &survey.visits, &others)
}
