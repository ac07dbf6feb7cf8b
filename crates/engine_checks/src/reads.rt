//! Files that are read for their checks.
ghost use Rattle.std.specs.Prelude.{◌≡◌, map, IfOk};
ghost use Rattle.engine_checks.specs.Tables.{link_read_by, read_at, read_by};

use crate::file_text::FileText;
use engine_sessions::Line;
use std::alloc::{AllocError, Global};
use std::marker::Model;
use text_bytes::SourceFile;

/// A file that is read for its checks, and as diagnostics show it.
#[derive(Drop)]
pub struct FileRead<'a> {
    file: &'a SourceFile,
    text: FileText<'a>,
}

impl<'a> Model for FileRead<'a> {
    ghost use Rattle.engine_checks.specs.Tables as tables;

    ghost Value = { tables.FileRead };

    ghost view = { λ r. record { file = r.file.now; text = r.text } };
}

impl<'a> FileRead<'a> {
    /// A file that was opened by a path, and which no command line names.
    pub fn at(alloc: Global, path: &[u8], file: &'a SourceFile) -> Result<FileRead<'a>, AllocError>
        ensures { IfOk result (λ read. read ≡ read_at path.now file.now) }
    {
        let text = FileText::at(alloc, Vec::from_slice(alloc, path)?, file)?;
        Ok(FileRead { file, text })
    }

    /// The file.
    pub(crate) fn file(&self) -> &'a SourceFile
        ensures { result.now ≡ self.now.file }
    {
        self.file
    }

    /// The file as diagnostics show it.
    pub(crate) fn text(&self) -> &FileText<'a>
        ensures { result.now ≡ self.now.text }
    {
        &self.text
    }
}

/// Files that a command line reads.
pub(crate) fn read_files<'a>(
    alloc: Global,
    line: &Line<'_>,
    files: &'a [SourceFile],
) -> Result<Vec<FileRead<'a>>, AllocError>
    ensures { IfOk result (λ reads. reads.items ≡ map (read_by line.now) files.now) }
{
    let mut reads = Vec::with_capacity(alloc, files.len())?;
    for file in files {
        let text = FileText::of(alloc, line, file)?;
        reads.push(FileRead { file, text })?;
    }
    Ok(reads)
}

/// `.link` files and drop-ins that a command line reads.
pub(crate) fn read_links<'a>(
    alloc: Global,
    line: &Line<'_>,
    files: &'a [SourceFile],
) -> Result<Vec<FileRead<'a>>, AllocError>
    ensures { IfOk result (λ reads. reads.items ≡ map (link_read_by line.now) files.now) }
{
    let mut reads = Vec::with_capacity(alloc, files.len())?;
    for file in files {
        let text = FileText::of_link(alloc, line, file)?;
        reads.push(FileRead { file, text })?;
    }
    Ok(reads)
}
