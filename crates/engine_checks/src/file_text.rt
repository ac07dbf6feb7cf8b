//! A file as diagnostics show it.
ghost use Rattle.std.specs.Prelude.{◌≡◌, IfOk};
ghost use Rattle.text_bytes.specs.Lines.{numbered_lines};
ghost use Rattle.engine_formats.specs.Placing.{line_numbered};
ghost use Rattle.engine_checks.specs.Files.{file_text};
ghost use Rattle.engine_checks.specs.Links.{link_text};

use crate::link_paths::link_path;
use engine_formats::{file_lines, line_numbered, path_of};
use engine_sessions::Line;
use std::alloc::{AllocError, Global};
use std::marker::Model;
use text_bytes::{Bytes, Line as TextLine, SourceFile};

/// A file with the path by which it was opened and with its lines.
#[derive(Drop)]
pub(crate) struct FileText<'a> {
    name: &'a [u8],
    path: Bytes,
    lines: Vec<TextLine<'a>>,
}

impl<'a> Model for FileText<'a> {
    ghost use Rattle.engine_checks.specs.Reported as reported;

    ghost Value = { reported.FileText };

    ghost view = { λ f. record { name = f.name.now; path = f.path; lines = f.lines.items } };
}

impl<'a> FileText<'a> {
    /// A file that was opened by a path.
    pub(crate) fn at(
        alloc: Global,
        path: Vec<u8>,
        file: &'a SourceFile,
    ) -> Result<FileText<'a>, AllocError>
        ensures { IfOk result (λ text. text ≡ record { name = file.now.name; path = path.items; lines = numbered_lines file.now.bytes }) }
    {
        Ok(FileText {
            name: file.name.as_slice(),
            path: Bytes::new(path),
            lines: file_lines(alloc, file.bytes.as_slice())?,
        })
    }

    /// A file that a command line reads.
    pub(crate) fn of(
        alloc: Global,
        line: &Line<'_>,
        file: &'a SourceFile,
    ) -> Result<FileText<'a>, AllocError>
        ensures { IfOk result (λ text. text ≡ file_text line.now file.now) }
    {
        let path = path_of(alloc, line, file)?;
        FileText::at(alloc, path, file)
    }

    /// A `.link` file or a drop-in that a command line reads.
    pub(crate) fn of_link(
        alloc: Global,
        line: &Line<'_>,
        file: &'a SourceFile,
    ) -> Result<FileText<'a>, AllocError>
        ensures { IfOk result (λ text. text ≡ link_text line.now file.now) }
    {
        let path = link_path(alloc, line, file)?;
        FileText::at(alloc, path, file)
    }

    /// The name, as messages give it.
    pub(crate) fn name(&self) -> &'a [u8]
        ensures { result.now ≡ self.now.name }
    {
        self.name
    }

    /// The path by which the file was opened.
    pub(crate) fn path(&self) -> &[u8]
        ensures { result.now ≡ self.now.path }
    {
        self.path.as_slice()
    }

    /// The lines.
    pub(crate) fn lines(&self) -> &[TextLine<'a>]
        ensures { result.now ≡ self.now.lines }
    {
        &self.lines
    }

    /// A line by its number; empty if there is none.
    pub(crate) fn line(&self, number: u32) -> &'a [u8]
        ensures { result.now ≡ line_numbered self.now.lines number }
    {
        line_numbered(&self.lines, number)
    }
}
