//! A diagnostic: what is said about a place in a file.

use engine_reports::Named;
use file_catalogue::Remark;
use text_bytes::Bytes;

/// What is said about a place in a file.
///
/// Lines and columns are counted from 1, columns in bytes.
#[derive(Drop)]
pub struct Diagnostic<'a> {
    /// The file's name, as messages give it.
    pub name: &'a [u8],
    /// The path by which the file was opened.
    pub path: &'a [u8],
    /// The line that the place begins in, without its newline.
    pub source: &'a [u8],
    /// The line number that messages give: for rules the first line of the rule.
    pub begins: u32,
    /// The number of the line that the place begins in.
    pub line: u32,
    /// The column that the place begins at.
    pub column: u32,
    /// The column after the last byte of the place that is in this line; `column` if the place is empty.
    pub end: u32,
    /// What it is about.
    pub remark: Remark,
    /// The part of the file that it is about, whole and not escaped.
    pub word: Bytes,
}

impl<'a> Named for Diagnostic<'a> {
    ghost name = { λ d. d.name.now };

    fn file_name(&self) -> &[u8] {
        self.name
    }
}
