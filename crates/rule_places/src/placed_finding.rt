//! Something that is reported for a rules file, with the place that it is about.

use text_bytes::Bytes;

/// Something that is reported for a rules file, a finding or a lint, with the place in the file that it is about.
#[derive(Drop)]
pub struct PlacedFinding<K> {
    /// The line number with which the rule is reported, counted from 1: that of its first line, or for udev of its
    /// last.
    pub begins: u32,
    /// The number of the line in which the place begins, counted from 1.
    pub line: u32,
    /// The byte of that line at which the place begins, counted from 1.
    pub column: u32,
    /// The column after the last byte of the place that is in that same line.
    pub end: u32,
    /// What is reported.
    pub kind: K,
    /// The whole text that it is reported with.
    pub word: Bytes,
}
