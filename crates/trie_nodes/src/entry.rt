//! One property of the database, with the pattern that it is for.

use crate::shared::SharedBytes;
use text_bytes::Bytes;
use text_core::PackedPattern;

/// A property for the devices whose modalias a pattern fits.
#[derive(Drop)]
pub struct Entry {
    /// The match above it.
    pub pattern: PackedPattern,
    /// The property's name, never empty.
    pub key: SharedBytes,
    /// Its value, perhaps empty.
    pub value: Bytes,
    /// Its place among all entries: of two entries that fit and have the same key the greater wins.
    pub order: u32,
    /// The name of the file that has it; empty if unknown.
    pub file: SharedBytes,
    /// The number of the property's line, counted from 1; 0 if unknown, and at most 2^32 - 1.
    pub line: u32,
}
