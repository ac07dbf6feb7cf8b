//! What a run says, before any of it is written.

/// What a run writes to its two outputs, and the status that it returns.
#[derive(Drop)]
pub struct Report {
    /// The answer, for the output.
    pub output: Vec<u8>,
    /// The messages about the files, for the error output.
    pub messages: Vec<u8>,
    /// The status, under 3.
    pub status: u8,
}
