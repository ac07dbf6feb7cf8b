//! What may be reported for a `.link` file.

/// What is not as systemd.link(5) has it.
#[derive(Clone, Copy, PartialEq, Eq)]
pub enum LinkFault {
    /// L1: no section of this name is known.
    UnknownSection,
    /// L2: the section has no such key.
    UnknownKey,
    /// L3: the line is neither a section, an assignment within one, nor a comment.
    BadLine,
    /// L4: the key does not take this value.
    BadValue,
    /// L5: the file is for no interface.
    NoInterface,
}
