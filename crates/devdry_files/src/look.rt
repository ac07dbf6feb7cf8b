//! What a look at a path shows.

/// What is at a path, with symlinks followed.
#[derive(Clone, Copy, PartialEq, Eq)]
pub enum Look {
    /// 1: nothing, also at the end of a symlink to nothing.
    Absent,
    /// 2: a folder that may be listed.
    Folder,
    /// 3: a file that may be read and has an end: a regular one, or the null device.
    File,
    /// 4: something that may not be looked at, listed or read.
    Forbidden,
    /// 5: neither a folder nor such a file: a FIFO, a socket, another device, or a path below a file.
    Other,
    /// 6: the look failed, such as at a symlink that leads to itself.
    Failed,
}
