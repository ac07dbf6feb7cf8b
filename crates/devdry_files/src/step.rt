//! What is at a path if the symlink there is not followed.

use crate::look::Look;

/// Which file a path leads to: as long as there is a file with these numbers, there is no other.
#[derive(Clone, Copy, PartialEq, Eq)]
pub struct Identity {
    /// The number of the file system.
    pub device: u64,
    /// The number of the file in it.
    pub number: u64,
}

/// What is at a path, with no symlink followed at its end.
#[derive(Drop)]
pub enum Step {
    /// 1: a folder.
    Folder,
    /// 2: a file that has an end: a regular one, or the null device.
    File(Identity),
    /// 3: a symlink, and where it leads, as it is written.
    Link(String),
    /// 4: a symlink that leads to a path that is not UTF-8.
    OddLink,
    /// 5: none of these: what a look shows instead.
    NoWay(Look),
}

/// What a path inside a root leads to.
#[derive(Clone, Copy, PartialEq, Eq)]
pub enum End {
    /// 1: a folder.
    Folder,
    /// 2: a file.
    File(Identity),
    /// 3: the null device, by a link to `/dev/null`.
    Null,
    /// 4: a symlink that can't be followed, since it leads to a path that is not UTF-8.
    OddLink,
    /// 5: none of these: what a look shows instead.
    NoWay(Look),
}
