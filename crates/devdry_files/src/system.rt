//! What is asked of the system about files, call by call.
//!
//! No contract can say what a system replies. So the disk of the system is written over a trait whose ghost member says
//! which replies a system may give, and its contracts say which replies each answer comes from.
ghost use Rattle.std.specs.Prelude.{◌≡◌, Err, IfOk, MatchResult, Ok, false, map, string_bytes};
ghost use Rattle.std.specs.Path.{path_buf_bytes};
ghost use Rattle.devdry_files.specs.Calls.{IsSeen, Reply};
ghost use Rattle.devdry_files.specs.Calls.Reply.{Led, Named, Opened as OpenedAs, Shown, ShownLast};
ghost use Rattle.devdry_files.specs.Errors.{is_refused};

use crate::disk::DiskFault;
use crate::look::Look;
use crate::step::Identity;
use std::alloc::Global;
use std::io::{self, Read};
use std::path::PathBuf;

/// What kind of thing is at a path.
#[derive(Clone, Copy, PartialEq, Eq)]
pub enum NodeKind {
    /// 1: a folder.
    Folder,
    /// 2: a regular file.
    File,
    /// 3: a symlink.
    Link,
    /// 4: a character device, and its number.
    Device(u64),
    /// 5: anything else, such as a FIFO, a socket or a block device.
    Other,
}

/// What the system says of what is at a path, or of a file that is open.
#[derive(Clone, Copy)]
pub struct Node {
    /// What kind of thing it is.
    pub kind: NodeKind,
    /// The number of the file system that it is in.
    pub file_system: u64,
    /// Its number in that.
    pub number: u64,
}

/// A file that was opened, and what the system then says of it.
#[derive(Drop)]
pub struct Opened<F> {
    /// What it is.
    pub node: Node,
    /// The open file.
    pub file: F,
}

/// A system that is asked about files.
pub trait System {
    // the replies that the system may give
    ghost may_reply: { Self → Reply → Type 0 };

    /// A file that is open for reading.
    type File: Read + Drop;

    /// The names in the folder at a path, but for `.` and `..`, in any order.
    fn names(&self, alloc: Global, path: &str) -> Result<Vec<String>, DiskFault>
        ensures { IfOk result (λ names. may_reply self.now (Named path.now (map string_bytes names.items))) };

    /// What is at a path, with symlinks followed.
    fn look(&self, path: &str) -> io::Result<Node>
        ensures { may_reply self.now (Shown path.now result) };

    /// What is at a path, with no symlink followed at its end.
    fn look_last(&self, path: &str) -> io::Result<Node>
        ensures { may_reply self.now (ShownLast path.now result) };

    /// Where the symlink at a path leads, as it is written.
    fn link(&self, path: &str) -> io::Result<PathBuf>
        ensures { MatchResult result (λ to. may_reply self.now (Led path.now (Ok (path_buf_bytes to))))
            (λ error. may_reply self.now (Led path.now (Err error))) };

    /// Opens what is at a path, which a look showed to be nothing that would be waited for, and looks at what was opened.
    fn open(&self, path: &str, seen: Look) -> io::Result<Opened<Self::File>>
        requires seen { IsSeen (may_reply self.now) path.now seen }
        requires ends { is_refused seen path.now ≡ false }
        ensures { MatchResult result (λ opened. may_reply self.now (OpenedAs path.now (Ok opened.node)))
            (λ error. may_reply self.now (OpenedAs path.now (Err error))) };

    /// Opens the file at a path that a step showed there, with this identity, and looks at what was opened.
    fn open_own(&self, path: &str, identity: Identity) -> io::Result<Opened<Self::File>>
        ensures { MatchResult result (λ opened. may_reply self.now (OpenedAs path.now (Ok opened.node)))
            (λ error. may_reply self.now (OpenedAs path.now (Err error))) };
}
