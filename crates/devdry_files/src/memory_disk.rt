//! A disk over memory, which says just what it answers.
//!
//! It shows that the contract of `Disk` can be met, and serves tests that need odd folders.
ghost use Rattle.std.specs.Prelude.{◌≡◌, IfOk, map};
ghost use Rattle.devdry_files.specs.Memory.{MayAnswer, node_at, seen_entry, seen_in_memory};

use crate::disk::{Disk, DiskFault, Entry};
use crate::look::Look;
use crate::step::{Identity, Step};
use std::alloc::{AllocError, Global};
use text_bytes::Bytes;

/// An entry of a folder in memory.
#[derive(Clone, Copy)]
pub struct MemoryEntry<'a> {
    /// Its name.
    pub name: &'a str,
    /// Whether it is said to be a folder.
    pub is_folder: bool,
}

/// What is at a path.
#[derive(Clone, Copy)]
pub enum DiskNode<'a> {
    /// A folder with these entries.
    Folder(&'a [MemoryEntry<'a>]),
    /// A file of these bytes.
    File(&'a [u8]),
    /// Something that can't be read.
    Unreadable,
    /// A symlink that leads there. It is followed by whoever asks for it, inside a root: the disk itself follows none.
    Link(&'a str),
}

/// A path, and what is there.
#[derive(Clone, Copy)]
pub struct MemoryPlace<'a> {
    /// The path, with which a request has to agree byte by byte.
    pub path: &'a str,
    /// What is there.
    pub disk_node: DiskNode<'a>,
}

/// A disk over memory. Of places with the same path the first counts; at any other path there is nothing. Its files
/// have no identities: each step shows the same.
#[derive(Clone, Copy)]
pub struct MemoryDisk<'a> {
    /// All places.
    pub places: &'a [MemoryPlace<'a>],
}

/// The identity of each file.
const NO_IDENTITY: Identity = Identity {
    device: 0,
    number: 0,
};

/// What is at a path.
fn node_at<'a>(disk: &MemoryDisk<'a>, path: &str) -> Option<DiskNode<'a>>
    ensures { result ≡ node_at disk.now path.now }
{
    let place = disk.places.iter().find(|place| place.path == path)?;
    Some(place.disk_node)
}

/// The entries, copied.
fn copies_of(alloc: Global, entries: &[MemoryEntry<'_>]) -> Result<Vec<Entry>, AllocError>
    ensures { IfOk result (λ copies. map seen_entry copies.items ≡ map seen_in_memory entries.now) }
{
    let mut copies = Vec::new(alloc);
    for entry in entries {
        copies.push(Entry {
            name: String::from_str(alloc, entry.name)?,
            is_folder: entry.is_folder,
        })?;
    }
    Ok(copies)
}

impl Disk for MemoryDisk<'_> {
    ghost may_answer = { MayAnswer };

    fn list(&self, alloc: Global, path: &str) -> Result<Vec<Entry>, DiskFault> {
        match node_at(self, path) {
            Some(DiskNode::Folder(entries)) => Ok(copies_of(alloc, entries)?),
            Some(_) => Err(DiskFault::Unreadable),
            None => Err(DiskFault::Absent),
        }
    }

    fn read(&self, alloc: Global, path: &str) -> Result<Bytes, DiskFault> {
        match node_at(self, path) {
            Some(DiskNode::File(bytes)) => Ok(Bytes::copy_of(alloc, bytes)?),
            Some(_) => Err(DiskFault::Unreadable),
            None => Err(DiskFault::Absent),
        }
    }

    fn read_own(&self, alloc: Global, path: &str, _identity: Identity) -> Result<Bytes, DiskFault> {
        self.read(alloc, path)
    }

    fn look(&self, _alloc: Global, path: &str) -> Result<Look, AllocError> {
        Ok(match node_at(self, path) {
            Some(DiskNode::Folder(_)) => Look::Folder,
            Some(DiskNode::File(_)) => Look::File,
            Some(DiskNode::Unreadable | DiskNode::Link(_)) => Look::Failed,
            None => Look::Absent,
        })
    }

    fn step(&self, alloc: Global, path: &str) -> Result<Step, AllocError> {
        Ok(match node_at(self, path) {
            Some(DiskNode::Folder(_)) => Step::Folder,
            Some(DiskNode::File(_)) => Step::File(NO_IDENTITY),
            Some(DiskNode::Unreadable) => Step::NoWay(Look::Failed),
            Some(DiskNode::Link(target)) => Step::Link(String::from_str(alloc, target)?),
            None => Step::NoWay(Look::Absent),
        })
    }
}
