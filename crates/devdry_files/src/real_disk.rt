//! The disk of the system: which calls it makes for an answer, and what it makes of the replies.
ghost use Rattle.std.specs.IoError.{error_kind};
ghost use Rattle.std.specs.List.{AllZip};
ghost use Rattle.std.specs.Prelude.{◌≡◌, ◌⊎◌, IfErr, IfOk, IfSome, map, string_bytes, true};
ghost use Rattle.devdry_files.specs.Calls.{IsEntrySeen, MayBySystem, seen_folder};
ghost use Rattle.devdry_files.specs.Errors.{is_refused, read_fault_from};
ghost use Rattle.devdry_files.specs.declared.disk.DiskFault.TheVariants.{OutOfMemory, Unreadable};

use crate::disk::{Disk, DiskFault, Entry};
use crate::look::Look;
use crate::places::path_in;
use crate::real_looks::{look_at, seen_at, shown_by};
use crate::real_steps::{is_own, step_at};
use crate::step::{Identity, Step};
use crate::system::{Node, NodeKind, System};
use std::alloc::{AllocError, Global};
use std::io::{self, Read};
use text_bytes::{Bytes, FileKind};

/// The disk that a system shows.
#[derive(Drop)]
pub struct RealDisk<S> {
    system: S,
}

impl<S> RealDisk<S> {
    /// The disk that a system shows.
    pub fn new(system: S) -> RealDisk<S>
        ensures { result.system ≡ system }
    {
        RealDisk { system }
    }
}

/// Whether there is a folder, by the system's reply to a look. What can't be looked at is not one, so that reading it says
/// why; but running out of memory in the look itself is reported.
fn is_folder_by(reply: io::Result<Node>) -> Result<bool, DiskFault>
    ensures { result ≡ seen_folder reply }
{
    match reply {
        Ok(node) => Ok(matches!(node.kind, NodeKind::Folder)),
        Err(error) => match error.kind() {
            io::ErrorKind::OutOfMemory => Err(DiskFault::OutOfMemory),
            _ => Ok(false),
        },
    }
}

/// An entry of the folder at a path, looked at: a symlink to a folder is one.
fn entry_at<S: System>(
    alloc: Global,
    system: &S,
    folder: &str,
    name: &str,
) -> Result<Entry, DiskFault>
    ensures { IfOk result (IsEntrySeen (S.may_reply system.now) folder.now name.now) }
{
    let path = path_in(alloc, folder, name)?;
    Ok(Entry {
        name: String::from_str(alloc, name)?,
        is_folder: is_folder_by(system.look(path.as_str()))?,
    })
}

/// The entries of the folder at a path, by their names.
fn entries_at<S: System>(
    alloc: Global,
    system: &S,
    folder: &str,
    names: &[String],
) -> Result<Vec<Entry>, DiskFault>
    ensures { IfOk result (λ entries. AllZip (IsEntrySeen (S.may_reply system.now) folder.now)
        (map string_bytes names.now) entries.items) }
{
    let mut entries = Vec::new(alloc);
    for name in names {
        entries.push(entry_at(alloc, system, folder, name.as_str())?)?;
    }
    Ok(entries)
}

/// Why a file that was opened could not be read.
fn read_fault(error: io::Error) -> DiskFault
    ensures { result ≡ read_fault_from (error_kind error) }
{
    match error.kind() {
        io::ErrorKind::OutOfMemory => DiskFault::OutOfMemory,
        _ => DiskFault::Unreadable,
    }
}

/// The bytes of a file that was opened, if it is one that is to be read.
fn bytes_if<F: Read + Drop>(alloc: Global, is_read: bool, mut file: F) -> Result<Bytes, DiskFault>
    ensures bytes { IfOk result (λ read. (is_read ≡ true) × IfSome (F.remaining file) (λ bytes. read ≡ bytes)) }
    ensures fault { IfErr result (λ fault. (fault ≡ Unreadable) ⊎ (fault ≡ OutOfMemory)) }
{
    if !is_read {
        return Err(DiskFault::Unreadable);
    }
    let mut bytes = Vec::new(alloc);
    match file.read_to_end(&mut bytes) {
        Ok(_) => Ok(Bytes::new(bytes)),
        Err(error) => Err(read_fault(error)),
    }
}

/// Whether what a look shows at a path is not opened: a FIFO, which would be waited for, or a device, at a path that ends like
/// the names of rules or of database files, or at that of the standard input.
fn is_refused(look: Look, path: &str) -> bool
    ensures { result ≡ is_refused look path.now }
{
    let bytes = path.as_bytes();
    match look {
        Look::Other => {
            bytes.ends_with(FileKind::Rules.suffix().as_bytes())
                || bytes.ends_with(FileKind::Hwdb.suffix().as_bytes())
                || path == "/dev/stdin"
        }
        _ => false,
    }
}

impl<S: System> Disk for RealDisk<S> {
    ghost may_answer = { λ this. MayBySystem (S.may_reply this.system) };

    fn list(&self, alloc: Global, path: &str) -> Result<Vec<Entry>, DiskFault> {
        let names = self.system.names(alloc, path)?;
        entries_at(alloc, &self.system, path, &names)
    }

    fn read(&self, alloc: Global, path: &str) -> Result<Bytes, DiskFault> {
        let seen = seen_at(&self.system, path)?;
        if is_refused(seen, path) {
            return Err(DiskFault::Unreadable);
        }
        let opened = self.system.open(path, seen)?;
        let is_read = !is_refused(shown_by(opened.node.kind), path);
        bytes_if(alloc, is_read, opened.file)
    }

    fn read_own(&self, alloc: Global, path: &str, identity: Identity) -> Result<Bytes, DiskFault> {
        let opened = self.system.open_own(path, identity)?;
        let is_read = is_own(&opened.node, identity);
        bytes_if(alloc, is_read, opened.file)
    }

    fn look(&self, _alloc: Global, path: &str) -> Result<Look, AllocError> {
        look_at(&self.system, path)
    }

    fn step(&self, _alloc: Global, path: &str) -> Result<Step, AllocError> {
        step_at(&self.system, path)
    }
}
