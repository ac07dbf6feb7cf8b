//! The calls of the system.
//!
//! This is the one place where files are opened. No contract can say what the system replies; that these are the calls
//! meant is shown by tests. So it is kept thin.
ghost use Rattle.std.specs.Fs.{IsDir, IsFile, IsSymlink, dir_entry_name, file_type};
ghost use Rattle.std.specs.IoError.{error_kind};
ghost use Rattle.std.specs.Iterator.{Drains, IsFinite};
ghost use Rattle.std.specs.declared.alloc.Global.{Global};
ghost use Rattle.std.specs.declared.fs.DirEntry.{DirEntry};
ghost use Rattle.std.specs.Prelude.{◌≡◌, ⊤, Err, IfErr, IfOk, IsOk, List, Ok, map, string_bytes};
ghost use Rattle.devdry_files.specs.Calls.{kind_by};
ghost use Rattle.devdry_files.specs.Errors.{IsNamesFault, names_fault_from};

use crate::again::{MAX_TRIES, again, is_interrupted};
use crate::disk::DiskFault;
use crate::look::Look;
use crate::step::Identity;
use crate::system::{Node, NodeKind, Opened, System};
use std::alloc::Global;
use std::fs::{self, DirEntry, File, Metadata, OpenFile, ReadDir};
use std::io;
use std::os::unix::fs::{FileTypeExt, MetadataExt};
use std::path::PathBuf;
use std::rt::Files;

/// The system that a runtime reaches.
#[derive(Drop)]
pub struct RealSystem<'r, R> {
    rt: &'r R,
}

impl<'r, R> RealSystem<'r, R> {
    /// The system that a runtime reaches.
    pub fn new(rt: &'r R) -> RealSystem<'r, R> {
        RealSystem { rt }
    }
}

/// What kind of thing the system says that something is, with the number of a character device.
fn kind_of(metadata: &Metadata, device: Option<u64>) -> NodeKind
    ensures folder { IsDir (file_type metadata.now) → result ≡ NodeKind.Folder }
    ensures file { IsFile (file_type metadata.now) → result ≡ NodeKind.File }
    ensures link { IsSymlink (file_type metadata.now) → result ≡ NodeKind.Link }
    ensures other { (IsDir (file_type metadata.now) → ⊥) → (IsFile (file_type metadata.now) → ⊥)
        → (IsSymlink (file_type metadata.now) → ⊥) → result ≡ kind_by device }
{
    if metadata.is_dir() {
        NodeKind::Folder
    } else if metadata.is_file() {
        NodeKind::File
    } else if metadata.is_symlink() {
        NodeKind::Link
    } else {
        match device {
            Some(number) => NodeKind::Device(number),
            None => NodeKind::Other,
        }
    }
}

/// What the system says of something, if it could be asked.
fn node_from(looked: io::Result<Metadata>) -> io::Result<Node>
    ensures told { IfOk looked (λ _. IsOk result) }
    ensures untold { IfErr looked (λ error. result ≡ Err error) }
{
    match looked {
        Ok(metadata) => {
            let is_device = metadata.file_type().is_char_device();
            let device = if is_device {
                Some(metadata.rdev())
            } else {
                None
            };
            Ok(Node {
                kind: kind_of(&metadata, device),
                file_system: metadata.dev(),
                number: metadata.ino(),
            })
        }
        Err(error) => Err(error),
    }
}

/// Opens what is at a path, and looks at what was opened.
fn open<R: Files>(rt: &R, path: &str) -> io::Result<Opened<R::File>> {
    let file = again(|| File::open(rt, path))?;
    let node = node_from(again(|| file.metadata()))?;
    Ok(Opened { node, file })
}

/// A listing of the folder at a path.
fn listing<R: Files + AllocGlobal + Clone + Drop>(rt: &R, path: &str) -> io::Result<ReadDir<R>> {
    for _ in 1..MAX_TRIES {
        let listing = fs::read_dir(rt, path);
        if !is_interrupted(&listing) {
            return listing;
        }
    }
    fs::read_dir(rt, path)
}

/// The names of all entries of a listing, in its order, if none of them failed.
fn names_of<R: Files + Drop, I: Iterator<Item = io::Result<DirEntry<R>>> + Drop>(
    alloc: Global,
    listing: I,
) -> io::Result<Vec<String>>
    requires can { I.can_next listing }
    requires ends { IsFinite (I.remaining listing) }
    ensures names { IfOk result (λ names. (found : List (DirEntry R Global R.File R.Dir))
        × Drains I.next_gives listing (map Ok found)
        × (map string_bytes names.items ≡ map dir_entry_name found)) }
    ensures fault { IfErr result (IsNamesFault I.next_gives listing) }
{
    let mut names = Vec::new(alloc);
    for found in listing {
        names.push(String::from_str(alloc, found?.file_name())?)?;
    }
    Ok(names)
}

/// Why the names in a folder that was opened could not be read.
fn names_fault(error: io::Error) -> DiskFault
    ensures { result ≡ names_fault_from (error_kind error) }
{
    match error.kind() {
        io::ErrorKind::InvalidFilename => DiskFault::NotUtf8,
        _ => DiskFault::from(error),
    }
}

impl<R: Files + AllocGlobal + Clone + Drop> System for RealSystem<'_, R> {
    ghost may_reply = { λ _ _. ⊤ };

    type File = R::File;

    fn names(&self, alloc: Global, path: &str) -> Result<Vec<String>, DiskFault> {
        for _ in 0..MAX_TRIES {
            let names = names_of(alloc, listing(self.rt, path)?);
            if !is_interrupted(&names) {
                return names.map_err(names_fault);
            }
        }
        Err(DiskFault::Unreadable)
    }

    fn look(&self, path: &str) -> io::Result<Node> {
        node_from(again(|| fs::metadata(self.rt, path)))
    }

    fn look_last(&self, path: &str) -> io::Result<Node> {
        node_from(again(|| fs::symlink_metadata(self.rt, path)))
    }

    fn link(&self, path: &str) -> io::Result<PathBuf> {
        again(|| fs::read_link(self.rt, path))
    }

    fn open(&self, path: &str, _seen: Look) -> io::Result<Opened<R::File>> {
        open(self.rt, path)
    }

    fn open_own(&self, path: &str, _identity: Identity) -> io::Result<Opened<R::File>> {
        open(self.rt, path)
    }
}
