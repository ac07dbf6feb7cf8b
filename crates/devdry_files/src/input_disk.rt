//! A disk on which an input is a file.
ghost use Rattle.std.specs.Prelude.{◌≡◌};
ghost use Rattle.devdry_files.specs.Beside.{MayBeside};

use crate::disk::{Disk, DiskFault, Entry};
use crate::look::Look;
use crate::step::{Identity, Step};
use std::alloc::{AllocError, Global};
use text_bytes::Bytes;

/// A disk, and beside what is on it a file with the bytes of an input. What the disk itself has at the path of that file
/// is not looked at.
#[derive(Drop)]
pub struct InputDisk<'d, 'a, D> {
    disk: &'d D,
    path: &'a str,
    bytes: &'d Bytes,
}

impl<'d, 'a, D> InputDisk<'d, 'a, D> {
    /// A disk with a file of these bytes at a path.
    pub fn new(disk: &'d D, path: &'a str, bytes: &'d Bytes) -> InputDisk<'d, 'a, D>
        ensures disk { result.disk.now ≡ disk.now }
        ensures path { result.path.now ≡ path.entry.now }
        ensures bytes { result.bytes.now ≡ bytes.now }
    {
        InputDisk { disk, path, bytes }
    }
}

impl<D: Disk> Disk for InputDisk<'_, '_, D> {
    ghost may_answer = { λ this. MayBeside (D.may_answer this.disk.now) this.path.now this.bytes.now };

    fn list(&self, alloc: Global, path: &str) -> Result<Vec<Entry>, DiskFault> {
        self.disk.list(alloc, path)
    }

    fn read(&self, alloc: Global, path: &str) -> Result<Bytes, DiskFault> {
        if path == self.path {
            Ok(Bytes::copy_of(alloc, self.bytes.as_slice())?)
        } else {
            self.disk.read(alloc, path)
        }
    }

    fn read_own(&self, alloc: Global, path: &str, identity: Identity) -> Result<Bytes, DiskFault> {
        self.disk.read_own(alloc, path, identity)
    }

    fn look(&self, alloc: Global, path: &str) -> Result<Look, AllocError> {
        if path == self.path {
            Ok(Look::File)
        } else {
            self.disk.look(alloc, path)
        }
    }

    fn step(&self, alloc: Global, path: &str) -> Result<Step, AllocError> {
        self.disk.step(alloc, path)
    }
}
