//! The disk of a runtime whose files give little, are interrupted, and fail at their end or not.

use devdry_files::{Disk, DiskFault, RealDisk, RealSystem};
use std::alloc::Allocator;
use std::fs::{Files, Metadata, OpenFile, OpenOptions};
use std::io::{self, Empty, Read, Seek, SeekFrom, Write};
use std::test::Fail;

/// What is never asked for when a disk reads a file.
fn unsupported<T>() -> io::Result<T> {
    Err(io::Error::from(io::ErrorKind::Unsupported))
}

/// A file that gives one byte in a call, is interrupted before each, and fails at its end or not.
#[derive(Drop)]
struct SlowFile {
    left: u32,
    is_interrupted: bool,
    fails: bool,
}

impl Read for SlowFile {
    fn read(&mut self, into: &mut [u8]) -> io::Result<usize> {
        self.is_interrupted = !self.is_interrupted;
        if self.is_interrupted {
            return Err(io::Error::from(io::ErrorKind::Interrupted));
        }
        if self.left == 0 && self.fails {
            return Err(io::Error::from(io::ErrorKind::TimedOut));
        }
        match into.first_mut() {
            Some(first) if self.left > 0 => {
                self.left -= 1;
                *first = b'x';
                Ok(1)
            }
            _ => Ok(0),
        }
    }
}

impl Write for SlowFile {
    fn write(&mut self, _text: &[u8]) -> io::Result<usize> {
        Err(io::Error::from(io::ErrorKind::Unsupported))
    }

    fn flush(&mut self) -> io::Result<()> {
        unsupported()
    }
}

impl Seek for SlowFile {
    fn seek(&mut self, _to: SeekFrom) -> io::Result<u64> {
        unsupported()
    }
}

impl OpenFile for SlowFile {
    fn metadata(&self) -> io::Result<Metadata> {
        Ok(Metadata::of_file(100_000))
    }

    fn set_len(&self, _size: u64) -> io::Result<()> {
        unsupported()
    }

    fn sync_all(&self) -> io::Result<()> {
        unsupported()
    }

    fn sync_data(&self) -> io::Result<()> {
        unsupported()
    }
}

/// A runtime with such a file of 100,000 bytes at each path.
#[derive(Clone, Copy)]
struct SlowFiles {
    fails: bool,
}

impl Files for SlowFiles {
    type File = SlowFile;

    type Dir = Empty;

    fn open_file(&self, _how: &OpenOptions, _path: &str) -> io::Result<SlowFile> {
        Ok(SlowFile {
            left: 100_000,
            is_interrupted: false,
            fails: self.fails,
        })
    }

    fn open_dir(&self, _path: &str) -> io::Result<Empty> {
        unsupported()
    }

    fn metadata(&self, _path: &str) -> io::Result<Metadata> {
        unsupported()
    }

    fn symlink_metadata(&self, _path: &str) -> io::Result<Metadata> {
        unsupported()
    }

    fn copy(&self, _from: &str, _to: &str) -> io::Result<u64> {
        unsupported()
    }

    fn rename(&self, _from: &str, _to: &str) -> io::Result<()> {
        unsupported()
    }

    fn remove_file(&self, _path: &str) -> io::Result<()> {
        unsupported()
    }

    fn create_dir(&self, _path: &str) -> io::Result<()> {
        unsupported()
    }

    fn remove_dir(&self, _path: &str) -> io::Result<()> {
        unsupported()
    }

    fn remove_dir_all<B: Allocator>(&self, _alloc: B, _path: &str) -> io::Result<()> {
        unsupported()
    }
}

#[test]
fn reads_to_the_end(rt: HostRuntime) -> Result<(), Fail> {
    for fails in [false, true] {
        let runtime = (SlowFiles { fails }, rt.alloc());
        match RealDisk::new(RealSystem::new(&runtime)).read(rt.alloc(), "a") {
            Ok(bytes) => assert!(rt; !fails && bytes.as_slice().len() == 100_000),
            Err(fault) => assert!(rt; fails && fault == DiskFault::Unreadable),
        }
    }
    Ok(())
}
