//! The ends of lines as udev reads them, and files of which it reads nothing.
ghost use Rattle.std.specs.Prelude.{◌≡◌, ◌≤◌, IfOk, map};
ghost use Rattle.rule_core.specs.Ends.{abandoned, as_read, end_size, file_as_read, is_too_long, more_size, nul_size};

use std::alloc::{AllocError, Global};
use text_bytes::{Bytes, Lines, Profile, SourceFile, capped};

/// The most bytes of a line that udev reads: it gives up the file of a longer one.
pub(crate) const MAX_UDEV_BYTES: usize = 16_383;

/// Files as they are read: for udev with the ends of their lines as `read_ends` has them, by the
/// manual as they are.
pub fn files_as_read(
    alloc: Global,
    profile: Profile,
    files: Vec<SourceFile>,
) -> Result<Vec<SourceFile>, AllocError>
    ensures { IfOk result (λ read. read.items ≡ map (file_as_read profile) files.items) }
{
    let mut read = Vec::with_capacity(alloc, files.len())?;
    for file in files {
        read.push(file_as_read(alloc, profile, file)?)?;
    }
    Ok(read)
}

/// A file as it is read by a profile: for udev with each end of a line as one newline.
pub fn file_as_read(
    alloc: Global,
    profile: Profile,
    file: SourceFile,
) -> Result<SourceFile, AllocError>
    ensures { IfOk result (λ read. read ≡ file_as_read profile file) }
{
    match profile {
        Profile::Manual => Ok(file),
        Profile::Udev => {
            let SourceFile {
                kind,
                rank,
                name,
                bytes,
            } = file;
            let bytes = Bytes::new(read_ends(alloc, bytes.as_slice())?);
            Ok(SourceFile {
                kind,
                rank,
                name,
                bytes,
            })
        }
    }
}

/// The bytes of a file with each end of a line written as one newline, as udev reads it.
///
/// An end is a newline, a carriage return or both in either order, each perhaps with one NUL after it, or one NUL
/// alone; of several that fit at a place, the longest counts. A file that was read in this way is left as it is.
#[tactic(auto, using(crate::proofs::Passing::started, crate::proofs::Passing::passed_one, crate::proofs::Passing::byte_read, crate::proofs::Passing::all_read))]
pub(crate) fn read_ends(alloc: Global, bytes: &[u8]) -> Result<Vec<u8>, AllocError>
    ensures { IfOk result (λ read. read.items ≡ as_read bytes.now) }
{
    let mut read = Vec::with_capacity(alloc, bytes.len())?;
    let mut passed = 0usize;
    let mut rest = bytes;
    while let Some((byte, following)) = rest.split_first() {
        if passed > 0 {
            passed -= 1;
        } else {
            let size = end_size(rest);
            read.push(if size == 0 { *byte } else { b'\n' })?;
            passed = size.saturating_sub(1);
        }
        rest = following;
    }
    Ok(read)
}

/// The size of the end of a line with which a text begins, 0 if it begins with none.
fn end_size(text: &[u8]) -> usize
    ensures { result ≡ end_size text.now }
{
    match text.split_first() {
        None => 0,
        Some((b'\n', following)) => 1 + more_size(b'\r', following),
        Some((b'\r', following)) => 1 + more_size(b'\n', following),
        Some(_) => nul_size(text),
    }
}

/// How many bytes go on with an end of a line after its first byte: perhaps the other one of newline and carriage
/// return, and perhaps a NUL.
fn more_size(other: u8, text: &[u8]) -> usize
    ensures value { result ≡ more_size other text.now }
    ensures small { result ≤ 2 }
{
    match text.split_first() {
        Some((byte, following)) if *byte == other => 1 + nul_size(following),
        _ => nul_size(text),
    }
}

/// How many bytes of a NUL a text begins with: 1 or none.
fn nul_size(text: &[u8]) -> usize
    ensures value { result ≡ nul_size text.now }
    ensures small { result ≤ 1 }
{
    match text.first() {
        Some(0) => 1,
        _ => 0,
    }
}

/// The number of the line because of which udev gives a file up: the first of 16,384 bytes or more, its end not
/// counted. By the manual no file is given up.
pub fn abandoned_at(profile: Profile, bytes: &[u8]) -> Option<u32>
    ensures { result ≡ abandoned profile bytes.now }
{
    match profile {
        Profile::Manual => None,
        Profile::Udev => {
            for line in Lines::new(bytes) {
                if is_too_long(line.text()) {
                    return Some(capped(line.number()));
                }
            }
            None
        }
    }
}

/// Whether a line has 16,384 bytes or more, its end not counted.
pub fn is_too_long(text: &[u8]) -> bool
    ensures { result ≡ is_too_long text.now }
{
    text.len() > MAX_UDEV_BYTES
}
