//! The words of a run, with those of a file of options.
ghost use Rattle.std.specs.Prelude.{IfErr, IfOk, map, string_bytes};
ghost use Rattle.devdry_files.specs.Answers.Answer.{Content};
ghost use Rattle.devdry_gathering.specs.Ended.{EndsIn};
ghost use Rattle.devdry_gathering.specs.Words.{AreBadWords, AreWords, IsBadFile, IsMade};

use crate::gathered::Ended;
use crate::said::{cannot_read, said_of_words};
use devdry_files::{Disk, DiskFault};
use devdry_folders::Report;
use devdry_words::{options_in, with_options};
use engine_formats::masked;
use engine_sessions::{OptionsFault, read_options};
use std::alloc::Global;
use text_bytes::Bytes;

/// A file of options gives no words.
const USAGE: u8 = 2;

/// A file of options could not be read.
const FAILED: u8 = 3;

/// The bytes of the file of options at a path, which is read as it is named.
fn read_file<D: Disk>(alloc: Global, disk: &D, path: &str) -> Result<Bytes, Ended>
    ensures bytes { IfOk result (λ bytes. D.may_answer disk.now (Content path.now bytes)) }
    ensures said { IfErr result (EndsIn (IsBadFile (D.may_answer disk.now) path.now)) }
{
    match disk.read(alloc, path) {
        Ok(bytes) => Ok(bytes),
        Err(DiskFault::OutOfMemory) => Err(Ended::Memory),
        Err(_) => {
            let path = masked(Vec::from_slice(alloc, path.as_bytes())?);
            Err(Ended::Said(Report {
                lines: cannot_read(alloc, &path)?,
                least: FAILED,
            }))
        }
    }
}

/// Words with those of the file of options at a path.
fn words_with<D: Disk>(
    alloc: Global,
    disk: &D,
    path: &str,
    words: &[String],
) -> Result<Vec<String>, Ended>
    ensures words { IfOk result (λ all. IsMade (D.may_answer disk.now) path.now (map string_bytes words.now) (map string_bytes all.items)) }
    ensures said { IfErr result (EndsIn (IsBadFile (D.may_answer disk.now) path.now)) }
{
    let bytes = read_file(alloc, disk, path)?;
    match read_options(alloc, path, bytes.as_slice()) {
        Ok(added) => Ok(with_options(alloc, words, &added)?),
        Err(OptionsFault::BadLine(said)) => Err(Ended::Said(Report {
            lines: said_of_words(said.into_vec()),
            least: USAGE,
        })),
        Err(OptionsFault::Memory) => Err(Ended::Memory),
    }
}

/// All words of a run: those that are given, and if they name a file of options, the words of that file before them.
///
/// A file that can't be read is said with status 3, and one with a bad line with status 2.
pub fn all_words<D: Disk>(alloc: Global, disk: &D, words: Vec<String>) -> Result<Vec<String>, Ended>
    ensures words { IfOk result (λ all. AreWords (D.may_answer disk.now) (map string_bytes words.items) (map string_bytes all.items)) }
    ensures said { IfErr result (EndsIn (AreBadWords (D.may_answer disk.now) (map string_bytes words.items))) }
{
    match options_in(alloc, &words)? {
        None => Ok(words),
        Some(path) => words_with(alloc, disk, path, &words),
    }
}
