//! Reads what lines ask for.
ghost use Rattle.std.specs.Prelude.{◌≡◌, Bool, IfErr, IfOk, MatchBool, None, false, true};
ghost use Rattle.devdry_files.specs.Faults.{HasPath, IsFaultyIndex};
ghost use Rattle.devdry_files.specs.Found.{IsIndexWanted};
ghost use Rattle.devdry_gathering.specs.Ended.{EndsIn};
ghost use Rattle.devdry_gathering.specs.Reading.{IsAllRead, IsFaulty, IsOneUnread, IsRead, IsSomeRead, IsUnread};

use crate::gathered::{Ended, nothing};
use crate::said::said_of;
use devdry_files::{Disk, ReadFault, Wanted, read_all, read_index, wanted};
use devdry_folders::{ReadSome, Report, read_files_that_can, read_what_can, report_on_files};
use engine_sessions::Line;
use std::alloc::{AllocError, Global};
use text_bytes::Bytes;

/// A file or a folder could not be read.
const FAILED: u8 = 3;

/// Reads what can be read of what a line asks for.
fn read_some<D: Disk>(
    alloc: Global,
    disk: &D,
    takes_index: bool,
    line: &Line<'_>,
) -> Result<ReadSome, AllocError>
    ensures { IfOk result (IsSomeRead (D.may_answer disk.now) takes_index line.now) }
{
    if takes_index {
        read_what_can(alloc, disk, line)
    } else {
        read_files_that_can(alloc, disk, line)
    }
}

/// Reads the index that is wanted, if it is taken.
fn read_taken<D: Disk>(
    alloc: Global,
    disk: &D,
    takes_index: bool,
    wanted: &Wanted<'_, '_>,
) -> Result<Option<Bytes>, ReadFault>
    ensures index { IfOk result (λ index. MatchBool takes_index (IsIndexWanted (D.may_answer disk.now) wanted.now index) (index ≡ None)) }
    ensures fault { IfErr result (HasPath (λ path. (takes_index ≡ true) × IsFaultyIndex (D.may_answer disk.now) wanted.now path)) }
{
    if takes_index {
        read_index(alloc, disk, wanted)
    } else {
        Ok(None)
    }
}

/// Reads all that a line asks for, the index last.
fn read_wanted<D: Disk>(
    alloc: Global,
    disk: &D,
    takes_index: bool,
    line: &Line<'_>,
) -> Result<ReadSome, ReadFault>
    ensures read { IfOk result (IsAllRead (D.may_answer disk.now) takes_index false line.now) }
    ensures fault { IfErr result (HasPath (IsFaulty (D.may_answer disk.now) takes_index line.now)) }
{
    let wanted = wanted(alloc, line)?;
    let files = read_all(alloc, disk, &wanted)?;
    let index = read_taken(alloc, disk, takes_index, &wanted)?;
    Ok(ReadSome {
        files,
        index,
        report: nothing(alloc),
    })
}

/// Reads what a line asks for, or with `--all` what can be read of that; its index only if that is taken. Without `--all` the
/// first thing that can't be read is said.
pub(crate) fn read<D: Disk>(
    alloc: Global,
    disk: &D,
    takes_index: bool,
    line: &Line<'_>,
) -> Result<ReadSome, Ended>
    ensures read { IfOk result (IsRead (D.may_answer disk.now) takes_index false line.now) }
    ensures said { IfErr result (EndsIn (IsUnread (D.may_answer disk.now) takes_index line.now)) }
{
    if line.all {
        return Ok(read_some(alloc, disk, takes_index, line)?);
    }
    match read_wanted(alloc, disk, takes_index, line) {
        Ok(read) => Ok(read),
        Err(ReadFault::Path(path)) => Err(Ended::Said(Report {
            lines: said_of(alloc, disk, line, path.as_str())?,
            least: FAILED,
        })),
        Err(ReadFault::Memory) => Err(Ended::Memory),
    }
}

/// What was read for a side of `compare`, with what is reported on that.
fn reported<D: Disk>(
    alloc: Global,
    disk: &D,
    line: &Line<'_>,
    mut read: ReadSome,
) -> Result<ReadSome, AllocError>
    ensures { IfOk result (λ side. (takes_index : Bool) → IsRead (D.may_answer disk.now) takes_index false line.now read
        → IsRead (D.may_answer disk.now) takes_index true line.now side) }
{
    if line.all {
        return Ok(read);
    }
    read.report = report_on_files(alloc, disk, line, &read.files)?;
    Ok(read)
}

/// Reads what the old line of `compare` asks for, then what the new one does, and last the index of both.
pub(crate) fn read_both<D: Disk>(
    alloc: Global,
    disk: &D,
    old: &Line<'_>,
    new: &Line<'_>,
) -> Result<(ReadSome, ReadSome), Ended>
    ensures old { IfOk result (λ both. IsRead (D.may_answer disk.now) false true old.now both.0) }
    ensures new { IfOk result (λ both. IsRead (D.may_answer disk.now) true true new.now both.1) }
    ensures said { IfErr result (EndsIn (IsOneUnread (D.may_answer disk.now) old.now new.now)) }
{
    let old_read = read(alloc, disk, false, old)?;
    let new_read = read(alloc, disk, true, new)?;
    let old_read = reported(alloc, disk, old, old_read)?;
    let new_read = reported(alloc, disk, new, new_read)?;
    Ok((old_read, new_read))
}
