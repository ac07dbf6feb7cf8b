//! What is at a path inside a root: each name before the last is followed, the last is not.
ghost use Rattle.std.specs.Prelude.{IfOk, map, string_bytes};
ghost use Rattle.devdry_files.specs.Inside.{StepsAt, StepsBelow, StepsPast};

use crate::disk::Disk;
use crate::look::Look;
use crate::step::{End, Step};
use crate::walking::{is_here, is_up, lead, names_of, path_of};
use std::alloc::{AllocError, Global};
use std::collections::VecDeque;

/// What is at a name in what a way leads to.
fn step_at<D: Disk>(
    alloc: Global,
    disk: &D,
    root: &str,
    way: &[String],
    end: End,
    name: &str,
) -> Result<Step, AllocError>
    ensures { IfOk result (StepsAt (D.may_answer disk.now) root.now (map string_bytes way.now) name.now end) }
{
    match end {
        End::Folder if is_here(name) || is_up(name) => Ok(Step::Folder),
        End::Folder => {
            let path = path_of(alloc, root, way, name)?;
            disk.step(alloc, path.as_str())
        }
        End::NoWay(look) => Ok(Step::NoWay(look)),
        End::File(_) | End::Null | End::OddLink => Ok(Step::NoWay(Look::Other)),
    }
}

/// What is at a name after others from the root, which are followed.
fn step_past<D: Disk>(
    alloc: Global,
    disk: &D,
    root: &str,
    front: VecDeque<String>,
    name: &str,
) -> Result<Step, AllocError>
    ensures { IfOk result (StepsPast (D.may_answer disk.now) root.now (map string_bytes front.items) name.now) }
{
    let mut way = Vec::new(alloc);
    let end = lead(alloc, disk, root, &mut way, front)?;
    step_at(alloc, disk, root, &way, end, name)
}

/// What is at the last name of what follows the root, with all names before it followed.
pub(crate) fn step_after<D: Disk>(
    alloc: Global,
    disk: &D,
    root: &str,
    rest: &str,
) -> Result<Step, AllocError>
    ensures { IfOk result (StepsBelow (D.may_answer disk.now) root.now rest.now) }
{
    let mut names = names_of(alloc, rest)?;
    match names.pop_back() {
        Some(name) => step_past(alloc, disk, root, names, name.as_str()),
        None => Ok(Step::Folder),
    }
}
