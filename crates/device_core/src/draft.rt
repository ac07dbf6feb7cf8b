//! The lines so far, and what one more line does to them.
//!
//! The device that lines are added to is kept apart from those above it, so that it changes in place. A command
//! waits for its answer, which is the next line. The last answer is kept apart as well, as lines may be added to it.
ghost use Rattle.std.specs.Prelude.{◌≡◌, ◌++◌, option_map, length, OnOk, Some, Ok};
ghost use Rattle.std.specs.Option.{option_to_list};
ghost use Rattle.device_core.specs.Steps.{Gives, if_ok, above_step, path_step, device_step, command_step, answer_step, output_step};
ghost use Rattle.device_core.specs.Steps.{row_step, sofar, nothing_read, with_pending};

use crate::behind::{Behind, nothing_behind};
use crate::devices::Device;
use crate::faults::BlockFaultKind;
use crate::fields::{add_field, add_pair, bare_device};
use crate::lines::{DeviceField, LineKind};
use crate::parts::{answer_of, is_device_path, is_parent_path};
use crate::programs::ProgramAnswer;
use std::alloc::{AllocError, Global};
use text_tables::{Pairs, Table};

/// The most devices that may be above the last: 64 in all.
const MAX_ABOVE_LAST: usize = 63;

/// The lines so far, after the first.
#[derive(Drop)]
pub(crate) struct Draft<'a> {
    pub(crate) closed: Vec<Device<'a>>,
    pub(crate) last: Option<Device<'a>>,
    pub(crate) programs: Table<'a, ProgramAnswer<'a>>,
    pub(crate) pending: Option<(&'a [u8], ProgramAnswer<'a>)>,
    pub(crate) asked: Option<&'a [u8]>,
    pub(crate) constants: Pairs<'a>,
    pub(crate) behind: Behind<'a>,
}

/// No line so far.
pub(crate) fn new_draft<'a>(alloc: Global) -> Draft<'a>
    ensures { sofar result ≡ nothing_read }
{
    Draft {
        closed: Vec::new(alloc),
        last: None,
        programs: Table::new(alloc),
        pending: None,
        asked: None,
        constants: Pairs::new(alloc),
        behind: nothing_behind(),
    }
}

/// A line about the device above, if there is one.
#[tactic(auto, unfolding(crate::specs::Steps::above_step))]
fn add_to_last<'a>(
    last: &mut Option<Device<'a>>,
    field: DeviceField,
    rest: &'a [u8],
) -> Result<(), BlockFaultKind>
    ensures { Gives (λ _. last.new) result (if_ok Some (above_step last.old field rest.now)) }
{
    match last {
        Some(device) => add_field(device, field, rest),
        None => Err(BlockFaultKind::NoDevice),
    }
}

/// Whether a device may begin below these.
#[tactic(auto, unfolding(crate::specs::Steps::path_step))]
fn check_path(closed: usize, last: &Option<Device<'_>>, path: &[u8]) -> Result<(), BlockFaultKind>
    ensures { Gives (λ _. tt) result (path_step closed last.now path.now) }
{
    let Some(above) = last else {
        if is_device_path(path) {
            return Ok(());
        }
        return Err(BlockFaultKind::Path);
    };
    if closed >= MAX_ABOVE_LAST {
        return Err(BlockFaultKind::TooDeep);
    }
    if !is_parent_path(above.path, path) {
        return Err(BlockFaultKind::Path);
    }
    Ok(())
}

/// The device that was the last so far joins those above.
pub(crate) fn close_last<'a>(
    closed: &mut Vec<Device<'a>>,
    last: Option<Device<'a>>,
) -> Result<(), BlockFaultKind>
    ensures { Gives (λ _. closed.new.items) result (Ok (closed.old.items ++ option_to_list last.entry)) }
{
    if let Some(device) = last {
        closed.push(device)?;
    }
    Ok(())
}

/// A device begins.
#[tactic(auto, unfolding(crate::specs::Steps::device_step))]
fn begin_device<'a>(
    alloc: Global,
    draft: &mut Draft<'a>,
    path: &'a [u8],
) -> Result<(), BlockFaultKind>
    ensures { Gives (λ _. sofar draft.new) result (device_step (sofar draft.old) path.now) }
{
    check_path(draft.closed.len(), &draft.last, path)?;
    let last = draft.last.replace(bare_device(alloc, path));
    close_last(&mut draft.closed, last)
}

/// A command; `answered` says whether its answer follows.
#[tactic(auto, unfolding(crate::specs::Steps::command_step))]
fn check_command<'a>(
    programs: &Table<'a, ProgramAnswer<'a>>,
    rest: &'a [u8],
    answered: bool,
) -> Result<&'a [u8], BlockFaultKind>
    ensures { Gives (λ t. t.now) result (command_step programs.now rest.now answered) }
{
    if rest.is_empty() {
        return Err(BlockFaultKind::Pair);
    }
    if !answered {
        return Err(BlockFaultKind::Pair);
    }
    if programs.contains(rest) {
        return Err(BlockFaultKind::Twice);
    }
    Ok(rest)
}

/// An answer joins the others.
pub(crate) fn settle<'a>(
    programs: &mut Table<'a, ProgramAnswer<'a>>,
    pending: Option<(&'a [u8], ProgramAnswer<'a>)>,
) -> Result<(), AllocError>
    ensures { OnOk result (programs.new ≡ with_pending programs.old (option_map (λ p. (p.0.now, p.1)) pending.entry)) }
{
    if let Some((command, answer)) = pending {
        programs.add(command, answer)?;
    }
    Ok(())
}

/// The answer to a command, with it.
#[tactic(auto, unfolding(crate::specs::Steps::answer_step))]
fn answered<'a>(
    asked: Option<&'a [u8]>,
    rest: &'a [u8],
) -> Result<(&'a [u8], ProgramAnswer<'a>), BlockFaultKind>
    ensures { Gives (λ p. (p.0.now, p.1)) result (answer_step (option_map (λ t. t.now) asked.entry) rest.now) }
{
    let Some(command) = asked else {
        return Err(BlockFaultKind::Pair);
    };
    let Some(answer) = answer_of(rest) else {
        return Err(BlockFaultKind::Number);
    };
    Ok((command, answer))
}

/// One more line of the answer above, with its command.
#[tactic(auto, unfolding(crate::specs::Steps::output_step))]
fn continued<'a>(
    alloc: Global,
    pending: Option<(&'a [u8], ProgramAnswer<'a>)>,
    rest: &[u8],
) -> Result<(&'a [u8], ProgramAnswer<'a>), BlockFaultKind>
    ensures { Gives (λ p. (p.0.now, p.1)) result (output_step (option_map (λ p. (p.0.now, p.1)) pending.entry) rest.now) }
{
    let Some((command, answer)) = pending else {
        return Err(BlockFaultKind::Pair);
    };
    let answer = answer.with_line(alloc, rest)?;
    Ok((command, answer))
}

/// A line that is not the first; `is_answered` says whether an answer follows it.
#[tactic(auto, unfolding(crate::specs::Steps::row_step))]
pub(crate) fn add_row<'a>(
    alloc: Global,
    draft: &mut Draft<'a>,
    kind: LineKind,
    rest: &'a [u8],
    is_answered: bool,
) -> Result<(), BlockFaultKind>
    ensures { Gives (λ _. sofar draft.new) result (row_step (sofar draft.old) kind rest.now is_answered) }
{
    let asked = draft.asked.take();
    if !matches!(kind, LineKind::Output) {
        settle(&mut draft.programs, draft.pending.take())?;
    }
    match kind {
        LineKind::Action if rest.is_empty() => Err(BlockFaultKind::Pair),
        LineKind::Action => Err(BlockFaultKind::Twice),
        LineKind::Device => begin_device(alloc, draft, rest),
        LineKind::Field(field) => add_to_last(&mut draft.last, field, rest),
        LineKind::Constant => add_pair(&mut draft.constants, rest),
        LineKind::Command => {
            draft.asked = Some(check_command(&draft.programs, rest, is_answered)?);
            Ok(())
        }
        LineKind::Answer => {
            draft.pending = Some(answered(asked, rest)?);
            Ok(())
        }
        LineKind::Output => {
            draft.pending = Some(continued(alloc, draft.pending.take(), rest)?);
            Ok(())
        }
    }
}
