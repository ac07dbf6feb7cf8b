//! A whole block: its lines one after another, and the event at the end.
ghost use Rattle.std.specs.Prelude.{◌≡◌, ◌≢◌, ◌∷◌, ◌++◌, ◌+◌, ◌<◌, ◌≤◌, false, length, Ok, Err, IfOk, IfErr, nat_eq};
ghost use Rattle.std.specs.Option.{option_to_list};
ghost use Rattle.text_bytes.specs.Lines.{lines};
ghost use Rattle.device_core.specs.Values.{most_devices};
ghost use Rattle.device_core.specs.Lines.{begins_answer};
ghost use Rattle.device_core.specs.RunBlocks.{line_of_excess, most_bytes};
ghost use Rattle.device_core.specs.Faults.{block_gives, has_nul};
ghost use Rattle.device_core.specs.Steps.{Gives, GivesAt, HaveNoNul, sofar, nothing_read, first_step};
ghost use Rattle.device_core.specs.Steps.{line_step, steps, some_devices, finished_event, read_lines};

use crate::devices::Device;
use crate::draft::{Draft, add_row, close_last, new_draft, settle};
use crate::events::Event;
use crate::faults::{BlockFault, BlockFaultKind};
use crate::lines::{LineKind, has_nul, plain_row};
use std::alloc::Global;
use text_bytes::{Profile, first_line};

/// The most bytes of a block.
pub(crate) const MAX_BYTES: usize = 65_536;

/// Whether the next line begins as an answer does.
#[tactic(auto, using(crate::proofs::LineLemmas::begins_answer_is))]
fn begins_answer(below: &[u8]) -> bool
    ensures { result ≡ begins_answer (lines below.now) }
{
    below.starts_with(b"R: ")
}

/// The action of the first line.
#[tactic(auto, unfolding(crate::specs::Steps::first_step))]
fn action_in(line: &[u8], may_have_nul: bool) -> Result<&[u8], BlockFaultKind>
    requires { may_have_nul ≡ false → has_nul line.now ≡ false }
    ensures { Gives (λ t. t.now) result (first_step line.now) }
{
    let (kind, rest) = plain_row(line, may_have_nul)?;
    match kind {
        LineKind::Action => {
            if rest.is_empty() {
                return Err(BlockFaultKind::NoAction);
            }
            Ok(rest)
        }
        LineKind::Answer => Err(BlockFaultKind::Pair),
        _ => Err(BlockFaultKind::NoAction),
    }
}

/// A line that is not the first, and what is below it.
#[tactic(auto, unfolding(crate::specs::Steps::line_step))]
fn add_line<'a>(
    alloc: Global,
    draft: &mut Draft<'a>,
    line: &'a [u8],
    below: &[u8],
    may_have_nul: bool,
) -> Result<(), BlockFaultKind>
    requires { may_have_nul ≡ false → has_nul line.now ≡ false }
    ensures { Gives (λ _. sofar draft.new) result (line_step (sofar draft.old) line.now (begins_answer (lines below.now))) }
{
    let (kind, rest) = plain_row(line, may_have_nul)?;
    let behind = draft.behind.after(kind, rest);
    add_row(alloc, draft, kind, rest, begins_answer(below))?;
    draft.behind = behind;
    Ok(())
}

/// The lines after the first, and how many lines there are in all.
fn read_rest<'a>(
    alloc: Global,
    text: &'a [u8],
    may_have_nul: bool,
) -> Result<(Draft<'a>, usize), BlockFault>
    requires short { length text.now ≤ most_bytes }
    requires plain { may_have_nul ≡ false → HaveNoNul (lines text.now) }
    ensures value { GivesAt (λ p. (sofar p.0, p.1)) result (steps nothing_read 1 (lines text.now)) }
    ensures few { IfOk result (λ p. length p.0.closed.items < most_devices) }
{
    let mut draft = new_draft(alloc);
    let mut rest = text;
    let mut above = 1usize;
    while !rest.is_empty() {
        let (line, below) = first_line(rest);
        match add_line(alloc, &mut draft, line, below, may_have_nul) {
            Ok(()) => {}
            Err(kind) => {
                drop(draft);
                return Err(BlockFault {
                    line: above + 1,
                    kind,
                });
            }
        }
        rest = below;
        above += 1;
    }
    Ok((draft, above))
}

/// The event's device, taken out of those of its chain.
fn take_first<'a>(
    devices: &mut Vec<Device<'a>>,
    last: Option<Device<'a>>,
) -> Result<Device<'a>, BlockFaultKind>
    requires { length devices.old.items < most_devices }
    ensures chain { Gives (λ first. first ∷ devices.new.items) result (some_devices (devices.old.items ++ option_to_list last.entry)) }
    ensures few { IfOk result (λ _. length devices.new.items < most_devices) }
{
    close_last(devices, last)?;
    if devices.is_empty() {
        return Err(BlockFaultKind::NoDevice);
    }
    Ok(devices.remove(0))
}

/// The event of all lines.
#[tactic(auto, unfolding(crate::specs::Steps::finished_event))]
fn finish<'a>(action: &'a [u8], draft: Draft<'a>, count: usize) -> Result<Event<'a>, BlockFault>
    requires { length draft.closed.items < most_devices }
    ensures { GivesAt (λ e. e) result (finished_event action.now (sofar draft.entry) count) }
{
    let Draft {
        closed,
        last,
        mut programs,
        pending,
        constants,
        asked: _,
        behind,
    } = draft;
    if settle(&mut programs, pending).is_err() {
        return Err(BlockFault {
            line: count,
            kind: BlockFaultKind::Memory,
        });
    }
    let mut devices = closed;
    match take_first(&mut devices, last) {
        Ok(device) => Ok(Event {
            action,
            device,
            parents: devices,
            programs,
            constants,
            misplaced: behind.property,
            profile: Profile::Manual,
        }),
        Err(kind) => {
            drop(devices);
            drop(programs);
            drop(constants);
            Err(BlockFault { line: count, kind })
        }
    }
}

/// The line that holds the first byte too many.
#[tactic(auto, unfolding(crate::specs::RunBlocks::line_of_excess))]
fn line_of_excess(block: &[u8]) -> usize
    requires { most_bytes < length block.now }
    ensures { result ≡ line_of_excess block.now }
{
    let (within, _) = block.split_at(MAX_BYTES);
    within.iter().filter(|b| **b == b'\n').count() + 1
}

/// The lines of a block that is not too long.
#[tactic(auto, unfolding(crate::specs::Steps::read_lines))]
fn read_lines<'a>(alloc: Global, block: &'a [u8]) -> Result<Event<'a>, BlockFault>
    requires { length block.now ≤ most_bytes }
    ensures { GivesAt (λ e. e) result (read_lines (lines block.now)) }
{
    if block.is_empty() {
        return Err(BlockFault {
            line: 1,
            kind: BlockFaultKind::NoAction,
        });
    }
    let may_have_nul = has_nul(block);
    let (first, rest) = first_line(block);
    let action = match action_in(first, may_have_nul) {
        Ok(action) => action,
        Err(kind) => return Err(BlockFault { line: 1, kind }),
    };
    let (draft, count) = read_rest(alloc, rest, may_have_nul)?;
    finish(action, draft, count)
}

/// Reads an event block, which gives udev's properties of an event in lines: the action, then each device of the
/// chain with what is known about it.
///
/// A block has at most 65,536 bytes with its newlines and at most 64 devices. The fault is that of the first faulty
/// line, and in it the first of: a NUL byte (`Nul`), no line of the form (`Letter`), no action (`NoAction`), no
/// device (`NoDevice`), too many of them (`TooDeep`), a wrong path (`Path`), a wrong number (`Number`), a missing
/// part (`Pair`), a repeated one (`Twice`). A block that is too long is `TooLong` before all else. If no line is
/// faulty and there is no device, the fault is `NoDevice` at the last line. `Memory` means that an allocation
/// failed. Nothing is copied: the event borrows the block.
pub fn read_block<'a>(alloc: Global, block: &'a [u8]) -> Result<Event<'a>, BlockFault>
    ensures event { IfOk result (λ e. block_gives block.now ≡ Ok e) }
    ensures fault { IfErr result (λ f. f.kind ≢ BlockFaultKind.Memory → block_gives block.now ≡ Err f) }
{
    if block.len() > MAX_BYTES {
        return Err(BlockFault {
            line: line_of_excess(block),
            kind: BlockFaultKind::TooLong,
        });
    }
    read_lines(alloc, block)
}
