//! What is said about a faulty block.
ghost use Rattle.std.specs.Prelude.{◌≡◌, false, true};
ghost use Rattle.engine_sessions.specs.BlockFaults.{advice_lines, block_line, block_said};
ghost use Rattle.engine_sessions.specs.Delivery.{ReportsFailure};

use crate::block_advice::{advice_on, wrong_in};
use crate::delivery::report_in_pieces;
use crate::device::Sink;
use device_core::BlockFault;
use itoa::Buffer;

/// Reports the faulty block of this number, and returns the status for it, 1, or 3 if the error output failed.
#[tactic(auto, unfolding(crate::specs::BlockFaults::block_line, crate::specs::BlockFaults::block_said))]
fn report_plainly<E: Sink>(error: &mut E, number: u64, fault: BlockFault) -> u8
    ensures { ReportsFailure (block_said false number fault) 1 result (E.shown error.old) (E.shown error.new) }
{
    let mut number_buffer = Buffer::new();
    let mut line_buffer = Buffer::new();
    report_in_pieces(
        error,
        &[
            b"block ",
            number_buffer.format(number).as_bytes(),
            b", line ",
            line_buffer.format(fault.line).as_bytes(),
            b": ",
            fault.kind.text().as_bytes(),
            b"\n",
        ],
        1,
    )
}

/// Reports the faulty block of this number for people, with what is wrong and what to do about it, and returns the status
/// for it, 1, or 3 if the error output failed.
#[tactic(auto, unfolding(crate::specs::BlockFaults::block_line, crate::specs::BlockFaults::block_said))]
fn report_for_people<E: Sink>(error: &mut E, number: u64, fault: BlockFault) -> u8
    ensures { ReportsFailure (block_said true number fault) 1 result (E.shown error.old) (E.shown error.new) }
{
    let mut number_buffer = Buffer::new();
    let mut line_buffer = Buffer::new();
    report_in_pieces(
        error,
        &[
            b"block ",
            number_buffer.format(number).as_bytes(),
            b", line ",
            line_buffer.format(fault.line).as_bytes(),
            b": ",
            fault.kind.text().as_bytes(),
            b"\n  ",
            wrong_in(fault.kind),
            b"\n  = ",
            advice_on(fault.kind),
            b"\n",
        ],
        1,
    )
}

/// Reports the faulty block of this number, for people or not, and returns the status for it, 1, or 3 if the error output
/// failed.
pub(crate) fn report_block_fault<E: Sink>(
    error: &mut E,
    for_people: bool,
    number: u64,
    fault: BlockFault,
) -> u8
    ensures { ReportsFailure (block_said for_people number fault) 1 result (E.shown error.old) (E.shown error.new) }
{
    if for_people {
        report_for_people(error, number, fault)
    } else {
        report_plainly(error, number, fault)
    }
}
