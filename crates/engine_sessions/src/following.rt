//! Messages, and the answers to an input after them.
ghost use Rattle.std.specs.Prelude.{◌≡◌, ◌&&◌};
ghost use Rattle.engine_sessions.specs.Findings.{FindsAll, found};
ghost use Rattle.engine_sessions.specs.Outcomes.{input_outcome};
ghost use Rattle.engine_sessions.specs.Sessions.{answer_of, asked_by};
ghost use Rattle.engine_sessions.specs.Serves.{AnswersAll, EndsWell, SaysFault, Serves};

use crate::answering::Answering;
use crate::block_faults::report_block_fault;
use crate::delivery::{report_failure, report_out_of_memory};
use crate::device::{Sink, Source};
use crate::inputs::answer_input;
use crate::session::SessionFault;
use crate::turning::TurnFault;
use crate::writing::hand_on;
use std::alloc::Global;
use text_bytes::Profile;

const READ_FAILED: &[u8] = b"devdry: read failed\n";

const WRITE_FAILED: &[u8] = b"devdry: write failed\n";

const NO_BLOCK: &[u8] = b"devdry: no event block in the input\n";

/// How a run tells what is no answer.
#[derive(Clone, Copy)]
pub struct Telling {
    /// Whether faults are told for people: what is wrong, and what to do about it.
    pub for_people: bool,
    /// Whether it is told that an input has no block.
    pub no_block: bool,
}

/// Writes messages to `error`, and then answers the blocks of the input on `output`, over whose events rules are
/// evaluated by a profile; returns the status to exit with.
///
/// The status is 0, also if the input has no block, which is then told on `error` if that is asked for; 1 if a block is faulty, which
/// is reported on `error` after the answers to those before it, for people with what is wrong and what to do about it; 3 if the input
/// or an output failed, or the input did not end within 2^48 reads; 4 if memory ran out.
pub fn answer_after_messages<A: Answering, R: Source, W: Sink, E: Sink>(
    alloc: Global,
    profile: Profile,
    telling: Telling,
    messages: &[u8],
    answering: &A,
    input: &mut R,
    output: &mut W,
    error: &mut E,
) -> u8
    ensures serves { Serves (input_outcome telling messages.now (answer_of A.answers (asked_by profile answering.now))) result
        (record { input = R.shown input.old; out = W.shown output.old; err = E.shown error.old })
        (record { input = R.shown input.new; out = W.shown output.new; err = E.shown error.new }) }
    ensures steps { AnswersAll telling messages.now (answer_of A.answers (asked_by profile answering.now)) result
        (record { input = R.shown input.old; out = W.shown output.old; err = E.shown error.old })
        (record { input = R.shown input.new; out = W.shown output.new; err = E.shown error.new }) }
{
    answer_in_steps(
        alloc, profile, telling, messages, answering, input, output, error,
    )
}

/// The same, step by step.
fn answer_in_steps<A: Answering, R: Source, W: Sink, E: Sink>(
    alloc: Global,
    profile: Profile,
    telling: Telling,
    messages: &[u8],
    answering: &A,
    input: &mut R,
    output: &mut W,
    error: &mut E,
) -> u8
    ensures { AnswersAll telling messages.now (answer_of A.answers (asked_by profile answering.now)) result
        (record { input = R.shown input.old; out = W.shown output.old; err = E.shown error.old })
        (record { input = R.shown input.new; out = W.shown output.new; err = E.shown error.new }) }
{
    if hand_on(error, messages).is_err() {
        return 3;
    }
    match answer_input(alloc, profile, answering, input, output) {
        Ok(found) => end_well(telling, found.no_block, 0, error),
        Err(fault) => conclude(telling.for_people, fault, error),
    }
}

/// Writes messages to `error`, and then answers the blocks of the input on `output`, as `answer_after_messages` does; the
/// answers are findings, so that the status is 1 if any answer has a byte.
///
/// The status is 0; 1 if an answer has a byte or a block is faulty; 3 and 4 as with `answer_after_messages`, whatever was
/// answered.
pub fn find_after_messages<A: Answering, R: Source, W: Sink, E: Sink>(
    alloc: Global,
    profile: Profile,
    telling: Telling,
    messages: &[u8],
    answering: &A,
    input: &mut R,
    output: &mut W,
    error: &mut E,
) -> u8
    ensures serves { Serves (λ text. found (input_outcome telling messages.now (answer_of A.answers (asked_by profile answering.now)) text)) result
        (record { input = R.shown input.old; out = W.shown output.old; err = E.shown error.old })
        (record { input = R.shown input.new; out = W.shown output.new; err = E.shown error.new }) }
    ensures steps { FindsAll telling messages.now (answer_of A.answers (asked_by profile answering.now)) result
        (record { input = R.shown input.old; out = W.shown output.old; err = E.shown error.old })
        (record { input = R.shown input.new; out = W.shown output.new; err = E.shown error.new }) }
{
    find_in_steps(
        alloc, profile, telling, messages, answering, input, output, error,
    )
}

/// The same, step by step.
fn find_in_steps<A: Answering, R: Source, W: Sink, E: Sink>(
    alloc: Global,
    profile: Profile,
    telling: Telling,
    messages: &[u8],
    answering: &A,
    input: &mut R,
    output: &mut W,
    error: &mut E,
) -> u8
    ensures { FindsAll telling messages.now (answer_of A.answers (asked_by profile answering.now)) result
        (record { input = R.shown input.old; out = W.shown output.old; err = E.shown error.old })
        (record { input = R.shown input.new; out = W.shown output.new; err = E.shown error.new }) }
{
    if hand_on(error, messages).is_err() {
        return 3;
    }
    match answer_input(alloc, profile, answering, input, output) {
        Ok(found) => {
            if found.finds {
                end_well(telling, found.no_block, 1, error)
            } else {
                end_well(telling, found.no_block, 0, error)
            }
        }
        Err(fault) => conclude(telling.for_people, fault, error),
    }
}

/// Tells that an input has no block, if that is so and asked for, and returns the status, or 3 if the error output failed.
pub(crate) fn end_well<E: Sink>(telling: Telling, no_block: bool, status: u8, error: &mut E) -> u8
    ensures { EndsWell (telling.no_block && no_block) status result (E.shown error.old) (E.shown error.new) }
{
    if telling.no_block && no_block {
        report_failure(error, NO_BLOCK, status)
    } else {
        status
    }
}

/// Reports why the answering of an input stopped, and returns the status for it, or 3 if the error output failed.
pub(crate) fn conclude<E: Sink>(for_people: bool, fault: TurnFault, error: &mut E) -> u8
    requires { fault ≡ TurnFault.Session SessionFault.Ended → ⊥ }
    ensures { SaysFault for_people fault result (E.shown error.old) (E.shown error.new) }
{
    match fault {
        TurnFault::Read => report_failure(error, READ_FAILED, 3),
        TurnFault::Write => report_failure(error, WRITE_FAILED, 3),
        TurnFault::Session(SessionFault::Block(number, fault)) => {
            report_block_fault(error, for_people, number, fault)
        }
        TurnFault::Session(SessionFault::Memory) => report_out_of_memory(error),
        TurnFault::Session(SessionFault::Ended) => {
            prove!(false);
            3
        }
    }
}
