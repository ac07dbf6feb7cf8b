//! Messages, the answers to an input after them, and what is said about all of its events.
ghost use Rattle.std.specs.Prelude.{◌≡◌, ◌&&◌, ◌++◌, [], Err};
ghost use Rattle.engine_sessions.specs.Outcomes.{input_outcome};
ghost use Rattle.engine_sessions.specs.Sessions.{answer_of, asked_by};
ghost use Rattle.engine_sessions.specs.Serves.{Serves};
ghost use Rattle.engine_sessions.specs.Tallies.{events_of, SaysAll, SaysLast, with_said};

use crate::answering::Answering;
use crate::delivery::{report_failure, report_out_of_memory};
use crate::device::{DeviceFault, Sink, Source};
use crate::following::{Telling, conclude, end_well};
use crate::hearing::Hearing;
use crate::inputs::answer_heard;
use crate::listening::Tally;
use crate::writing::hand_on;
use std::alloc::Global;
use text_bytes::Profile;

const WRITE_FAILED: &[u8] = b"devdry: write failed\n";

/// Writes messages to `error`, and answers the blocks of the input on `output`, as `answer_after_messages` does; if all
/// of the input is answered, what the tally says about its events follows the last answer.
///
/// The status is as with `answer_after_messages`; 3 or 4 also if the output fails in what the tally says, or memory
/// runs out for it. After a faulty block the tally says nothing.
pub fn answer_and_tally<A: Answering, T: Tally + Drop, R: Source, W: Sink, E: Sink>(
    alloc: Global,
    profile: Profile,
    telling: Telling,
    messages: &[u8],
    answering: &A,
    tally: T,
    input: &mut R,
    output: &mut W,
    error: &mut E,
) -> u8
    ensures serves { Serves (λ text. with_said (T.says tally (events_of profile text))
        (input_outcome telling messages.now (answer_of A.answers (asked_by profile answering.now)) text)) result
        (record { input = R.shown input.old; out = W.shown output.old; err = E.shown error.old })
        (record { input = R.shown input.new; out = W.shown output.new; err = E.shown error.new }) }
    ensures steps { SaysAll telling messages.now (answer_of A.answers (asked_by profile answering.now))
        (λ text. T.says tally (events_of profile text)) result
        (record { input = R.shown input.old; out = W.shown output.old; err = E.shown error.old })
        (record { input = R.shown input.new; out = W.shown output.new; err = E.shown error.new }) }
{
    tally_in_steps(
        alloc, profile, telling, messages, answering, tally, input, output, error,
    )
}

/// The same, step by step.
fn tally_in_steps<A: Answering, T: Tally + Drop, R: Source, W: Sink, E: Sink>(
    alloc: Global,
    profile: Profile,
    telling: Telling,
    messages: &[u8],
    answering: &A,
    tally: T,
    input: &mut R,
    output: &mut W,
    error: &mut E,
) -> u8
    ensures { SaysAll telling messages.now (answer_of A.answers (asked_by profile answering.now)) (λ text. T.says tally (events_of profile text)) result
        (record { input = R.shown input.old; out = W.shown output.old; err = E.shown error.old })
        (record { input = R.shown input.new; out = W.shown output.new; err = E.shown error.new }) }
{
    match Hearing::new(alloc, profile, tally) {
        Ok(mut hearing) => tally_heard(
            alloc,
            profile,
            telling,
            messages,
            answering,
            &mut hearing,
            input,
            output,
            error,
        ),
        Err(_) => report_out_of_memory(error),
    }
}

/// The same, by a tally that has heard nothing yet.
fn tally_heard<A: Answering, T: Tally + Drop, R: Source, W: Sink, E: Sink>(
    alloc: Global,
    profile: Profile,
    telling: Telling,
    messages: &[u8],
    answering: &A,
    hearing: &mut Hearing<T>,
    input: &mut R,
    output: &mut W,
    error: &mut E,
) -> u8
    ensures { SaysAll telling messages.now (answer_of A.answers (asked_by profile answering.now))
        (λ text. T.says hearing.old.tally (events_of hearing.old.profile (hearing.old.splitter.pending ++ text))) result
        (record { input = R.shown input.old; out = W.shown output.old; err = E.shown error.old })
        (record { input = R.shown input.new; out = W.shown output.new; err = E.shown error.new }) }
{
    if hand_on(error, messages).is_err() {
        return 3;
    }
    match answer_heard(alloc, profile, answering, hearing, input, output) {
        Ok(found) => say_last(alloc, telling, found.no_block, hearing, output, error),
        Err(fault) => conclude(telling.for_people, fault, error),
    }
}

/// Writes what the tally says at the input's end, tells that there is no block if that is so and asked for, and returns the status to
/// exit with.
fn say_last<T: Tally + Drop, W: Sink, E: Sink>(
    alloc: Global,
    telling: Telling,
    no_block: bool,
    hearing: &mut Hearing<T>,
    output: &mut W,
    error: &mut E,
) -> u8
    ensures { SaysLast (telling.no_block && no_block) (T.says hearing.old.tally (events_of hearing.old.profile (hearing.old.splitter.pending ++ []))) result
        (W.shown output.old) (W.shown output.new) (E.shown error.old) (E.shown error.new) }
{
    match hearing.end(alloc) {
        Ok(text) => match hand_on(output, text.as_slice()) {
            Ok(()) => end_well(telling, no_block, 0, error),
            Err(DeviceFault) => report_failure(error, WRITE_FAILED, 3),
        },
        Err(_) => report_out_of_memory(error),
    }
}
