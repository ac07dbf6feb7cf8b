//! Turns: one read, and the answers then due.
//!
//! Each answer is written and flushed as it comes, before the next block is looked at, so that whoever feeds one
//! event and waits gets its answer, and a fault removes none of those before it.
ghost use Rattle.std.specs.Prelude.{◌≡◌, ◌≤◌, true, false, [], length, IfOk, IfErr, OnOk, OnErr};
ghost use Rattle.std.specs.Option.{option_to_list};
ghost use Rattle.device_core.specs.RunBlocks.{most_bytes};
ghost use Rattle.engine_sessions.specs.Sinks.{SinkState};
ghost use Rattle.engine_sessions.specs.Sessions.{answer_of};
ghost use Rattle.engine_sessions.specs.Turns.{due, HasEnded, say_something, Sends, SendsDue, SendsUntil, Turns, TurnFailsBy};
ghost use Rattle.engine_sessions.specs.Holding.{IsGoing, BreaksOffAt, TurnsTold};
ghost use Rattle.engine_sessions.specs.Tallies.{IsTold};

use crate::answering::Answering;
use crate::device::{DeviceFault, Sink, Source};
use crate::listening::Listener;
use crate::session::{Session, SessionFault};
use crate::writing::hand_on;
use std::alloc::Global;
use text_bytes::Bytes;

/// The most bytes of a read.
const MAX_READ: usize = 4096;

/// Why a turn failed. The session has then ended.
#[derive(Clone, Copy, Debug, PartialEq, Eq)]
pub enum TurnFault {
    /// 1: the reader failed.
    Read,
    /// 2: the writer failed.
    Write,
    /// 3: the session gave no answer, or had ended before.
    Session(SessionFault),
}

/// The outcome of a turn.
#[derive(Clone, Copy, PartialEq, Eq)]
pub(crate) struct TurnOutcome {
    /// Whether the input goes on.
    pub(crate) more: bool,
    /// Whether any of the answers has a byte.
    pub(crate) finds: bool,
}

/// Makes one read of at most 4,096 bytes, then writes and flushes every answer that is due, each as it comes.
/// Returns whether the input goes on: false means that the read found the input's end, with the answer to the last
/// block written.
///
/// `Read` and `Write` mean that this device failed. `Session` has the session's fault: the answers before a faulty
/// block are written and flushed. After any fault and after false the session has ended, and `turn` then returns
/// `Session(Ended)`, reads nothing and writes nothing. What the session holds after a turn is at most 65,536 bytes,
/// and nothing once it has ended.
pub fn turn<A: Answering, R: Source, W: Sink>(
    alloc: Global,
    session: &mut Session<'_, A>,
    input: &mut R,
    output: &mut W,
) -> Result<bool, TurnFault>
    ensures ok { IfOk result (λ more. Turns (answer_of A.answers session.old.answering) more
        (record { session = session.old; input = R.shown input.old; output = W.shown output.old })
        (record { session = session.new; input = R.shown input.new; output = W.shown output.new })) }
    ensures err { IfErr result (λ fault. TurnFailsBy (answer_of A.answers session.old.answering) fault
        (record { session = session.old; input = R.shown input.old; output = W.shown output.old })
        (record { session = session.new; input = R.shown input.new; output = W.shown output.new })) }
    ensures ended { OnErr result (HasEnded session.old session.new) }
    ensures fits { length session.new.pending ≤ most_bytes }
    ensures untouched { session.old.ended ≡ true → (session.new ≡ session.old) × (input.new ≡ input.old) × (output.new ≡ output.old) }
{
    let outcome = turn_told(alloc, session, &mut (), input, output)?;
    Ok(outcome.more)
}

/// Does what `turn` does, tells a listener the piece that was read, once its answers are written, and also returns
/// whether any of the answers has a byte.
pub(crate) fn turn_told<A: Answering, L: Listener, R: Source, W: Sink>(
    alloc: Global,
    session: &mut Session<'_, A>,
    listener: &mut L,
    input: &mut R,
    output: &mut W,
) -> Result<TurnOutcome, TurnFault>
    ensures ok { IfOk result (λ after_turn.
        TurnsTold (answer_of A.answers session.old.answering) (IsTold (L.says listener.old) (L.says listener.new)) after_turn.more after_turn.finds
        (record { session = session.old; input = R.shown input.old; output = W.shown output.old })
        (record { session = session.new; input = R.shown input.new; output = W.shown output.new })) }
    ensures err { IfErr result (λ fault. TurnFailsBy (answer_of A.answers session.old.answering) fault
        (record { session = session.old; input = R.shown input.old; output = W.shown output.old })
        (record { session = session.new; input = R.shown input.new; output = W.shown output.new })) }
    ensures ended { OnErr result (HasEnded session.old session.new) }
    ensures fits { length session.new.pending ≤ most_bytes }
    ensures untouched { session.old.ended ≡ true → (session.new ≡ session.old) × (input.new ≡ input.old) × (output.new ≡ output.old) }
{
    if session.is_ended() {
        return Err(TurnFault::Session(SessionFault::Ended));
    }
    let mut piece = [0u8; MAX_READ];
    match input.read(&mut piece) {
        Ok(0) => {
            let finds = answer_last(alloc, session, output)?;
            Ok(TurnOutcome { more: false, finds })
        }
        Ok(len) => {
            let finds = answer_piece(alloc, session, &piece[..len], output)?;
            match listener.hear(alloc, &piece[..len]) {
                Ok(()) => Ok(TurnOutcome { more: true, finds }),
                Err(_) => {
                    session.close();
                    Err(TurnFault::Session(SessionFault::Memory))
                }
            }
        }
        Err(DeviceFault) => {
            session.close();
            Err(TurnFault::Read)
        }
    }
}

/// Takes a piece, and sends each answer as it comes. Returns whether any of them has a byte.
fn answer_piece<A: Answering, W: Sink>(
    alloc: Global,
    session: &mut Session<'_, A>,
    piece: &[u8],
    output: &mut W,
) -> Result<bool, TurnFault>
    requires { IsGoing session.old }
    ensures finds { IfOk result (λ finds. finds ≡ say_something (due (answer_of A.answers session.old.answering) true session.old.pending piece.now).texts) }
    ensures ok { OnOk result (SendsDue (answer_of A.answers session.old.answering) true session.old piece.now session.new (W.shown output.old)
        (W.shown output.new)) }
    ensures err { IfErr result (λ fault. SendsUntil fault
        (due (answer_of A.answers session.old.answering) true session.old.pending piece.now) session.old.answered (W.shown output.old) (W.shown output.new)) }
    ensures ended { OnErr result (HasEnded session.old session.new) }
    ensures fits { length session.new.pending ≤ most_bytes }
{
    let mut used = 0;
    let mut finds = false;
    while used < piece.len() {
        let step = match session.take(alloc, &piece[used..]) {
            Ok(step) => step,
            Err(fault) => return Err(TurnFault::Session(fault)),
        };
        match send(output, &step.answer) {
            Ok(()) => {
                used += step.used;
                finds |= says_something(&step.answer);
            }
            Err(DeviceFault) => {
                session.close();
                return Err(TurnFault::Write);
            }
        }
    }
    Ok(finds)
}

/// Ends the input, and sends the last answer. Returns whether it has a byte.
fn answer_last<A: Answering, W: Sink>(
    alloc: Global,
    session: &mut Session<'_, A>,
    output: &mut W,
) -> Result<bool, TurnFault>
    requires { IsGoing session.old }
    ensures finds { IfOk result (λ finds. finds ≡ say_something (due (answer_of A.answers session.old.answering) false session.old.pending []).texts) }
    ensures ok { OnOk result (SendsDue (answer_of A.answers session.old.answering) false session.old [] session.new (W.shown output.old) (W.shown output.new)) }
    ensures err { IfErr result (λ fault. SendsUntil fault (due (answer_of A.answers session.old.answering) false session.old.pending []) session.old.answered
        (W.shown output.old) (W.shown output.new)) }
    ensures ended { HasEnded session.old session.new }
{
    match session.end(alloc) {
        Ok(last) => match send(output, &last) {
            Ok(()) => Ok(says_something(&last)),
            Err(DeviceFault) => Err(TurnFault::Write),
        },
        Err(fault) => Err(TurnFault::Session(fault)),
    }
}

/// Writes and flushes an answer, if there is one.
fn send<W: Sink>(output: &mut W, answer: &Option<Bytes>) -> Result<(), DeviceFault>
    ensures ok { OnOk result (Sends (W.shown output.old) (option_to_list answer.now) (W.shown output.new)) }
    ensures err { OnErr result (BreaksOffAt (W.shown output.old) answer.now (W.shown output.new)) }
{
    match answer {
        Some(text) => hand_on(output, text.as_slice()),
        None => Ok(()),
    }
}

/// Whether there is an answer, and it has a byte.
fn says_something(answer: &Option<Bytes>) -> bool
    ensures { result ≡ say_something (option_to_list answer.now) }
{
    match answer {
        Some(text) => !text.as_slice().is_empty(),
        None => false,
    }
}
