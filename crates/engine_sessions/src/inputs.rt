//! The turns over an input.
ghost use Rattle.std.specs.Prelude.{◌≡◌};
ghost use Rattle.engine_sessions.specs.Sessions.{answer_of, asked_by, opened};
ghost use Rattle.engine_sessions.specs.Findings.{AnswersFinding};
ghost use Rattle.engine_sessions.specs.Tallies.{HearsInput};

use crate::answering::Answering;
use crate::device::{Sink, Source};
use crate::listening::Listener;
use crate::session::{Session, SessionFault};
use crate::turning::{TurnFault, turn_told};
use std::alloc::Global;
use text_bytes::Profile;

/// The most turns over one input.
const MAX_TURNS: u64 = 1 << 48;

/// What the answers to an input are.
#[derive(Clone, Copy)]
pub struct Findings {
    /// Whether there are none, as the input has no block.
    pub no_block: bool,
    /// Whether any of them has a byte.
    pub finds: bool,
}

/// Answers the blocks of an input, over whose events rules are evaluated by a profile: each answer is written and
/// flushed before the next read. Returns whether there is no block, and whether any answer has a byte.
///
/// `Session(Block(..))` means that a block is faulty, with the answers to all blocks before it sent;
/// `Session(Memory)` that memory ran out; `Write` that the output failed; `Read` that the input failed, or did not
/// end within 2^48 reads.
pub fn answer_input<A: Answering, R: Source, W: Sink>(
    alloc: Global,
    profile: Profile,
    answering: &A,
    input: &mut R,
    output: &mut W,
) -> Result<Findings, TurnFault>
    ensures { AnswersFinding (answer_of A.answers (asked_by profile answering.now)) result
        (record { input = R.shown input.old; output = W.shown output.old }) (record { input = R.shown input.new; output = W.shown output.new }) }
{
    answer_heard(alloc, profile, answering, &mut (), input, output)
}

/// Answers the blocks of an input as `answer_input` does, while a listener is told what is read.
pub(crate) fn answer_heard<A: Answering, L: Listener, R: Source, W: Sink>(
    alloc: Global,
    profile: Profile,
    answering: &A,
    listener: &mut L,
    input: &mut R,
    output: &mut W,
) -> Result<Findings, TurnFault>
    ensures { HearsInput (answer_of A.answers (asked_by profile answering.now)) (L.says listener.old) (L.says listener.new) result
        (record { input = R.shown input.old; output = W.shown output.old }) (record { input = R.shown input.new; output = W.shown output.new }) }
{
    match Session::new_as(alloc, profile, answering) {
        Ok(mut session) => make_turns(alloc, &mut session, listener, input, output),
        Err(_) => Err(TurnFault::Session(SessionFault::Memory)),
    }
}

/// Makes turns until the input ends or a turn fails. Returns what the answers are.
fn make_turns<A: Answering, L: Listener, R: Source, W: Sink>(
    alloc: Global,
    session: &mut Session<'_, A>,
    listener: &mut L,
    input: &mut R,
    output: &mut W,
) -> Result<Findings, TurnFault>
    requires { session.old ≡ opened session.old.answering }
    ensures { HearsInput (answer_of A.answers session.old.answering) (L.says listener.old) (L.says listener.new) result
        (record { input = R.shown input.old; output = W.shown output.old }) (record { input = R.shown input.new; output = W.shown output.new }) }
{
    let mut finds = false;
    for _made in 0..MAX_TURNS {
        let outcome = turn_told(alloc, session, listener, input, output)?;
        finds |= outcome.finds;
        if !outcome.more {
            let no_block = session.has_answered_none();
            return Ok(Findings { no_block, finds });
        }
    }
    Err(TurnFault::Read)
}
