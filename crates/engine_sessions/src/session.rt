//! The session: the blocks of an input that comes in pieces, answered one by one.
//!
//! The splitter keeps the only bytes that wait, in memory that it allocated once; a block is read and answered
//! where it is, and only the answer is passed out.
ghost use Rattle.std.specs.Prelude.{◌≡◌, ◌==◌, ◌≤◌, ◌+◌, true, false, [], IfOk, IfErr, length, Ok, Err, ◌++◌};
ghost use Rattle.device_core.specs.RunBlocks.{most_bytes};
ghost use Rattle.device_core.specs.Faults.{block_gives};
ghost use Rattle.engine_sessions.specs.Known.{known_blocks};
ghost use Rattle.engine_sessions.specs.Sessions.{answer_of, asked_by, opened, closed, SessionTakes, SessionEnds, CallFailsBy};
ghost use Rattle.engine_sessions.specs.Holding.{IsGoing, IsBlockAnswer, IsBlockRefused, IsSplitRefused};

use crate::answering::Answering;
use device_core::{BlockFault, BlockFaultKind, SplitFault, Splitter, read_block};
use std::alloc::{AllocError, Global};
use std::marker::Model;
use text_bytes::{Bytes, Profile};

/// The outcome of taking a piece.
#[derive(Drop)]
pub struct Step {
    /// How many of the piece's bytes were used.
    pub used: usize,
    /// The answer to the block that they completed, if they did.
    pub answer: Option<Bytes>,
}

/// Why nothing more is answered.
#[derive(Clone, Copy, Debug, PartialEq, Eq)]
pub enum SessionFault {
    /// 1: the block of this number, counted from 1, is faulty. The number is at most 2^64 - 1.
    Block(u64, BlockFault),
    /// 2: memory ran out.
    Memory,
    /// 3: the session had ended, by `end` or by a fault.
    Ended,
}

/// Answers the blocks of an input, the longest runs of lines that are not empty, one by one.
#[derive(Drop)]
pub struct Session<'a, A: Answering> {
    answering: &'a A,
    profile: Profile,
    splitter: Splitter,
    /// How many blocks were answered.
    answered: u64,
    ended: bool,
}

impl<'a, A: Answering> Model for Session<'a, A> {
    ghost use Rattle.std.specs.Prelude.{◌≡◌, false};
    ghost use Rattle.engine_sessions.specs.Sessions.{Asked, Held, asked_by};
    ghost use Rattle.engine_sessions.specs.Holding.{held, IsOpen};

    ghost Value = { Held (Asked A) };

    ghost view = { λ s. held (asked_by s.profile s.answering.now) s.splitter.pending s.answered s.ended };

    ghost invariant = { λ s. s.ended ≡ false → IsOpen s.splitter s.answered };
}

impl<'a, A: Answering> Session<'a, A> {
    /// A session at the input's start, with all the room that its pending bytes will need: 65,536 bytes. Rules are
    /// evaluated over its events as the manual pages say.
    pub fn new(alloc: Global, answering: &'a A) -> Result<Session<'a, A>, AllocError>
        ensures { IfOk result (λ s. s ≡ opened (asked_by Profile.Manual answering.now)) }
    {
        Session::new_as(alloc, Profile::Manual, answering)
    }

    /// The same session, over whose events rules are evaluated by a profile.
    pub fn new_as(
        alloc: Global,
        profile: Profile,
        answering: &'a A,
    ) -> Result<Session<'a, A>, AllocError>
        ensures { IfOk result (λ s. s ≡ opened (asked_by profile answering.now)) }
    {
        let splitter = Splitter::new(alloc)?;
        Ok(Session {
            answering,
            profile,
            splitter,
            answered: 0,
            ended: false,
        })
    }

    /// Takes the bytes of a piece up to the empty line that ends a block, or all of them, and answers
    /// that block.
    ///
    /// `Block` means that the block is faulty, also at byte 65,537 of one that is too long; `Memory` that memory
    /// ran out; `Ended` comes after these, after `end`, and nowhere else.
    pub fn take(&mut self, alloc: Global, piece: &[u8]) -> Result<Step, SessionFault>
        ensures ok { IfOk result (λ step. SessionTakes (answer_of A.answers self.old.answering) self.old piece.now step self.new) }
        ensures err { IfErr result (λ fault. CallFailsBy fault self.old (known_blocks true (self.old.pending ++ piece.now)) self.new) }
    {
        if self.ended {
            return Err(SessionFault::Ended);
        }
        let number = self.answered.saturating_add(1);
        match self.splitter.take(piece) {
            Ok(taken) => {
                if !taken.whole {
                    return Ok(Step {
                        used: taken.used,
                        answer: None,
                    });
                }
                let block = self.splitter.block();
                match answer_to(alloc, self.profile, self.answering, block, number) {
                    Ok(text) => {
                        self.answered = number;
                        Ok(Step {
                            used: taken.used,
                            answer: Some(text),
                        })
                    }
                    Err(fault) => {
                        self.ended = true;
                        Err(fault)
                    }
                }
            }
            Err(fault) => {
                self.ended = true;
                Err(split_refused(fault, number))
            }
        }
    }

    /// Ends the input, and answers the block that is there without an empty line after it, if there is one.
    ///
    /// `Block` means that this block is faulty, `Memory` that memory ran out; `Ended` comes after these, after
    /// `end` and after a fault of `take`, and nowhere else.
    pub fn end(&mut self, alloc: Global) -> Result<Option<Bytes>, SessionFault>
        ensures ok { IfOk result (λ last. SessionEnds (answer_of A.answers self.old.answering) self.old last self.new) }
        ensures err { IfErr result (λ fault. CallFailsBy fault self.old (known_blocks false self.old.pending) self.new) }
    {
        if self.ended {
            return Err(SessionFault::Ended);
        }
        self.ended = true;
        let number = self.answered.saturating_add(1);
        match self.splitter.end() {
            Ok(true) => {
                let last = self.splitter.block();
                let answer = answer_to(alloc, self.profile, self.answering, last, number)?;
                self.answered = number;
                Ok(Some(answer))
            }
            Ok(false) => Ok(None),
            Err(fault) => Err(split_refused(fault, number)),
        }
    }

    /// Whether the session has ended.
    pub(crate) fn is_ended(&self) -> bool
        ensures value { result ≡ self.now.ended }
        ensures going { self.now.ended ≡ false → IsGoing self.now }
        ensures gone { self.now.ended ≡ true → self.now.pending ≡ [] }
    {
        self.ended
    }

    /// Whether the session has answered no block.
    pub(crate) fn has_answered_none(&self) -> bool
        ensures { result ≡ (self.now.answered == 0) }
    {
        self.answered == 0
    }

    /// Ends the session without an answer to what is pending.
    pub(crate) fn close(&mut self)
        ensures { self.new ≡ closed self.old }
    {
        self.ended = true;
    }
}

/// The answer to a block of this number, over whose event rules are evaluated by a profile.
fn answer_to<A: Answering>(
    alloc: Global,
    profile: Profile,
    answering: &A,
    block: &[u8],
    number: u64,
) -> Result<Bytes, SessionFault>
    ensures ok { IfOk result (λ text. IsBlockAnswer (answer_of A.answers (asked_by profile answering.now)) block.now text) }
    ensures err { IfErr result (λ fault. IsBlockRefused fault number block.now) }
{
    match read_block(alloc, block) {
        Ok(event) => {
            let event = event.with_profile(profile);
            let said = answering.answer(alloc, &event);
            drop(event);
            match said {
                Ok(text) => Ok(text),
                Err(_) => Err(SessionFault::Memory),
            }
        }
        Err(fault) => {
            if matches!(fault.kind, BlockFaultKind::Memory) {
                return Err(SessionFault::Memory);
            }
            Err(SessionFault::Block(number, fault))
        }
    }
}

/// The fault of a session whose splitter takes no more of the block of this number.
fn split_refused(fault: SplitFault, number: u64) -> SessionFault
    ensures { IsSplitRefused fault number result }
{
    match fault {
        SplitFault::TooLong { line } => SessionFault::Block(
            number,
            BlockFault {
                line,
                kind: BlockFaultKind::TooLong,
            },
        ),
        SplitFault::Ended => SessionFault::Ended,
    }
}
