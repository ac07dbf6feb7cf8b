//! The blocks of an input that comes in pieces, each told to a tally.
//!
//! The splitter here keeps the bytes of the block that is not complete once more, apart from those of the session.
ghost use Rattle.std.specs.Prelude.{◌≡◌, ◌<◌, ◌≤◌, ◌∷◌, [], ◌++◌, List, IfOk, OnOk, length, take};
ghost use Rattle.device_core.specs.Runs.{complete_runs, rest_of};
ghost use Rattle.device_core.specs.Splits.{completed};
ghost use Rattle.device_core.specs.Values.{EventValue};
ghost use Rattle.engine_sessions.specs.Tallies.{events_in, events_of, IsTold};

use crate::listening::{Listener, Tally};
use device_core::{Splitter, read_block};
use std::alloc::{AllocError, Global};
use text_bytes::{Bytes, Profile};

/// A tally that hears the events of an input, over which rules are evaluated by a profile.
#[derive(Drop)]
pub(crate) struct Hearing<T: Tally> {
    splitter: Splitter,
    profile: Profile,
    tally: T,
    ghost none_complete: { complete_runs splitter.pending ≡ [] },
    ghost is_rest: { rest_of splitter.pending ≡ splitter.pending },
}

/// Tells a tally the event of a block.
fn count_block<T: Tally>(
    alloc: Global,
    profile: Profile,
    block: &[u8],
    tally: &mut T,
) -> Result<(), AllocError>
    ensures { OnOk result ((later : List EventValue) → T.says tally.new later ≡ T.says tally.old (events_in profile (block.now ∷ []) ++ later)) }
{
    match read_block(alloc, block) {
        Ok(event) => {
            let event = event.with_profile(profile);
            let counted = tally.count(alloc, &event);
            drop(event);
            counted
        }
        Err(_) => Err(AllocError),
    }
}

/// Tells a tally the event of a block, if there is one.
fn count_if_complete<T: Tally>(
    alloc: Global,
    profile: Profile,
    complete: bool,
    block: &[u8],
    tally: &mut T,
) -> Result<(), AllocError>
    ensures { OnOk result ((later : List EventValue)
        → T.says tally.new later ≡ T.says tally.old (events_in profile (completed complete block.now) ++ later)) }
{
    if complete {
        return count_block(alloc, profile, block, tally);
    }
    Ok(())
}

impl<T: Tally + Drop> Hearing<T> {
    /// A tally at an input's start, with the room for a block: 65,536 bytes.
    pub(crate) fn new(alloc: Global, profile: Profile, tally: T) -> Result<Hearing<T>, AllocError>
        ensures { IfOk result (λ h. (h.splitter.pending ≡ []) × (h.profile ≡ profile) × (h.tally ≡ tally)) }
    {
        let splitter = Splitter::new(alloc)?;
        Ok(Hearing {
            splitter,
            profile,
            tally,
        })
    }

    /// Takes a piece in, up to the end of the first block that it completes, and returns how many bytes these are.
    fn hear_some(&mut self, alloc: Global, piece: &[u8]) -> Result<usize, AllocError>
        requires { 0 < length piece.now }
        ensures within { IfOk result (λ used. used ≤ length piece.now) }
        ensures moves { IfOk result (λ used. 0 < used) }
        ensures told { IfOk result (λ used. IsTold (λ rest. T.says self.old.tally (events_of self.old.profile (self.old.splitter.pending ++ rest)))
            (λ rest. T.says self.new.tally (events_of self.new.profile (self.new.splitter.pending ++ rest))) (take used piece.now)) }
    {
        match self.splitter.take(piece) {
            Ok(taken) => {
                let block = self.splitter.block();
                count_if_complete(alloc, self.profile, taken.whole, block, &mut self.tally)?;
                Ok(taken.used)
            }
            Err(_) => Err(AllocError),
        }
    }

    /// What there is to say at the input's end: its last block is told, if there is one without an empty line after it.
    pub(crate) fn end(&mut self, alloc: Global) -> Result<Bytes, AllocError>
        ensures { IfOk result (λ text. text ≡ T.says self.old.tally (events_of self.old.profile (self.old.splitter.pending ++ []))) }
    {
        match self.splitter.end() {
            Ok(some) => {
                let block = self.splitter.block();
                count_if_complete(alloc, self.profile, some, block, &mut self.tally)?;
                self.tally.end(alloc)
            }
            Err(_) => Err(AllocError),
        }
    }
}

impl<T: Tally + Drop> Listener for Hearing<T> {
    ghost use Rattle.std.specs.Prelude.{◌++◌};
    ghost use Rattle.engine_sessions.specs.Tallies.{events_of};

    ghost says = { λ h rest. T.says h.tally (events_of h.profile (h.splitter.pending ++ rest)) };

    fn hear(&mut self, alloc: Global, piece: &[u8]) -> Result<(), AllocError> {
        let mut used = 0;
        while used < piece.len() {
            used += self.hear_some(alloc, &piece[used..])?;
        }
        Ok(())
    }
}
