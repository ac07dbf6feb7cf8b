//! The splitter: cuts an input that comes in pieces into blocks.
//!
//! Its room is a boxed slice, which can't grow: only `new` can take memory.
ghost use Rattle.std.specs.Prelude.{◌≡◌, ◌≤◌, ◌+◌, [], length, IfOk, IfErr};
ghost use Rattle.device_core.specs.RunBlocks.{most_bytes, newline_count};
ghost use Rattle.device_core.specs.Splits.{opened, SplitTakes, SplitEnds, SplitFailsBy, HadEnded};

use crate::filling::{Stop, fill};
use crate::read::MAX_BYTES;
use std::alloc::{AllocError, Global};
use std::boxed::BoxedSlice;
use std::error::Error;
use std::fmt;
use std::marker::Model;

/// The outcome of taking a piece.
#[derive(Clone, Copy, PartialEq, Eq)]
pub struct Taken {
    /// How many of the piece's bytes were used.
    pub used: usize,
    /// Whether a block is complete.
    pub whole: bool,
}

/// Why nothing more is taken.
#[derive(Clone, Copy, Debug, PartialEq, Eq)]
pub enum SplitFault {
    /// 1: a block has more than 65,536 bytes, newlines included: byte 65,537 is in this of its lines, counted from
    /// 1.
    TooLong {
        /// The line.
        line: usize,
    },
    /// 2: the input has ended, or a block was too long before.
    Ended,
}

impl fmt::Display for SplitFault {
    ghost use Rattle.std.specs.Prelude.{Some};
    ghost use Rattle.device_core.specs.FaultTexts.{split_text};

    ghost output = { λ fault. Some (split_text fault) };

    fn fmt<W: fmt::Write>(&self, f: &mut fmt::Formatter<W>) -> fmt::Result {
        match self {
            SplitFault::TooLong { line } => write!(f, "line {line}: too long"),
            SplitFault::Ended => f.write_str("input has ended"),
        }
    }
}

impl Error for SplitFault {}

/// Cuts an input into its blocks, the longest runs of lines that are not empty, as `udevadm info --export-db` of
/// udevadm(8) separates the devices that it lists.
#[derive(Drop)]
pub struct Splitter {
    room: BoxedSlice<u8>,
    /// How many bytes of the room are held.
    len: usize,
    /// Whether a line begins after them.
    at_start: bool,
    /// Whether they are a complete block, which the caller can borrow.
    is_complete: bool,
    /// Whether no more is taken.
    ended: bool,
}

impl Model for Splitter {
    ghost use Rattle.device_core.specs.Splits.{Split};
    ghost use Rattle.device_core.specs.Holding.{split_of, IsSplitter};
    ghost use Rattle.std.specs.Prelude.{take};
    ghost use Rattle.std.specs.Box.{boxed_slice_items};

    ghost Value = { Split };

    ghost view = { λ s. split_of s.is_complete (take s.len (boxed_slice_items s.room)) s.ended };

    ghost invariant = { λ s. IsSplitter (boxed_slice_items s.room) s.len s.at_start s.is_complete s.ended };
}

impl Splitter {
    /// A splitter at the input's start, with all the room that it will need: 65,536 bytes.
    pub fn new(alloc: Global) -> Result<Splitter, AllocError>
        ensures { IfOk result (λ s. s ≡ opened) }
    {
        let room = vec![in alloc; 0u8; MAX_BYTES]?;
        Ok(Splitter {
            room: room.into_boxed_slice(),
            len: 0,
            at_start: true,
            is_complete: false,
            ended: false,
        })
    }

    /// Takes the bytes of a piece up to the empty line that ends a block, or all of them.
    ///
    /// `TooLong` comes at a block's byte 65,537, and `Ended` after it and after `end`.
    pub fn take(&mut self, piece: &[u8]) -> Result<Taken, SplitFault>
        ensures ok { IfOk result (λ taken. SplitTakes self.old piece.now taken self.new) }
        ensures err { IfErr result (λ fault. SplitFailsBy fault self.old piece.now self.new) }
    {
        self.let_go();
        if self.ended {
            return Err(SplitFault::Ended);
        }
        let filled = fill(&mut self.room, self.len, self.at_start, piece);
        self.len = filled.len;
        self.at_start = filled.at_start;
        match filled.stop {
            Stop::Used => Ok(Taken {
                used: filled.used,
                whole: false,
            }),
            Stop::Whole => {
                self.is_complete = true;
                Ok(Taken {
                    used: filled.used,
                    whole: true,
                })
            }
            Stop::Full => {
                let line = line_after(&self.room[..self.len]);
                self.len = 0;
                self.ended = true;
                Err(SplitFault::TooLong { line })
            }
        }
    }

    /// The block that the last call completed, without the empty line after it; empty if that call completed none
    /// or failed.
    pub fn block(&self) -> &[u8]
        ensures { result.now ≡ self.now.block }
    {
        if !self.is_complete {
            return &[];
        }
        &self.room[..self.len]
    }

    /// Ends the input, and says whether its end completes a block.
    ///
    /// `Ended` comes after a block that was too long, and after `end`.
    pub fn end(&mut self) -> Result<bool, SplitFault>
        ensures ok { IfOk result (λ some. SplitEnds self.old some self.new) }
        ensures err { IfErr result (λ fault. HadEnded fault self.old self.new) }
    {
        self.let_go();
        if self.ended {
            return Err(SplitFault::Ended);
        }
        self.ended = true;
        self.is_complete = self.len != 0;
        Ok(self.is_complete)
    }

    /// Drops the complete block, if there is one.
    fn let_go(&mut self)
        ensures { self.new ≡ record self.old { block = [] } }
    {
        if self.is_complete {
            self.is_complete = false;
            self.len = 0;
            self.at_start = true;
        }
    }
}

/// The line of the byte after a text, counted from 1.
fn line_after(text: &[u8]) -> usize
    requires { length text.now ≤ most_bytes }
    ensures { result ≡ newline_count text.now + 1 }
{
    text.iter().filter(|b| **b == b'\n').count() + 1
}
