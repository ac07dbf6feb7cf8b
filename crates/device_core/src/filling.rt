//! The bytes of a piece, put after those of a run that is not complete.
//!
//! What is to be held of a piece is copied at once, after its end was looked for.
ghost use Rattle.std.specs.Prelude.{◌≡◌, ℕ, ◌+◌, ◌-◌, ◌^◌, ◌≤◌, ◌<◌, [], ◌++◌, length, take};
ghost use Rattle.device_core.specs.Runs.{complete_runs};
ghost use Rattle.device_core.specs.Holding.{IsPending};
ghost use Rattle.device_core.specs.Filling.{taken, used_by, Fills, FillsBy};

use crate::run_ends::run_length;

/// Why filling stopped.
#[derive(Clone, Copy)]
pub(crate) enum Stop {
    /// The piece is used up.
    Used,
    /// A run is complete.
    Whole,
    /// A run is longer than the room has bytes.
    Full,
}

/// How far filling came.
#[derive(Clone, Copy)]
pub(crate) struct Filled {
    /// How many bytes of the piece were used.
    pub(crate) used: usize,
    /// How many bytes of the room are held.
    pub(crate) len: usize,
    /// Whether a line begins after them.
    pub(crate) at_start: bool,
    pub(crate) stop: Stop,
}

/// How far going over a piece came: what is to be held of it, which is not copied yet, and why it stopped.
#[derive(Clone, Copy)]
struct Scanned {
    /// Where the bytes to be held begin.
    start: usize,
    /// Where they end.
    end: usize,
    /// Whether a line begins after them.
    at_start: bool,
    stop: Stop,
}

/// How many bytes of a piece were used, if those to be held end at this place: the newline of the empty line after a
/// complete run is used, too.
fn used_by(stop: Stop, end: usize) -> usize
    requires { end < 2 ^ 63 }
    ensures { result ≡ used_by stop end }
{
    match stop {
        Stop::Whole => end + 1,
        Stop::Used | Stop::Full => end,
    }
}

/// Goes over a piece up to the end of the run that begins with the pending bytes, if these fit a room of this size.
fn scan(pending: &[u8], room: usize, begins: bool, piece: &[u8]) -> Scanned
    requires within { length pending.now ≤ room }
    requires pending { IsPending pending.now begins }
    ensures held { result.start ≤ result.end × result.end ≤ length piece.now }
    ensures len { length pending.now + (result.end - result.start) ≤ room }
    ensures used { used_by result.stop result.end ≤ length piece.now }
    ensures before { (n : ℕ) → n < used_by result.stop result.end → complete_runs (pending.now ++ take n piece.now) ≡ [] }
    ensures scans { FillsBy result.stop pending.now piece.now (used_by result.stop result.end) result.at_start (pending.now
        ++ taken piece.now result.start result.end) room }
{
    let mut start = 0;
    let mut end = 0;
    let mut at_start = begins;
    let mut stop = Stop::Used;
    while end < piece.len() {
        let len = pending.len() + (end - start);
        let empty_line = at_start & (piece[end] == b'\n');
        if empty_line {
            if len != 0 {
                stop = Stop::Whole;
                break;
            }
            end += 1;
            start = end;
        } else {
            let run = run_length(&piece[end..]);
            let free = room - len;
            if free < run {
                end += free;
                stop = Stop::Full;
                break;
            }
            end += run;
            at_start = piece[end - 1] == b'\n';
        }
    }
    Scanned {
        start,
        end,
        at_start,
        stop,
    }
}

/// Puts the bytes of a piece after the first `held` of the room, up to the end of a run.
pub(crate) fn fill(room: &mut [u8], held: usize, begins: bool, piece: &[u8]) -> Filled
    requires within { held ≤ length room.old }
    requires pending { IsPending (take held room.old) begins }
    ensures used { result.used ≤ length piece.now }
    ensures len { result.len ≤ length room.new }
    ensures room { length room.new ≡ length room.old }
    ensures before { (n : ℕ) → n < result.used → complete_runs (take held room.old ++ take n piece.now) ≡ [] }
    ensures fills { Fills (take held room.old) piece.now result room.new }
{
    let size = room.len();
    let scanned = scan(&room[..held], size, begins, piece);
    let more = &piece[scanned.start..scanned.end];
    put_at(room, held, more);
    Filled {
        used: used_by(scanned.stop, scanned.end),
        len: held + more.len(),
        at_start: scanned.at_start,
        stop: scanned.stop,
    }
}

/// Writes bytes over those of a room, from a place on.
fn put_at(room: &mut [u8], place: usize, bytes: &[u8])
    requires { place + length bytes.now ≤ length room.old }
    ensures len { length room.new ≡ length room.old }
    ensures held { take (place + length bytes.now) room.new ≡ take place room.old ++ bytes.now }
{
    room[place..place + bytes.len()].copy_from_slice(bytes);
}
