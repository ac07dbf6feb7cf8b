//! Reads an input whole.
ghost use Rattle.std.specs.Prelude.{◌≡◌, IfErr, IfOk};
ghost use Rattle.devdry_files.specs.Pieces.{Adds, AddsNot};
ghost use Rattle.devdry_files.specs.Whole.{ReadsNot, ReadsWhole};
ghost use Rattle.devdry_files.specs.declared.input_reading.InputFault.TheVariants.{Memory};

use engine_sessions::{DeviceFault, Source};
use std::alloc::{AllocError, Global};
use text_bytes::Bytes;

/// The most bytes of a read.
const MAX_READ: usize = 4096;

/// The most reads of one input.
const MAX_TURNS: u64 = 1 << 48;

/// Why an input was not read whole.
#[derive(Clone, Copy, Debug, PartialEq, Eq)]
pub enum InputFault {
    /// A read failed, or the input did not end within 2^48 reads.
    Read,
    /// Memory ran out.
    Memory,
}

impl From<AllocError> for InputFault {
    ghost from_gives = { λ _ fault. fault ≡ Memory };

    fn from(_error: AllocError) -> InputFault {
        InputFault::Memory
    }
}

/// Makes one read of at most 4,096 bytes, and adds what it gives to a text. Says whether the input goes on.
fn read_piece<I: Source>(
    alloc: Global,
    input: &mut I,
    text: &mut Vec<u8>,
) -> Result<bool, InputFault>
    ensures more { IfOk result (λ more. Adds more text.old.items text.new.items (I.shown input.old) (I.shown input.new)) }
    ensures fault { IfErr result (λ fault. AddsNot fault (I.shown input.old) (I.shown input.new)) }
{
    let mut piece = [0u8; MAX_READ];
    match input.read(&mut piece) {
        Ok(0) => Ok(false),
        Ok(len) => {
            text.extend_from_slice(&piece[..len])?;
            Ok(true)
        }
        Err(DeviceFault) => Err(InputFault::Read),
    }
}

/// Reads an input to its end, and returns all its bytes.
///
/// `InputFault::Read` means that a read failed, or that the input did not end within 2^48 reads; `InputFault::Memory` that
/// memory ran out.
pub fn read_whole<I: Source>(alloc: Global, input: &mut I) -> Result<Bytes, InputFault>
    ensures whole { IfOk result (λ bytes. ReadsWhole (I.shown input.old) bytes (I.shown input.new)) }
    ensures fault { IfErr result (λ fault. ReadsNot fault (I.shown input.old) (I.shown input.new)) }
{
    let mut text = Vec::new(alloc);
    for _made in 0..MAX_TURNS {
        let more = read_piece(alloc, input, &mut text)?;
        if !more {
            return Ok(Bytes::new(text));
        }
    }
    Err(InputFault::Read)
}
