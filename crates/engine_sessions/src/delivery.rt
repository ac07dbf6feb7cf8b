//! Writing what a run says, and the resulting status.
//!
//! The messages go out before the answer, each as one text. A status under 3 says that all of both was written and
//! flushed; 3 that a device failed; 4 that memory ran out. A line on a failure is made of texts that are there
//! already, so that reporting it needs no memory.
ghost use Rattle.std.specs.Prelude.{◌≡◌, ◌<◌, ◌++◌, ◌∷◌, [], flat_map};
ghost use Rattle.text_bytes.specs.Escapes.{escape_text};
ghost use Rattle.text_bytes.specs.Names.{newline};
ghost use Rattle.engine_sessions.specs.Delivery.{Delivers, ReportsFailure, out_of_memory};

use crate::device::{DeviceFault, Sink};
use crate::writing::{hand_on, hand_on_each, hand_on_word};

const WRITE_FAILED: &[u8] = b"devdry: write failed\n";

const OUT_OF_MEMORY: &[u8] = b"devdry: out of memory\n";

/// Writes the messages and the answer, and returns the status that was asked for, or 3 if a device failed.
///
/// Messages go to `error`, and then the answer to `output`. If `output` fails, `devdry: write failed` goes to
/// `error`. The status asked for is under 3.
pub fn deliver<W: Sink, E: Sink>(
    messages: &[u8],
    answer: &[u8],
    status: u8,
    output: &mut W,
    error: &mut E,
) -> u8
    requires { status < 3 }
    ensures { Delivers (record { output = answer.now; messages = messages.now; status = status }) result
        (record { out = W.shown output.old; err = E.shown error.old })
        (record { out = W.shown output.new; err = E.shown error.new }) }
{
    if hand_on(error, messages).is_err() {
        return 3;
    }
    if hand_on(output, answer).is_err() {
        return report_failure(error, WRITE_FAILED, 3);
    }
    status
}

/// Writes messages that are made of several texts, and the answer, as `deliver` does with one text.
///
/// The status asked for is under 3.
pub fn deliver_in_pieces<W: Sink, E: Sink>(
    messages: &[&[u8]],
    answer: &[u8],
    status: u8,
    output: &mut W,
    error: &mut E,
) -> u8
    requires { status < 3 }
    ensures { Delivers (record { output = answer.now; messages = flat_map (λ t. t.now) messages.now; status = status }) result
        (record { out = W.shown output.old; err = E.shown error.old })
        (record { out = W.shown output.new; err = E.shown error.new }) }
{
    match hand_on_each(error, messages) {
        Ok(()) => match hand_on(output, answer) {
            Ok(()) => status,
            Err(DeviceFault) => report_failure(error, WRITE_FAILED, 3),
        },
        Err(DeviceFault) => 3,
    }
}

/// Reports that memory ran out, and returns the status for it, 4, or 3 if the error output failed.
pub fn report_out_of_memory<E: Sink>(error: &mut E) -> u8
    ensures { ReportsFailure out_of_memory 4 result (E.shown error.old) (E.shown error.new) }
{
    report_failure(error, OUT_OF_MEMORY, 4)
}

/// Writes a line on a failure, and returns its status, or 3 if the error output failed.
pub fn report_failure<E: Sink>(error: &mut E, line: &[u8], status: u8) -> u8
    ensures { ReportsFailure line.now status result (E.shown error.old) (E.shown error.new) }
{
    match hand_on(error, line) {
        Ok(()) => status,
        Err(DeviceFault) => 3,
    }
}

/// Writes a line on a failure that is made of several texts, and returns its status, or 3 if the error output
/// failed.
pub fn report_in_pieces<E: Sink>(error: &mut E, line: &[&[u8]], status: u8) -> u8
    ensures { ReportsFailure (flat_map (λ t. t.now) line.now) status result (E.shown error.old) (E.shown error.new) }
{
    match hand_on_each(error, line) {
        Ok(()) => status,
        Err(DeviceFault) => 3,
    }
}

/// Writes a line on a failure that is a text and a word, the word escaped, so that it can't end the line, and
/// returns its status, or 3 if the error output failed.
pub(crate) fn report_word<E: Sink>(error: &mut E, text: &[u8], word: &[u8], status: u8) -> u8
    ensures { ReportsFailure (text.now ++ escape_text word.now ++ newline ∷ []) status result
        (E.shown error.old) (E.shown error.new) }
{
    match hand_on_word(error, text, word) {
        Ok(()) => status,
        Err(DeviceFault) => 3,
    }
}
