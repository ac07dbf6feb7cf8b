//! A command, and what the event's block answers to it.
ghost use Rattle.std.specs.Prelude.{◌≡◌, ◌++◌, IfOk, OnOk, option_copied};
ghost use Rattle.text_tables.specs.Pairs.{value_of};
ghost use Rattle.eval_courses.specs.Acts.{answer_report, spaced};

use device_core::ProgramAnswer;
use eval_effects::{push_escaped, push_shown};
use eval_state::State;
use itoa::Buffer;
use std::alloc::{AllocError, Global};

/// What the event's block answers to a command.
pub(crate) fn answer_to<'a>(state: &State<'a>, command: &[u8]) -> Option<&'a ProgramAnswer<'a>>
    ensures { option_copied result ≡ value_of state.now.event.programs command.now }
{
    state.event.event().programs().get(command)
}

/// Puts what a program wrote after a text.
fn push_spaced(alloc: Global, text: &mut Vec<u8>, written: &[u8]) -> Result<(), AllocError>
    ensures { OnOk result (text.new.items ≡ text.old.items ++ spaced written.now) }
{
    if written.is_empty() {
        return Ok(());
    }
    text.push(b' ')?;
    push_shown(alloc, text, written)
}

/// A command and the answer to it, or that there is none.
pub(crate) fn answer_report(
    alloc: Global,
    command: &[u8],
    answer: Option<&ProgramAnswer<'_>>,
) -> Result<Vec<u8>, AllocError>
    ensures { IfOk result (λ text. text.items ≡ answer_report command.now (option_copied answer.entry)) }
{
    let mut text = Vec::new(alloc);
    match answer {
        Some(answer) => {
            push_escaped(alloc, &mut text, command)?;
            text.extend_from_slice(b" answers ")?;
            text.extend_from_slice(Buffer::new().format(answer.status()).as_bytes())?;
            push_spaced(alloc, &mut text, answer.text())?;
        }
        None => {
            text.extend_from_slice(b"no answer for ")?;
            push_escaped(alloc, &mut text, command)?;
        }
    }
    Ok(text)
}
