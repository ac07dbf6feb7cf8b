//! What an act asks.
ghost use Rattle.std.specs.Prelude.{◌≡◌, OnOk};
ghost use Rattle.eval_rendering.specs.declared.rendered.Rendered.TheVariants as rendered;
ghost use Rattle.eval_courses.specs.Questions.{act_asks, builtin_asks, import_asks, unanswered, with_asked};

use crate::commands::can_be_asked;
use device_core::Event;
use eval_acts::{import_text, program_text};
use eval_commands::{Builtin, builtin_question};
use eval_rendering::{MAX_COMMAND_BYTES, Rendered};
use eval_state::State;
use rule_types::{ActKind, Import};
use std::alloc::{AllocError, Global};
use text_bytes::Profile;
use text_tables::OwnedTexts;

/// Adds a command to those that are asked, unless the event's block answers it or no line can have it.
fn ask_command(
    alloc: Global,
    command: &[u8],
    event: &Event<'_>,
    asked: &mut OwnedTexts,
) -> Result<(), AllocError>
    ensures { OnOk result (asked.new ≡ with_asked asked.old (unanswered event.now (rendered.Text command.now))) }
{
    if event.programs().get(command).is_some() {
        return Ok(());
    }
    if !can_be_asked(command) {
        return Ok(());
    }
    asked.add(alloc, command)
}

/// Adds a rendered command, unless it is too long.
fn ask_rendered(
    alloc: Global,
    text: &Rendered,
    event: &Event<'_>,
    asked: &mut OwnedTexts,
) -> Result<(), AllocError>
    ensures { OnOk result (asked.new ≡ with_asked asked.old (unanswered event.now text.now)) }
{
    match text {
        Rendered::Text(command) => ask_command(alloc, command.as_slice(), event, asked),
        Rendered::TooLong => Ok(()),
    }
}

/// Adds what the command of a builtin asks under udev: its question, if the builtin is not computed.
fn ask_builtin(
    alloc: Global,
    text: &Rendered,
    event: &Event<'_>,
    asked: &mut OwnedTexts,
) -> Result<(), AllocError>
    ensures { OnOk result (asked.new ≡ with_asked asked.old (builtin_asks event.now text.now)) }
{
    let Rendered::Text(command) = text else {
        return Ok(());
    };
    match Builtin::read(alloc, Profile::Udev, command.as_slice())? {
        Builtin::Answered(_) => {
            let question = builtin_question(alloc, command.as_slice())?;
            ask_command(alloc, question.as_slice(), event, asked)
        }
        _ => Ok(()),
    }
}

/// Adds what an IMPORT asks.
fn ask_import(
    alloc: Global,
    from: &Import,
    state: &State<'_>,
    asked: &mut OwnedTexts,
) -> Result<(), AllocError>
    ensures { OnOk result (asked.new ≡ with_asked asked.old (import_asks state.now.event.profile from.now state.now)) }
{
    let event = state.event.event();
    match (event.profile(), from) {
        (Profile::Udev, Import::Builtin(template)) => {
            let text = import_text(alloc, MAX_COMMAND_BYTES, template, state)?;
            ask_builtin(alloc, &text, event, asked)
        }
        (Profile::Udev, Import::Program(template)) => {
            let text = import_text(alloc, MAX_COMMAND_BYTES, template, state)?;
            ask_rendered(alloc, &text, event, asked)
        }
        _ => Ok(()),
    }
}

/// Adds what an act asks to what was asked before. The state is the same before and after.
pub(crate) fn ask(
    alloc: Global,
    act_kind: &ActKind,
    state: &mut State<'_>,
    asked: &mut OwnedTexts,
) -> Result<(), AllocError>
    ensures asked { OnOk result (asked.new ≡ with_asked asked.old (act_asks act_kind.now state.old)) }
    ensures kept { state.new ≡ state.old }
{
    match act_kind {
        ActKind::Test(_, _) => Ok(()),
        ActKind::Program(template) => {
            let text = program_text(alloc, template, state)?;
            ask_rendered(alloc, &text, state.event.event(), asked)
        }
        ActKind::Import(from) => ask_import(alloc, from, state, asked),
    }
}
