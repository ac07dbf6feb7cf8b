//! The answer of `--questions` to an event.
ghost use Rattle.std.specs.Prelude.{◌≡◌, ◌++◌, IfOk, OnOk};
ghost use Rattle.engine_courses.specs.Questions.{question_answer, question_line, question_lines};

use builtin_devices::Knowledge;
use device_core::{Event, tried};
use engine_sessions::push_event;
use eval_courses::questions;
use rule_types::RuleSet;
use std::alloc::{AllocError, Global};
use text_bytes::Bytes;
use text_tables::OwnedTexts;

/// Puts the line that asks a command after others.
fn push_question(lines: &mut Vec<u8>, command: &[u8]) -> Result<(), AllocError>
    ensures { OnOk result (lines.new.items ≡ lines.old.items ++ question_line command.now) }
{
    lines.extend_from_slice(b"Q: ")?;
    lines.extend_from_slice(command)?;
    lines.push(b'\n')?;
    Ok(())
}

/// Puts the lines that ask commands after others.
fn push_questions(lines: &mut Vec<u8>, commands: &OwnedTexts) -> Result<(), AllocError>
    ensures { OnOk result (lines.new.items ≡ lines.old.items ++ question_lines commands.now) }
{
    for command in commands.as_slice() {
        push_question(lines, command)?;
    }
    Ok(())
}

/// The answer of `--questions` to an event: the line `event ACTION PATH`, then `Q: COMMAND` for each command that rules
/// ask and the event's block does not answer, as `questions` gives them, and an empty line. The commands are as a block
/// has them, not escaped; with a line `R: STATUS TEXT` after each, the lines can be put at the end of the block.
#[tactic(auto, unfolding(crate::specs::Questions::question_answer))]
pub fn question_answer<K: Knowledge>(
    alloc: Global,
    rules: &RuleSet,
    event: &Event<'_>,
    knowledge: &K,
) -> Result<Bytes, AllocError>
    ensures { IfOk result (λ text. text ≡ question_answer rules.now (K.known knowledge.now) event.now) }
{
    let asked = questions(alloc, tried(event, rules.rules()), event, knowledge)?;
    let mut lines = Vec::new(alloc);
    push_event(alloc, &mut lines, event.action(), event.device().path())?;
    push_questions(&mut lines, &asked)?;
    lines.push(b'\n')?;
    Ok(Bytes::new(lines))
}
