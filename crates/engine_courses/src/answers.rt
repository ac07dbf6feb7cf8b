//! The lines after the answer to an event.
ghost use Rattle.std.specs.Prelude.{◌≡◌, ◌++◌, OnOk, map};
ghost use Rattle.engine_courses.specs.Asked.{unread};
ghost use Rattle.engine_courses.specs.WhyLines.{unread_lines, why_lines};

use crate::asked::is_unread;
use crate::lines::push_unread;
use crate::reporting::reported_lines;
use builtin_devices::Knowledge;
use device_core::{Event, tried};
use file_messages::Message;
use rule_core::ReadRules;
use rule_types::Rule;
use std::alloc::{AllocError, Global};

/// Adds the lines on the messages about lines that are asked for and were not read.
#[tactic(auto, unfolding(crate::specs::Asked::unread))]
fn push_unread_lines(
    alloc: Global,
    lines: &mut Vec<u8>,
    why: &[&str],
    messages: &[Message],
    rules: &[Rule],
) -> Result<(), AllocError>
    ensures { OnOk result (lines.new.items ≡ lines.old.items ++ unread_lines (unread (map (λ t. t.now) why.now) messages.now rules.now)) }
{
    for message in messages {
        if is_unread(why, message, rules) {
            push_unread(alloc, lines, message)?;
        }
    }
    Ok(())
}

/// Adds the lines of `--why` after the lines of an answer: on each line that is asked for and was not read, what
/// the message about it says; then on each rule that is asked for, in the order of evaluation, which rule's GOTO
/// skips it, or what each of its keys found and how the rule ended, as `eval_courses` reports it. Rules that are
/// not asked for have no line.
///
/// The rules are evaluated once more for this, as for the answer, unless nothing is asked for. Fails if memory runs out; the lines
/// added until then stay.
#[tactic(auto, unfolding(crate::specs::WhyLines::why_lines))]
pub fn push_why_lines<K: Knowledge>(
    alloc: Global,
    lines: &mut Vec<u8>,
    why: &[&str],
    rules: &ReadRules,
    event: &Event<'_>,
    knowledge: &K,
) -> Result<(), AllocError>
    ensures { OnOk result (lines.new.items ≡ lines.old.items ++ why_lines (map (λ t. t.now) why.now) rules.now.messages rules.now.rules
        (K.known knowledge.now) event.now) }
{
    if why.is_empty() {
        return Ok(());
    }
    push_unread_lines(alloc, lines, why, rules.messages(), rules.rules().rules())?;
    let given = tried(event, rules.rules().rules());
    lines.extend_from_slice(&reported_lines(alloc, why, given, event, knowledge)?)
}
