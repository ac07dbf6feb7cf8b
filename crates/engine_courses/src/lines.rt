//! One line of `--why`, and the lines on a rule.
ghost use Rattle.std.specs.Prelude.{◌≡◌, ◌++◌, Some, IfOk, OnOk, option_map};
ghost use Rattle.engine_courses.specs.WhyLines.{passed_texts, rule_lines, unread_text, why_line};

use engine_sessions::{push_place, push_word};
use eval_effects::push_rule;
use file_catalogue::Remark;
use file_messages::Message;
use rule_types::Rule;
use std::alloc::{AllocError, Global};
use text_bytes::Bytes;

/// Adds a line of `--why`.
#[tactic(auto, unfolding(crate::specs::WhyLines::why_line))]
fn push_line(
    alloc: Global,
    lines: &mut Vec<u8>,
    file: &[u8],
    line: u32,
    text: &[u8],
) -> Result<(), AllocError>
    ensures { OnOk result (lines.new.items ≡ lines.old.items ++ why_line file.now line text.now) }
{
    lines.extend_from_slice(b"why ")?;
    push_place(alloc, lines, file, line)?;
    lines.extend_from_slice(text)?;
    lines.push(b'\n')?;
    Ok(())
}

/// The `why` text about a line of rules that was not read.
#[tactic(auto, unfolding(crate::specs::WhyLines::unread_text))]
fn unread_text(alloc: Global, message: &Message) -> Result<Vec<u8>, AllocError>
    ensures { IfOk result (λ text. text.items ≡ unread_text message.now) }
{
    let mut text = Vec::from_slice(alloc, b"not read: ")?;
    Remark::Message(message.kind).push_heading(&mut text)?;
    push_word(alloc, &mut text, message.word.as_slice())?;
    Ok(text)
}

/// Adds the line on a message whose line was not read.
pub(crate) fn push_unread(
    alloc: Global,
    lines: &mut Vec<u8>,
    message: &Message,
) -> Result<(), AllocError>
    ensures { OnOk result (lines.new.items ≡ lines.old.items ++ why_line message.now.file message.now.line (unread_text message.now)) }
{
    let text = unread_text(alloc, message)?;
    push_line(alloc, lines, message.file.as_slice(), message.line, &text)
}

/// Adds the line on a rule that the jump of another one skips.
fn push_passed_by(
    alloc: Global,
    lines: &mut Vec<u8>,
    jumping: &Rule,
    rule: &Rule,
) -> Result<(), AllocError>
    ensures { OnOk result (lines.new.items ≡ lines.old.items ++ rule_lines (rule.now, passed_texts (Some jumping.now))) }
{
    let mut text = Vec::from_slice(alloc, b"passed over by GOTO of ")?;
    push_rule(alloc, &mut text, jumping)?;
    push_line(alloc, lines, rule.file(), rule.line, &text)
}

/// Adds the line on a rule that is skipped, if a rule jumps.
pub(crate) fn push_passed(
    alloc: Global,
    lines: &mut Vec<u8>,
    jumping: Option<&Rule>,
    rule: &Rule,
) -> Result<(), AllocError>
    ensures { OnOk result (lines.new.items ≡ lines.old.items ++ rule_lines (rule.now, passed_texts (option_map (λ r. r.now) jumping.entry))) }
{
    match jumping {
        Some(jumping) => push_passed_by(alloc, lines, jumping, rule),
        None => Ok(()),
    }
}

/// Adds a line on a rule for each text.
pub(crate) fn push_course(
    alloc: Global,
    lines: &mut Vec<u8>,
    rule: &Rule,
    texts: &[Bytes],
) -> Result<(), AllocError>
    ensures { OnOk result (lines.new.items ≡ lines.old.items ++ rule_lines (rule.now, texts.now)) }
{
    for text in texts {
        push_line(alloc, lines, rule.file(), rule.line, text.as_slice())?;
    }
    Ok(())
}
