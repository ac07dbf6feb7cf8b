//! Messages as lines.
ghost use Rattle.std.specs.Prelude.{◌≡◌, ◌++◌, IfOk, OnOk};
ghost use Rattle.engine_reports.specs.Messages.{message_line, message_lines};
ghost use Rattle.engine_reports.specs.Openings.{without_style};

use engine_sessions::{push_place, push_word};
use file_catalogue::Remark;
use file_messages::Message;
use std::alloc::{AllocError, Global};

/// The lines of messages, in the order given.
pub(crate) fn message_lines(alloc: Global, messages: &[Message]) -> Result<Vec<u8>, AllocError>
    ensures { IfOk result (λ text. text.items ≡ message_lines messages.now) }
{
    let mut text = Vec::new(alloc);
    for message in messages {
        push_message(alloc, &mut text, message)?;
    }
    Ok(text)
}

/// The lines of those messages that are not about style, in the order given.
pub(crate) fn plain_message_lines(
    alloc: Global,
    messages: &[Message],
) -> Result<Vec<u8>, AllocError>
    ensures { IfOk result (λ text. text.items ≡ message_lines (without_style messages.now)) }
{
    let mut text = Vec::new(alloc);
    for message in messages {
        if !message.kind.is_style() {
            push_message(alloc, &mut text, message)?;
        }
    }
    Ok(text)
}

/// Appends a message's line.
#[tactic(auto, unfolding(crate::specs::Messages::message_line))]
fn push_message(alloc: Global, text: &mut Vec<u8>, message: &Message) -> Result<(), AllocError>
    ensures { OnOk result (text.new.items ≡ text.old.items ++ message_line message.now) }
{
    push_place(alloc, text, message.file.as_slice(), message.line)?;
    Remark::Message(message.kind).push_heading(text)?;
    push_word(alloc, text, message.word.as_slice())?;
    text.push(b'\n')?;
    Ok(())
}
