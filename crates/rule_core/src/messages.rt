//! What is found in the lines of a file, as messages: without places, and with the first bytes of their words.
ghost use Rattle.std.specs.Prelude.{◌≡◌, ◌∷◌, ◌++◌, [], OnOk, map};
ghost use Rattle.rule_core.specs.Rules.{message_at, open_messages};

use crate::spot::whole_spot;
use file_messages::{Message, MessageKind};
use rule_types::Spot;
use std::alloc::{AllocError, Global};
use text_bytes::Bytes;

/// A line of a file.
#[derive(Clone, Copy)]
pub(crate) struct Place<'a> {
    /// The file's name.
    pub file: &'a [u8],
    /// The line's number.
    pub line: u32,
}

/// Adds a message about a line, which keeps the first 32 bytes of the word of what is found.
pub(crate) fn report(
    alloc: Global,
    messages: &mut Vec<Message>,
    place: Place<'_>,
    found: Spot<MessageKind>,
) -> Result<(), AllocError>
    ensures { OnOk result (messages.new.items ≡ messages.old.items ++ message_at place.entry.file.now place.entry.line found ∷ []) }
{
    let Spot { kind, word, .. } = found;
    let mut word = word.into_vec();
    word.truncate(32);
    messages.push(Message {
        file: Bytes::copy_of(alloc, place.file)?,
        line: place.line,
        kind,
        word: Bytes::new(word),
    })?;
    Ok(())
}

/// Adds a message about a line for each of its findings.
pub(crate) fn report_all(
    alloc: Global,
    messages: &mut Vec<Message>,
    place: Place<'_>,
    findings: Vec<Spot<MessageKind>>,
) -> Result<(), AllocError>
    ensures { OnOk result (messages.new.items ≡ messages.old.items ++ map (message_at place.entry.file.now place.entry.line) findings.items) }
{
    for found in findings {
        report(alloc, messages, place, found)?;
    }
    Ok(())
}

/// Adds a message about a line that is still open at its file's end, if there is such a line.
pub(crate) fn report_open(
    alloc: Global,
    messages: &mut Vec<Message>,
    file: &[u8],
    open_at: Option<u32>,
) -> Result<(), AllocError>
    ensures { OnOk result (messages.new.items ≡ messages.old.items ++ open_messages file.now open_at) }
{
    match open_at {
        None => Ok(()),
        Some(line) => {
            let place = Place { file, line };
            let found = whole_spot(alloc, MessageKind::OpenAtEnd, &[]);
            report(alloc, messages, place, found)
        }
    }
}
