//! Why something can't be read.
ghost use Rattle.std.specs.Prelude.{◌≡◌, ◌++◌, OnOk};
ghost use Rattle.devdry_folders.specs.Unread.{advice_lines};
ghost use Rattle.text_bytes.specs.Escapes.{escape_text};
ghost use Rattle.devdry_folders.specs.Reasons.{advice_on, reason_text, wrong_by};

use std::alloc::{AllocError, Global};
use text_bytes::{Bytes, escape};

/// Why something can't be read.
#[derive(Drop)]
pub enum Reason {
    /// 1: nothing is there.
    Absent,
    /// 2: whoever runs the program may not read it.
    Forbidden,
    /// 3: there is a symlink that leads to nothing: its target, as it is written.
    LinkToNothing(Bytes),
    /// 4: what is there is not a folder.
    NotFolder,
    /// 5: what is there is neither a folder nor a regular file, such as a FIFO, or it would be below a file.
    NotRegular,
    /// 6: a folder has a name that is not UTF-8.
    NotUtf8,
    /// 7: the system failed to read it, such as when a symlink leads to itself.
    Failed,
}

/// Appends a front and a word, with the word escaped.
pub fn push_escaped(
    alloc: Global,
    text: &mut Vec<u8>,
    prefix: &[u8],
    word: &[u8],
) -> Result<(), AllocError>
    ensures { OnOk result (text.new.items ≡ text.old.items ++ (prefix.now ++ escape_text word.now)) }
{
    text.extend_from_slice(prefix)?;
    text.extend_from_slice(&escape(alloc, word)?)
}

/// Appends a reason, in words.
pub(crate) fn push_reason(
    alloc: Global,
    text: &mut Vec<u8>,
    reason: &Reason,
) -> Result<(), AllocError>
    ensures { OnOk result (text.new.items ≡ text.old.items ++ reason_text reason.now) }
{
    match reason {
        Reason::Absent => text.extend_from_slice(b"no such file"),
        Reason::Forbidden => text.extend_from_slice(b"permission denied"),
        Reason::LinkToNothing(target) => {
            push_escaped(alloc, text, b"link to nothing: ", target.as_slice())
        }
        Reason::NotFolder => text.extend_from_slice(b"not a folder"),
        Reason::NotRegular => text.extend_from_slice(b"not a regular file"),
        Reason::NotUtf8 => text.extend_from_slice(b"a name is not UTF-8"),
        Reason::Failed => text.extend_from_slice(b"input/output error"),
    }
}

/// Appends what is wrong, in a sentence.
fn push_wrong(alloc: Global, text: &mut Vec<u8>, reason: &Reason) -> Result<(), AllocError>
    ensures { OnOk result (text.new.items ≡ text.old.items ++ wrong_by reason.now) }
{
    match reason {
        Reason::Absent => text.extend_from_slice(b"There is no such file."),
        Reason::Forbidden => text.extend_from_slice(
            b"Permission is denied by the mode of the file, or of a folder on the way to it.",
        ),
        Reason::LinkToNothing(target) => push_escaped(
            alloc,
            text,
            b"It is a link, and there is nothing at ",
            target.as_slice(),
        ),
        Reason::NotFolder => text.extend_from_slice(
            b"It is not a folder, and files are read from a folder here.",
        ),
        Reason::NotRegular => text.extend_from_slice(
            b"It is not a regular file, but a folder, a pipe, a socket or a device, or it would be below a file.",
        ),
        Reason::NotUtf8 => text.extend_from_slice(b"It is a folder in which a name is not UTF-8."),
        Reason::Failed => text.extend_from_slice(
            b"The system gives an input/output error, as for links that lead in a circle.",
        ),
    }
}

/// What to do about it, in a sentence.
fn advice_on(reason: &Reason) -> &'static [u8]
    ensures { result.now ≡ advice_on reason.now }
{
    match reason {
        Reason::Absent => b"Check the path, letter by letter and from its first folder on.",
        Reason::Forbidden => b"Run devdry as a user who may read it, or change the mode.",
        Reason::LinkToNothing(_) =>
            b"Remove the link, or make what it leads to; a link to /dev/null masks a file.",
        Reason::NotFolder => b"Remove it, or make a folder in its place.",
        Reason::NotRegular =>
            b"Give the path of a file; with --all a folder can be named, whose files are read.",
        Reason::NotUtf8 => b"Give the file with this name another one.",
        Reason::Failed =>
            b"Look at the path with ls -lL, and at what the kernel says about its disk.",
    }
}

/// Appends the two lines for people on a reason: what is wrong, and what to do about it.
pub(crate) fn push_advice(
    alloc: Global,
    text: &mut Vec<u8>,
    reason: &Reason,
) -> Result<(), AllocError>
    ensures { OnOk result (text.new.items ≡ text.old.items ++ advice_lines reason.now) }
{
    text.extend_from_slice(b"  ")?;
    push_wrong(alloc, text, reason)?;
    text.extend_from_slice(b"\n  = ")?;
    text.extend_from_slice(advice_on(reason))?;
    text.push(b'\n')?;
    Ok(())
}
