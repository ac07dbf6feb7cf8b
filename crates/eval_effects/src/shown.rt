//! Texts as the lines of `--why` show them, and several of them in one line.
ghost use Rattle.std.specs.Prelude.{◌≡◌, ◌++◌, length, OnOk};
ghost use Rattle.text_bytes.specs.Escapes.{escape_text};
ghost use Rattle.eval_effects.specs.Shown.{is_quoted, joined, marked, shortened, shown, size_note};

use itoa::Buffer;
use std::alloc::{AllocError, Global};
use text_bytes::{Bytes, begins_with, ends_in, escape};

/// The most bytes of a text that are shown.
const MAX_SHOWN: usize = 200;

/// Appends how many bytes a text has of which the start was shown.
#[tactic(auto, unfolding(crate::specs::Shown::size_note))]
fn push_size(text: &mut Vec<u8>, about: &[u8]) -> Result<(), AllocError>
    ensures { OnOk result (text.new.items ≡ text.old.items ++ size_note (length about.now)) }
{
    text.extend_from_slice(b".. (")?;
    text.extend_from_slice(Buffer::new().format(about.len()).as_bytes())?;
    text.extend_from_slice(b" bytes)")
}

/// Appends an escaped text.
pub fn push_escaped(alloc: Global, text: &mut Vec<u8>, about: &[u8]) -> Result<(), AllocError>
    ensures { OnOk result (text.new.items ≡ text.old.items ++ escape_text about.now) }
{
    text.extend_from_slice(&escape(alloc, about)?)
}

/// Appends a text of a rule as it is between the quotes of its key: escaped, and if it has over 200 bytes the first
/// 200, and then `.. (N bytes)`.
pub fn push_shortened(alloc: Global, text: &mut Vec<u8>, about: &[u8]) -> Result<(), AllocError>
    ensures { OnOk result (text.new.items ≡ text.old.items ++ shortened about.now) }
{
    if about.len() > MAX_SHOWN {
        push_escaped(alloc, text, about.split_at(MAX_SHOWN).0)?;
        push_size(text, about)
    } else {
        push_escaped(alloc, text, about)
    }
}

/// Whether a text is shown between quotes: if it is empty, begins or ends with a space, or begins with a quote.
fn is_quoted(text: &[u8]) -> bool
    ensures { result ≡ is_quoted text.now }
{
    text.is_empty() || begins_with(b' ', text) || ends_in(b' ', text) || begins_with(b'"', text)
}

/// Appends a text that is shown whole: escaped, and between quotes if it has to be.
#[tactic(auto, unfolding(crate::specs::Shown::marked))]
fn push_marked(alloc: Global, text: &mut Vec<u8>, about: &[u8]) -> Result<(), AllocError>
    ensures { OnOk result (text.new.items ≡ text.old.items ++ marked about.now) }
{
    if !is_quoted(about) {
        return push_escaped(alloc, text, about);
    }
    text.push(b'"')?;
    push_escaped(alloc, text, about)?;
    text.push(b'"')?;
    Ok(())
}

/// Appends a text as it is shown: escaped, and if it has over 200 bytes the first 200, and then `.. (N bytes)`. What
/// is empty, begins or ends with a space, or begins with a quote is between quotes; so of a text that is shown with a
/// quote at its start, that one and the last byte are left out to read it back.
#[tactic(auto, unfolding(crate::specs::Shown::shown))]
pub fn push_shown(alloc: Global, text: &mut Vec<u8>, about: &[u8]) -> Result<(), AllocError>
    ensures { OnOk result (text.new.items ≡ text.old.items ++ shown about.now) }
{
    if about.len() > MAX_SHOWN {
        push_marked(alloc, text, about.split_at(MAX_SHOWN).0)?;
        push_size(text, about)
    } else {
        push_marked(alloc, text, about)
    }
}

/// Appends texts, with commas between them.
pub fn push_joined(text: &mut Vec<u8>, texts: &[Bytes]) -> Result<(), AllocError>
    ensures { OnOk result (text.new.items ≡ text.old.items ++ joined texts.now) }
{
    let Some((first, more)) = texts.split_first() else {
        return Ok(());
    };
    text.extend_from_slice(first.as_slice())?;
    for next in more {
        text.extend_from_slice(b", ")?;
        text.extend_from_slice(next.as_slice())?;
    }
    Ok(())
}
