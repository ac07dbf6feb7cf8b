//! How to fix what a diagnostic is about, where its text tells more than its code.
//!
//! Some characters are not seen in an editor, or look like others. A message that begins with one names it. An unknown
//! name may have been meant as a known one; then the sentence asks so.
ghost use Rattle.std.specs.Prelude.{◌≡◌, ◌++◌, OnOk};
ghost use Rattle.engine_formats.specs.Diagnostics.{shown};
ghost use Rattle.engine_formats.specs.Hints.{advice_by, advice_for, advice_on_comma, advice_on_text, is_at_end, question};

use crate::diagnostic::Diagnostic;
use crate::meant::meant_as;
use file_catalogue::Remark;
use file_messages::MessageKind;
use std::alloc::{AllocError, Global};
use text_bytes::begins_with;

/// U+FEFF in UTF-8.
const BYTE_ORDER_MARK: &[u8] = b"\xEF\xBB\xBF";

/// U+00A0 in UTF-8.
const NO_BREAK_SPACE: &[u8] = b"\xC2\xA0";

const SAVE_WITHOUT_MARK: &[u8] =
    b"The file begins with a byte order mark, which an editor does not show: save it as UTF-8 without one.";

const WRITE_A_SPACE: &[u8] = b"Here is a no-break space, which looks like a space: write a space.";

const SAVE_WITH_LF: &[u8] = b"The line ends in CR LF, as on Windows: save the file with LF alone.";

const BACKSLASH_MISSING: &[u8] =
    b"Remove the comma at the end, or write a backslash after it if the rule goes on in the next line.";

/// Appends how to fix what a diagnostic is about, in one sentence: a question if a known name may have been meant.
pub fn push_advice_for(
    alloc: Global,
    text: &mut Vec<u8>,
    diagnostic: &Diagnostic<'_>,
) -> Result<(), AllocError>
    ensures { OnOk result (text.new.items ≡ text.old.items ++ advice_for (shown diagnostic.now)) }
{
    match meant_as(alloc, diagnostic.remark, diagnostic.word.as_slice())? {
        Some(name) => push_question(text, name),
        None => text.extend_from_slice(advice_by(diagnostic)),
    }
}

/// Appends the question whether a name was meant.
fn push_question(text: &mut Vec<u8>, name: &[u8]) -> Result<(), AllocError>
    ensures { OnOk result (text.new.items ≡ text.old.items ++ question name.now) }
{
    text.extend_from_slice(b"Did you mean ")?;
    text.extend_from_slice(name)?;
    text.push(b'?')?;
    Ok(())
}

/// The sentence on a diagnostic if no known name is near.
fn advice_by(diagnostic: &Diagnostic<'_>) -> &'static [u8]
    ensures { result.now ≡ advice_by diagnostic.now.remark (shown diagnostic.now) }
{
    let advice = diagnostic.remark.advice();
    match diagnostic.remark {
        Remark::Message(MessageKind::BadSyntax) => {
            advice_on_text(advice, diagnostic.word.as_slice())
        }
        Remark::Message(MessageKind::CommaExpected) => {
            advice_on_comma(advice, is_at_end(diagnostic))
        }
        _ => advice,
    }
}

/// The sentence on a text that is no part of a rule, by what it begins with.
fn advice_on_text(otherwise: &'static [u8], word: &[u8]) -> &'static [u8]
    ensures { result.now ≡ advice_on_text otherwise.now word.now }
{
    if word.starts_with(BYTE_ORDER_MARK) {
        SAVE_WITHOUT_MARK
    } else if word.starts_with(NO_BREAK_SPACE) {
        WRITE_A_SPACE
    } else if begins_with(b'\r', word) {
        SAVE_WITH_LF
    } else {
        otherwise
    }
}

/// The sentence on a comma, by whether it ends its line.
fn advice_on_comma(otherwise: &'static [u8], at_end: bool) -> &'static [u8]
    ensures { result.now ≡ advice_on_comma otherwise.now at_end }
{
    if at_end { BACKSLASH_MISSING } else { otherwise }
}

/// Whether the place of a diagnostic goes to the end of its line.
fn is_at_end(diagnostic: &Diagnostic<'_>) -> bool
    ensures { result ≡ is_at_end (shown diagnostic.now) }
{
    diagnostic.end as usize == diagnostic.source.len() + 1
}
