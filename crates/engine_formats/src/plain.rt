//! Diagnostics as messages are written by default.
ghost use Rattle.std.specs.Prelude.{◌≡◌, ◌++◌, map, flat_map, IfOk, OnOk};
ghost use Rattle.engine_formats.specs.Diagnostics.{shown};
ghost use Rattle.engine_formats.specs.Lines.{plain_line};

use crate::diagnostic::Diagnostic;
use engine_sessions::{push_place, push_word};
use std::alloc::{AllocError, Global};
use text_bytes::word_of;

/// The lines of diagnostics, in the order given.
pub(crate) fn plain_lines(
    alloc: Global,
    diagnostics: &[Diagnostic<'_>],
) -> Result<Vec<u8>, AllocError>
    ensures { IfOk result (λ text. text.items ≡ flat_map plain_line (map shown diagnostics.now)) }
{
    let mut text = Vec::new(alloc);
    for diagnostic in diagnostics {
        push_plain_line(alloc, &mut text, diagnostic)?;
    }
    Ok(text)
}

/// Appends `NAME:LINE: V6 bad substitution: WORD` and a newline, with the first line of the rule and the first 32
/// bytes of the word.
#[tactic(auto, unfolding(crate::specs::Lines::plain_line))]
fn push_plain_line(
    alloc: Global,
    text: &mut Vec<u8>,
    diagnostic: &Diagnostic<'_>,
) -> Result<(), AllocError>
    ensures { OnOk result (text.new.items ≡ text.old.items ++ plain_line (shown diagnostic.now)) }
{
    push_place(alloc, text, diagnostic.name, diagnostic.begins)?;
    diagnostic.remark.push_heading(text)?;
    push_word(alloc, text, word_of(diagnostic.word.as_slice()))?;
    text.push(b'\n')?;
    Ok(())
}
