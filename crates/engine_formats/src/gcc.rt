//! Diagnostics as compilers write them, which editors read.
ghost use Rattle.std.specs.Prelude.{◌≡◌, ◌++◌, map, flat_map, IfOk, OnOk};
ghost use Rattle.engine_formats.specs.Diagnostics.{shown};
ghost use Rattle.engine_formats.specs.Lines.{code_part, gcc_line, spot_of};

use crate::diagnostic::Diagnostic;
use crate::parts::push_number;
use engine_sessions::push_word;
use file_catalogue::Remark;
use std::alloc::{AllocError, Global};
use text_bytes::escape;

/// The lines of diagnostics, in the order given.
pub(crate) fn gcc_lines(
    alloc: Global,
    diagnostics: &[Diagnostic<'_>],
) -> Result<Vec<u8>, AllocError>
    ensures { IfOk result (λ text. text.items ≡ flat_map gcc_line (map shown diagnostics.now)) }
{
    let mut text = Vec::new(alloc);
    for diagnostic in diagnostics {
        push_gcc_line(alloc, &mut text, diagnostic)?;
    }
    Ok(text)
}

/// Appends `PATH:LINE:COLUMN: error: bad substitution: WORD [V6]` and a newline.
#[tactic(auto, unfolding(crate::specs::Lines::gcc_line))]
fn push_gcc_line(
    alloc: Global,
    text: &mut Vec<u8>,
    diagnostic: &Diagnostic<'_>,
) -> Result<(), AllocError>
    ensures { OnOk result (text.new.items ≡ text.old.items ++ gcc_line (shown diagnostic.now)) }
{
    push_spot(alloc, text, diagnostic.path, diagnostic)?;
    text.extend_from_slice(diagnostic.remark.text())?;
    push_word(alloc, text, diagnostic.word.as_slice())?;
    push_code(text, diagnostic.remark)
}

/// Appends `PATH:LINE:COLUMN: error: `, with this path, escaped.
#[tactic(auto, unfolding(crate::specs::Lines::spot_of))]
pub(crate) fn push_spot(
    alloc: Global,
    text: &mut Vec<u8>,
    path: &[u8],
    diagnostic: &Diagnostic<'_>,
) -> Result<(), AllocError>
    ensures { OnOk result (text.new.items ≡ text.old.items ++ spot_of (record (shown diagnostic.now) { path = path.now })) }
{
    text.extend_from_slice(&escape(alloc, path)?)?;
    push_number(text, diagnostic.line)?;
    push_number(text, diagnostic.column)?;
    text.extend_from_slice(b": ")?;
    text.extend_from_slice(diagnostic.remark.severity().word().as_bytes())?;
    text.extend_from_slice(b": ")
}

/// Appends ` [V6]` and a newline.
pub(crate) fn push_code(text: &mut Vec<u8>, remark: Remark) -> Result<(), AllocError>
    ensures { OnOk result (text.new.items ≡ text.old.items ++ code_part remark) }
{
    text.extend_from_slice(b" [")?;
    text.extend_from_slice(remark.code())?;
    text.extend_from_slice(b"]\n")
}
