//! Diagnostics for people: each with its line, a mark below the place, and how to fix it.
ghost use Rattle.std.specs.Prelude.{◌≡◌, ◌++◌, map, flat_map, IfOk, OnOk};
ghost use Rattle.engine_formats.specs.Diagnostics.{shown};
ghost use Rattle.engine_formats.specs.Human.{advice_line, human_lines, title_line, with_masked_path};

use crate::diagnostic::Diagnostic;
use crate::gcc::{push_code, push_spot};
use crate::hints::push_advice_for;
use crate::marks::push_source;
use crate::paint::Paint;
use crate::signs::masked;
use std::alloc::{AllocError, Global};

/// The lines of diagnostics, four for each, in colors or without, in the order given.
pub(crate) fn human_lines(
    alloc: Global,
    in_color: bool,
    diagnostics: &[Diagnostic<'_>],
) -> Result<Vec<u8>, AllocError>
    ensures { IfOk result (λ text. text.items ≡ flat_map (human_lines in_color) (map shown diagnostics.now)) }
{
    let mut text = Vec::new(alloc);
    for diagnostic in diagnostics {
        push_human_lines(alloc, &mut text, in_color, diagnostic)?;
    }
    Ok(text)
}

/// Appends the four lines of a diagnostic, in colors or without.
#[tactic(auto, unfolding(crate::specs::Human::human_lines))]
fn push_human_lines(
    alloc: Global,
    text: &mut Vec<u8>,
    in_color: bool,
    diagnostic: &Diagnostic<'_>,
) -> Result<(), AllocError>
    ensures { OnOk result (text.new.items ≡ text.old.items ++ human_lines in_color (shown diagnostic.now)) }
{
    let paint = Paint::of(in_color, diagnostic.remark);
    push_title(alloc, text, paint, diagnostic)?;
    push_source(
        alloc,
        text,
        paint,
        diagnostic.source,
        diagnostic.column as usize,
        diagnostic.end as usize,
    )?;
    push_advice(alloc, text, diagnostic)
}

/// Appends `PATH:LINE:COLUMN: error: bad substitution [V6]` and a newline, in a color up to what is said.
#[tactic(auto, unfolding(crate::specs::Human::title_line))]
fn push_title(
    alloc: Global,
    text: &mut Vec<u8>,
    paint: Paint,
    diagnostic: &Diagnostic<'_>,
) -> Result<(), AllocError>
    ensures { OnOk result (text.new.items ≡ text.old.items ++ title_line paint (with_masked_path (shown diagnostic.now))) }
{
    let path = masked(Vec::from_slice(alloc, diagnostic.path)?);
    text.extend_from_slice(paint.start())?;
    push_spot(alloc, text, &path, diagnostic)?;
    text.extend_from_slice(paint.stop())?;
    text.extend_from_slice(diagnostic.remark.text())?;
    push_code(text, diagnostic.remark)
}

/// Appends `  = `, how to fix what a diagnostic is about, and a newline.
#[tactic(auto, unfolding(crate::specs::Human::advice_line))]
fn push_advice(
    alloc: Global,
    text: &mut Vec<u8>,
    diagnostic: &Diagnostic<'_>,
) -> Result<(), AllocError>
    ensures { OnOk result (text.new.items ≡ text.old.items ++ advice_line (shown diagnostic.now)) }
{
    text.extend_from_slice(b"  = ")?;
    push_advice_for(alloc, text, diagnostic)?;
    text.push(b'\n')?;
    Ok(())
}
