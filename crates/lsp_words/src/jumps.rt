//! Where jumps lead.
ghost use Rattle.std.specs.Prelude.{◌≡◌, IfOk, map, option_copied};
ghost use Rattle.std.specs.List.{find};
ghost use Rattle.lsp_words.specs.Jumps.{definition_of, is_at, is_goal, is_goto, mark_at, references_of};

use crate::marks::{Mark, MarkKind};
use std::alloc::{AllocError, Global};

/// Whether a mark is a jump.
fn is_goto(mark: &Mark<'_>) -> bool
    ensures { result ≡ is_goto mark.now.kind }
{
    match mark.kind {
        MarkKind::Goto => true,
        MarkKind::Label => false,
    }
}

/// Whether a place of a row is in the name of a mark, or directly before or after it.
fn is_at(line: u32, at: usize, mark: &Mark<'_>) -> bool
    ensures { result ≡ is_at line at mark.now }
{
    mark.line() == line && mark.start() <= at && at <= mark.end()
}

/// Returns the mark of which a place of a row is in the name, or directly before or after it. Rows are counted from 0,
/// places in bytes from the start of the row.
pub fn mark_at<'m, 't>(marks: &'m [Mark<'t>], line: u32, at: usize) -> Option<&'m Mark<'t>>
    ensures { option_copied result ≡ mark_at marks.now line at }
{
    marks.iter().find(|mark| is_at(line, at, mark))
}

/// Whether a mark is a label to which a jump may lead: one of its name in a later rule.
fn is_goal(jump: &Mark<'_>, mark: &Mark<'_>) -> bool
    ensures { result ≡ is_goal jump.now mark.now }
{
    !is_goto(mark) && jump.rule < mark.rule && jump.name == mark.name
}

/// The first label to which a jump may lead.
fn first_goal<'m, 't>(marks: &'m [Mark<'t>], jump: &Mark<'_>) -> Option<&'m Mark<'t>>
    ensures { option_copied result ≡ find (is_goal jump.now) marks.now }
{
    marks.iter().find(|mark| is_goal(jump, mark))
}

/// Returns the label that a mark of a document means: a jump means the first label of its name in a later rule, as udev
/// jumps, and a label itself.
pub fn definition_of<'m, 't>(marks: &'m [Mark<'t>], mark: &'m Mark<'t>) -> Option<&'m Mark<'t>>
    ensures { option_copied result ≡ definition_of marks.now mark.now }
{
    if is_goto(mark) {
        return first_goal(marks, mark);
    }
    Some(mark)
}

/// Returns the jumps of a document that have the name of a mark, and if asked the labels that have it, in order.
pub fn references_of<'m, 't>(
    alloc: Global,
    marks: &'m [Mark<'t>],
    mark: &Mark<'_>,
    with_labels: bool,
) -> Result<Vec<&'m Mark<'t>>, AllocError>
    ensures { IfOk result (λ found. map (λ m. m.now) found.items ≡ references_of marks.now mark.now with_labels) }
{
    let mut found = Vec::new(alloc);
    for other in marks {
        if (with_labels || is_goto(other)) && mark.name == other.name {
            found.push(other)?;
        }
    }
    Ok(found)
}
