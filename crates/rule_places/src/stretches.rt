//! What stays of a line whose commas and blanks are mended.
ghost use Rattle.std.specs.Prelude.{◌≡◌, IfOk};
ghost use Rattle.rule_types.specs.Tokens.{tokens_in};
ghost use Rattle.rule_places.specs.Stretches.{stretch_before, stretches, stretches_from};

use crate::gaps::is_good_gap;
use rule_core::{Span, WrittenPart, between};
use std::alloc::{AllocError, Global};

/// A part of a line that stays.
#[derive(Clone, Copy)]
pub(crate) struct Stretch {
    /// The place of its first byte.
    pub(crate) start: usize,
    /// The place after its last byte.
    pub(crate) end: usize,
    /// Whether a comma and a blank are put after it.
    pub(crate) comma: bool,
}

/// What stays of a line with these tokens.
pub(crate) fn stretches(
    alloc: Global,
    line: &[u8],
    parts: &[WrittenPart<'_>],
) -> Result<Vec<Stretch>, AllocError>
    ensures { IfOk result (λ found. found.items ≡ stretches line.now (tokens_in parts.now)) }
{
    match parts.split_first() {
        None => Ok(Vec::new(alloc)),
        Some((first, others)) => stretches_from(alloc, line, first.token.span(), others),
    }
}

/// What stays of a token and those that follow it.
fn stretches_from(
    alloc: Global,
    line: &[u8],
    first: Span,
    parts: &[WrittenPart<'_>],
) -> Result<Vec<Stretch>, AllocError>
    ensures { IfOk result (λ found. found.items ≡ stretches_from line.now first (tokens_in parts.now)) }
{
    let mut stretches = Vec::new(alloc);
    let mut last = first;
    for written in parts {
        let next = written.token.span();
        stretches.push(stretch_before(line, last, next))?;
        last = next;
    }
    stretches.push(Stretch {
        start: last.start,
        end: last.end,
        comma: false,
    })?;
    Ok(stretches)
}

/// What stays of a token before another and of the gap between them.
fn stretch_before(line: &[u8], span: Span, next: Span) -> Stretch
    ensures { result ≡ stretch_before line.now span next }
{
    let is_good = is_good_gap(between(span.end, next.start, line));
    Stretch {
        start: span.start,
        end: if is_good { next.start } else { span.end },
        comma: !is_good,
    }
}
