//! How many tokens are left in the rules of lines.
ghost use Rattle.std.specs.Prelude.{◌≡◌, IfOk};
ghost use Rattle.rule_core.specs.Counts.{draft_tokens, is_counted, token_count};

use crate::draft::Draft;
use crate::readings::LandedReading;
use crate::sums::sum_of;
use rule_types::{Landing, Part};
use std::alloc::AllocError;

/// How many tokens may be left in rules.
pub const MAX_TOKENS: usize = 1 << 24;

/// How many tokens are left in the rules of the lines of a file.
pub fn token_count(lines: &[LandedReading<'_>]) -> Result<usize, AllocError>
    ensures { IfOk result (λ count. count ≡ token_count lines.now) }
{
    let mut count = 0;
    for line in lines {
        if let Ok(draft) = &line.reading.read {
            count = sum_of(count, draft_tokens(draft, line.landing)?)?;
        }
    }
    Ok(count)
}

/// How many tokens are left in a rule: its names for jumps, and its other parts.
pub(crate) fn draft_tokens(draft: &Draft<'_>, landing: Landing) -> Result<usize, AllocError>
    ensures { IfOk result (λ count. count ≡ draft_tokens draft.now landing) }
{
    let label = if draft.label.is_some() { 1 } else { 0 };
    let goto = if draft.goto.is_some() && !landing.lost {
        1
    } else {
        0
    };
    let parts = draft
        .parts
        .iter()
        .filter(|written| is_counted(&written.part))
        .count();
    sum_of(label + goto, parts)
}

/// Whether a part is counted by itself: it is no name for jumps.
fn is_counted(part: &Part) -> bool
    ensures { result ≡ is_counted part.now }
{
    !matches!(part, Part::Label(_) | Part::Goto(_))
}
