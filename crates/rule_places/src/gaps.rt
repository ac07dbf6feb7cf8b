//! Gaps between the tokens of a line that are written as they should be.
ghost use Rattle.std.specs.Prelude.{◌≡◌};
ghost use Rattle.rule_types.specs.Tokens.{tokens_in};
ghost use Rattle.rule_places.specs.Gaps.{is_good_after, is_good_gap, is_well_spaced};

use rule_core::{WrittenPart, between, commas, following, has_blank_before_comma};
use text_bytes::ends_in;

/// Whether the commas and blanks of a line with these tokens are as they should be.
pub(crate) fn is_well_spaced(line: &[u8], parts: &[WrittenPart<'_>]) -> bool
    ensures { result ≡ is_well_spaced line.now (tokens_in parts.now) }
{
    match parts.split_first() {
        None => true,
        Some((first, others)) => is_good_after(line, first.token.span().end, others),
    }
}

/// Whether after a place where a token ends each gap before a token is good, and no comma follows the last.
fn is_good_after(line: &[u8], start: usize, parts: &[WrittenPart<'_>]) -> bool
    ensures { result ≡ is_good_after line.now start (tokens_in parts.now) }
{
    let mut place = start;
    for written in parts {
        let span = written.token.span();
        if !is_good_gap(between(place, span.start, line)) {
            return false;
        }
        place = span.end;
    }
    commas(following(place, line)) == 0
}

/// Whether a gap has one comma, no blank before it, and at least one after it.
pub(crate) fn is_good_gap(gap: &[u8]) -> bool
    ensures { result ≡ is_good_gap gap.now }
{
    commas(gap) == 1 && !ends_in(b',', gap) && !has_blank_before_comma(gap)
}
