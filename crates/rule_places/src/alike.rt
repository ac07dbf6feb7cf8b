//! Rules files that are read alike.
ghost use Rattle.std.specs.Prelude.{◌≡◌, ◌∷◌, ◌&&◌, List, IfOk, drop, option_map, zip};
ghost use Rattle.std.specs.Cmp.Lexicographic.{pointwise};
ghost use Rattle.rule_places.specs.Alike.{is_idle, is_mended_line, same_attribute, same_if_idle, same_landing};
ghost use Rattle.rule_places.specs.Alike.{same_part, same_quote, same_token, says_same, stands_for};
ghost use Rattle.rule_places.specs.Faults.{parts_read};
ghost use Rattle.rule_types.specs.Tokens.{same_operator};
ghost use Rattle.std.specs.List.{list_all};
ghost use Rattle.rule_places.specs.Proposed.{Landed};
ghost use Rattle.rule_places.specs.WholeLines.{whole_lines};

use crate::faults::{is_sound, is_to_mend};
use crate::lines::{WholeLine, WholeLines};
use rule_core::{LandedLines, LandedReading, Operator, Quote, Token, WrittenPart};
use rule_types::Landing;
use std::alloc::{AllocError, Global};

/// Whether these are the joined lines of a file that was mended.
pub(crate) fn are_mended_lines(
    alloc: Global,
    old: LandedLines<'_>,
    new: LandedLines<'_>,
) -> Result<bool, AllocError>
    ensures { IfOk result (λ same. same ≡ pointwise is_mended_line old.entry new.entry) }
{
    let mut rest = old;
    let mut own = new;
    while let Some(line) = rest.first(alloc)? {
        if !is_first_mended(alloc, &line, &own)? {
            return Ok(false);
        }
        rest = rest.others();
        own = own.others();
    }
    let further = own.first(alloc)?;
    Ok(further.is_none())
}

/// Whether the first of some lines is one that was mended.
fn is_first_mended(
    alloc: Global,
    line: &LandedReading<'_>,
    own: &LandedLines<'_>,
) -> Result<bool, AllocError>
    ensures { IfOk result (λ same. (rest : List Landed) → pointwise is_mended_line (line.now ∷ rest) own.now
        ≡ (same && pointwise is_mended_line rest (drop 1 own.now))) }
{
    match own.first(alloc)? {
        None => Ok(false),
        Some(own) => Ok(is_mended_line(line, &own)),
    }
}

/// Whether a joined line is one that was mended, as it has to be.
fn is_mended_line(old: &LandedReading<'_>, new: &LandedReading<'_>) -> bool
    ensures { result ≡ is_mended_line old.now new.now }
{
    stands_for(old, new) && says_same(old, new)
}

/// Whether a joined line has the number of another, its jump and its label fare the same, and nothing is to mend in
/// it.
fn stands_for(old: &LandedReading<'_>, new: &LandedReading<'_>) -> bool
    ensures { result ≡ stands_for old.now new.now }
{
    old.reading.line == new.reading.line
        && same_landing(old.landing, new.landing)
        && !is_to_mend(new)
}

/// Whether a joined line has no fault and the tokens of another in which something was to mend, or else the other's
/// bytes.
fn says_same(old: &LandedReading<'_>, new: &LandedReading<'_>) -> bool
    ensures { result ≡ says_same old.now new.now }
{
    if is_to_mend(old) {
        is_sound(new) && same_tokens(parts_of(old), parts_of(new))
    } else {
        old.reading.text == new.reading.text
    }
}

/// The tokens of a line with their parts, none if it is not a rule.
fn parts_of<'r, 'a>(line: &'r LandedReading<'a>) -> &'r [WrittenPart<'a>]
    ensures { result.now ≡ parts_read line.now.0.read }
{
    match &line.reading.read {
        Err(_) => &[],
        Ok(draft) => &draft.parts,
    }
}

/// Whether tokens say the same, one by one.
fn same_tokens(old: &[WrittenPart<'_>], new: &[WrittenPart<'_>]) -> bool
    ensures { result ≡ pointwise same_part old.now new.now }
{
    old.len() == new.len() && all_same(old, new)
}

/// Whether tokens say the same, one by one, as far as there are both.
fn all_same(old: &[WrittenPart<'_>], new: &[WrittenPart<'_>]) -> bool
    ensures { result ≡ list_all (λ pair. same_part pair.0 pair.1) (zip old.now new.now) }
{
    old.iter().zip(new).all(|(part, own)| same_part(part, own))
}

/// Whether the tokens of two parts say the same.
fn same_part(old: &WrittenPart<'_>, new: &WrittenPart<'_>) -> bool
    ensures { result ≡ same_part old.now new.now }
{
    same_token(&old.token, &new.token)
}

/// Whether two tokens say the same, wherever they are.
fn same_token(old: &Token<'_>, new: &Token<'_>) -> bool
    ensures { result ≡ same_token old.now new.now }
{
    old.key() == new.key()
        && same_attribute(old.attribute(), new.attribute())
        && same_operator(old.operator(), new.operator())
        && same_quote(old.quote(), new.quote())
        && old.value() == new.value()
}

/// Whether two attributes are the same, or both are lacking.
fn same_attribute(old: Option<&[u8]>, new: Option<&[u8]>) -> bool
    ensures { result ≡ same_attribute (option_map (λ a. a.now) old.entry) (option_map (λ a. a.now) new.entry) }
{
    match (old, new) {
        (None, None) => true,
        (Some(attribute), Some(other)) => attribute == other,
        _ => false,
    }
}

/// Whether the same becomes of two rules' jumps and labels.
fn same_landing(old: Landing, new: Landing) -> bool
    ensures { result ≡ same_landing old new }
{
    old.lost == new.lost && old.unused == new.unused
}

/// Whether two operators are the same.
fn same_operator(old: Operator, new: Operator) -> bool
    ensures { result ≡ same_operator old new }
{
    old == new
}

/// Whether two values are quoted in the same way.
fn same_quote(old: Quote, new: Quote) -> bool
    ensures { result ≡ same_quote old new }
{
    old == new
}

/// Whether a file has as many lines as another, of which those are the same that are comments or have nothing but
/// blanks.
pub(crate) fn keeps_idle_lines(old: &[u8], new: &[u8]) -> bool
    ensures { result ≡ pointwise same_if_idle (whole_lines old.now) (whole_lines new.now) }
{
    let mut rest = WholeLines::new(new);
    for line in WholeLines::new(old) {
        match rest.next() {
            None => return false,
            Some(own) => {
                if !same_if_idle(&line, &own) {
                    return false;
                }
            }
        }
    }
    rest.next().is_none()
}

/// Whether a line of a file is the same as another if it is a comment or has nothing but blanks.
fn same_if_idle(old: &WholeLine<'_>, new: &WholeLine<'_>) -> bool
    ensures { result ≡ same_if_idle old.now new.now }
{
    !is_idle(old) || old.bytes() == new.bytes()
}

/// Whether a line of a file is a comment, or has nothing but blanks.
fn is_idle(line: &WholeLine<'_>) -> bool
    ensures { result ≡ is_idle line.now }
{
    line.is_comment() || line.written().is_empty()
}
