//! How a rule is written: commas and blanks between its tokens, and operators that are read as `=`.
//!
//! None of this keeps a line from being a rule, so it is looked at only if no token has a fault.
ghost use Rattle.std.specs.Prelude.{◌≡◌, ◌++◌, OnOk};
ghost use Rattle.rule_core.specs.Places.{findings_before};
ghost use Rattle.rule_core.specs.Style.{commas, gap_findings, has_blank_before_comma};
ghost use Rattle.rule_core.specs.Style.{operator_findings, style_findings, whole_gap};
ghost use Rattle.rule_types.specs.Tokens.{tokens_in};

use crate::places::{between, following};
use crate::spot::key_spot;
use file_messages::MessageKind;
use rule_parts::is_read_as_assign;
use rule_tokens::Token;
use rule_types::{Spot, WrittenPart};
use std::alloc::{AllocError, Global};
use text_bytes::{Bytes, Profile, ends_in, is_blank};

/// Adds the findings about how a line is written, by the places of its tokens.
pub(crate) fn add_style(
    alloc: Global,
    profile: Profile,
    findings: &mut Vec<Spot<MessageKind>>,
    line: &[u8],
    parts: &[WrittenPart<'_>],
) -> Result<(), AllocError>
    ensures { OnOk result (findings.new.items ≡ findings.old.items ++ style_findings profile line.now (tokens_in parts.now)) }
{
    let mut place = None;
    for written in parts {
        add_token(alloc, profile, findings, line, place, &written.token)?;
        place = Some(written.token.span().end);
    }
    match place {
        None => Ok(()),
        Some(from) => {
            let gap = following(from, line);
            add_whole_gap(alloc, MessageKind::CommaExpected, findings, from, gap)
        }
    }
}

/// Adds the findings about a token and the gap before it, which begins at a place, or else at the line's
/// start.
fn add_token(
    alloc: Global,
    profile: Profile,
    findings: &mut Vec<Spot<MessageKind>>,
    line: &[u8],
    place: Option<usize>,
    token: &Token<'_>,
) -> Result<(), AllocError>
    ensures { OnOk result (findings.new.items ≡ findings.old.items
        ++ (findings_before profile line.now place token.now ++ operator_findings profile token.now)) }
{
    match place {
        None => match profile {
            Profile::Manual => {}
            Profile::Udev => {
                let gap = between(0, token.span().start, line);
                add_whole_gap(alloc, MessageKind::LeadingComma, findings, 0, gap)?;
            }
        },
        Some(from) => {
            let gap = between(from, token.span().start, line);
            add_gap(alloc, profile, findings, gap, token)?;
        }
    }
    if is_read_as_assign(token) {
        match profile {
            Profile::Manual => {
                findings.push(key_spot(alloc, MessageKind::ReadAsAssign, token)?)?;
            }
            Profile::Udev => {
                findings.push(key_spot(alloc, MessageKind::AssignExpected, token)?)?;
            }
        }
    }
    Ok(())
}

/// Adds the findings about the gap before a token.
fn add_gap(
    alloc: Global,
    profile: Profile,
    findings: &mut Vec<Spot<MessageKind>>,
    gap: &[u8],
    token: &Token<'_>,
) -> Result<(), AllocError>
    ensures { OnOk result (findings.new.items ≡ findings.old.items ++ gap_findings profile gap.now token.now) }
{
    if commas(gap) != 1 {
        findings.push(key_spot(alloc, MessageKind::CommaExpected, token)?)?;
    }
    if ends_in(b',', gap) {
        findings.push(key_spot(alloc, MessageKind::BlankExpected, token)?)?;
    }
    match profile {
        Profile::Manual => {}
        Profile::Udev => {
            if has_blank_before_comma(gap) {
                findings.push(key_spot(alloc, MessageKind::BlankBeforeComma, token)?)?;
            }
        }
    }
    Ok(())
}

/// Adds this about a whole gap, which begins at a place, if it has a comma.
fn add_whole_gap(
    alloc: Global,
    kind: MessageKind,
    findings: &mut Vec<Spot<MessageKind>>,
    place: usize,
    gap: &[u8],
) -> Result<(), AllocError>
    ensures { OnOk result (findings.new.items ≡ findings.old.items ++ whole_gap kind place gap.now) }
{
    if commas(gap) != 0 {
        findings.push(Spot {
            kind,
            word: Bytes::new(Vec::new(alloc)),
            start: place,
            size: gap.len(),
        })?;
    }
    Ok(())
}

/// How many commas a gap has.
pub fn commas(gap: &[u8]) -> usize
    ensures { result ≡ commas gap.now }
{
    gap.iter().filter(|byte| **byte == b',').count()
}

/// Whether a gap has a comma and begins with a blank.
pub fn has_blank_before_comma(gap: &[u8]) -> bool
    ensures { result ≡ has_blank_before_comma gap.now }
{
    match gap.split_first() {
        None => false,
        Some((byte, following)) => is_blank(*byte) && commas(following) != 0,
    }
}
