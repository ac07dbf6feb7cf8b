//! Reading a joined line.
ghost use Rattle.std.specs.Prelude.{◌≡◌, MatchResult, Ok};
ghost use Rattle.rule_core.specs.Drafts.{draft_of, draft_with, items_as, part_of_item, parts_of};
ghost use Rattle.rule_core.specs.Faults.{FaultOf};

use crate::draft::Draft;
use crate::effects::{lacks_effect, unknown_option};
use crate::line_ends::MAX_UDEV_BYTES;
use crate::line_fault::LineFault;
use crate::names::RuleNames;
use crate::places::line_tokens;
use crate::spot::{part_spot, token_spot, whole_spot};
use crate::style::add_style;
use file_messages::MessageKind;
use rule_parts::{PartFault, read_part};
use rule_tokens::{Token, TokenFault};
use rule_types::WrittenPart;
use std::alloc::Global;
use text_bytes::Profile;

/// The most bytes of a joined line by the manual.
const MAX_BYTES: usize = 16_384;

/// Reads a joined line as a rule, as udev(7) or udev itself has it.
///
/// What is wrong is that the line has more than 16,384 bytes, or else it is the fault of the first token that has
/// one. For udev a line of 16,384 bytes is also too long, and a line without such a fault is wrong if no token has
/// an effect. `Memory` comes only if an allocation fails.
#[tactic(auto, unfolding(crate::specs::Drafts::draft_of))]
pub(crate) fn read_draft(
    alloc: Global,
    profile: Profile,
    line: &[u8],
) -> Result<Draft<'_>, LineFault>
    ensures { MatchResult result (λ d. draft_of profile line.now ≡ Ok d) (λ f. FaultOf f (draft_of profile line.now)) }
{
    let most_bytes = match profile {
        Profile::Manual => MAX_BYTES,
        Profile::Udev => MAX_UDEV_BYTES,
    };
    if line.len() > most_bytes {
        let kind = MessageKind::LineTooLong;
        return Err(LineFault::Wrong(whole_spot(alloc, kind, line)));
    }
    let parts = read_parts(alloc, profile, line)?;
    draft_with(alloc, profile, line, parts)
}

/// The draft of tokens that were read. udev also drops a rule without effect: it has an option that udev does not
/// know, and so leaves out, or nothing but matches.
fn draft_with<'a>(
    alloc: Global,
    profile: Profile,
    line: &'a [u8],
    parts: Vec<WrittenPart<'a>>,
) -> Result<Draft<'a>, LineFault>
    ensures { MatchResult result (λ d. draft_with profile line.now (Ok parts.entry.items) ≡ Ok d)
        (λ f. FaultOf f (draft_with profile line.now (Ok parts.entry.items))) }
{
    let lacks = lacks_effect(alloc, profile, &parts)?;
    if lacks {
        let found = match unknown_option(alloc, &parts)? {
            None => whole_spot(alloc, MessageKind::RuleWithoutEffect, line),
            Some(token) => part_spot(alloc, MessageKind::BadValue, token)?,
        };
        return Err(LineFault::Wrong(found));
    }
    let RuleNames {
        label,
        goto,
        findings,
    } = RuleNames::of(alloc, profile, &parts)?;
    let mut findings = findings;
    add_style(alloc, profile, &mut findings, line, &parts)?;
    Ok(Draft {
        label,
        goto,
        parts,
        findings,
    })
}

/// The tokens of a line with their parts, up to the first with a fault, which is then what is wrong.
#[tactic(auto, using(crate::proofs::Drafting::part_read))]
fn read_parts(
    alloc: Global,
    profile: Profile,
    line: &[u8],
) -> Result<Vec<WrittenPart<'_>>, LineFault>
    ensures { MatchResult result (λ parts. parts_of profile line.now (items_as profile line.now) ≡ Ok parts.items)
        (λ f. FaultOf f (parts_of profile line.now (items_as profile line.now))) }
{
    let mut parts = Vec::new(alloc);
    for item in line_tokens(profile, line) {
        parts.push(read_item(alloc, profile, line, item)?)?;
    }
    Ok(parts)
}

/// An item of a line as a token of a rule.
fn read_item<'a>(
    alloc: Global,
    profile: Profile,
    line: &'a [u8],
    item: Result<Token<'a>, TokenFault>,
) -> Result<WrittenPart<'a>, LineFault>
    ensures { MatchResult result (λ w. part_of_item profile line.now item.entry ≡ Ok w) (λ f. FaultOf f (part_of_item profile line.now item.entry)) }
{
    match item {
        Ok(token) => match read_part(alloc, profile, &token) {
            Ok(part) => Ok(WrittenPart { token, part }),
            Err(PartFault::Wrong(found)) => {
                Err(LineFault::Wrong(part_spot(alloc, found.kind, &token)?))
            }
            Err(PartFault::Memory) => Err(LineFault::Memory),
        },
        Err(fault) => Err(LineFault::Wrong(token_spot(alloc, fault, line)?)),
    }
}
