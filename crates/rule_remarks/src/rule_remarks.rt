//! What is reported for the tokens of a rule that stays.
ghost use Rattle.std.specs.Prelude.{◌≡◌, ◌++◌, IfOk, OnOk, filter_map, option_map, slice_get};
ghost use Rattle.rule_types.specs.Tokens.{tokens_in};
ghost use Rattle.rule_remarks.specs.Pairs.{pair_findings};
ghost use Rattle.rule_remarks.specs.Remarks.{pair_remark, rule_remarks};

use crate::accounts::Accounts;
use crate::order::late_program;
use crate::pairs::pair_findings;
use crate::token_remarks::add_token;
use file_messages::MessageKind;
use rule_core::{Spot, WrittenPart, key_spot};
use rule_tokens::Token;
use std::alloc::{AllocError, Global};

/// What is reported for a rule's tokens: for each by itself in written order, then for a RESULT before a PROGRAM,
/// then for two tokens.
#[tactic(auto, unfolding(crate::specs::Remarks::rule_remarks))]
pub(crate) fn rule_remarks(
    alloc: Global,
    accounts: &Accounts,
    parts: &[WrittenPart<'_>],
) -> Result<Vec<Spot<MessageKind>>, AllocError>
    ensures { IfOk result (λ spots. spots.items ≡ rule_remarks accounts.now (tokens_in parts.now)) }
{
    let mut spots = Vec::new(alloc);
    for written in parts {
        add_token(alloc, &mut spots, accounts, &written.token)?;
    }
    if let Some(token) = late_program(parts) {
        spots.push(key_spot(alloc, MessageKind::ResultBeforeProgram, token)?)?;
    }
    add_pairs(alloc, &mut spots, accounts, parts)?;
    Ok(spots)
}

/// Adds what is reported for two tokens, at the later one.
fn add_pairs(
    alloc: Global,
    spots: &mut Vec<Spot<MessageKind>>,
    accounts: &Accounts,
    parts: &[WrittenPart<'_>],
) -> Result<(), AllocError>
    ensures { OnOk result (spots.new.items ≡ spots.old.items
        ++ filter_map (pair_remark (tokens_in parts.now)) (pair_findings accounts.now (tokens_in parts.now))) }
{
    let pairs = pair_findings(alloc, accounts, parts)?;
    for found in pairs.as_slice() {
        if let Some(token) = token_at(parts, found.token) {
            spots.push(key_spot(alloc, found.kind.message_kind(), token)?)?;
        }
    }
    Ok(())
}

/// The token at a place among those of a rule.
#[tactic(auto, using(crate::proofs::Tokens::token_there))]
fn token_at<'t, 'a>(parts: &'t [WrittenPart<'a>], place: usize) -> Option<&'t Token<'a>>
    ensures { option_map (λ t. t.now) result ≡ slice_get (tokens_in parts.now) place }
{
    match parts.get(place) {
        None => None,
        Some(written) => Some(&written.token),
    }
}
