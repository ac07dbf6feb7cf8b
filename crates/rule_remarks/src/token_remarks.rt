//! What is reported for one token of a rule that stays.
ghost use Rattle.std.specs.Prelude.{◌≡◌, ◌++◌, OnOk};
ghost use Rattle.rule_parts.specs.Parts.{meaning_of};
ghost use Rattle.rule_remarks.specs.Remarks.{attribute_remarks, token_remarks, value_remarks};
ghost use Rattle.rule_remarks.specs.Values.{value_fault};

use crate::accounts::Accounts;
use crate::attributes::{is_bad_name, is_elsewhere};
use crate::values::value_fault;
use file_messages::MessageKind;
use rule_core::{Spot, attribute_spot, key_spot, value_spot};
use rule_tokens::{Token, unquote};
use rule_types::{Key, key_of};
use std::alloc::{AllocError, Global};
use text_bytes::Bytes;

/// Adds what is reported for a token: for its attribute, then for its value.
#[tactic(auto, unfolding(crate::specs::Remarks::token_remarks))]
pub(crate) fn add_token(
    alloc: Global,
    spots: &mut Vec<Spot<MessageKind>>,
    accounts: &Accounts,
    token: &Token<'_>,
) -> Result<(), AllocError>
    ensures { OnOk result (spots.new.items ≡ spots.old.items ++ token_remarks accounts.now token.now) }
{
    match key_of(token.key()) {
        None => Ok(()),
        Some(key) => {
            add_attribute(alloc, spots, key, token)?;
            add_value(alloc, spots, accounts, key, token)
        }
    }
}

/// Adds what is reported for the attribute of a token, if it has one.
fn add_attribute(
    alloc: Global,
    spots: &mut Vec<Spot<MessageKind>>,
    key: Key,
    token: &Token<'_>,
) -> Result<(), AllocError>
    ensures { OnOk result (spots.new.items ≡ spots.old.items ++ attribute_remarks key token.now token.now.parts.head.attribute) }
{
    let Some(name) = token.attribute() else {
        return Ok(());
    };
    if is_bad_name(key, name) {
        spots.push(attribute_spot(alloc, MessageKind::BadAttributeSubstitution, token)?)?;
    }
    if is_elsewhere(key, name) {
        spots.push(attribute_spot(alloc, MessageKind::AttributeElsewhere, token)?)?;
    }
    Ok(())
}

/// Adds what is reported for the value of a token with this key, if something is wrong with it: the value with what it
/// means, or the key if the value is empty.
fn add_value(
    alloc: Global,
    spots: &mut Vec<Spot<MessageKind>>,
    accounts: &Accounts,
    key: Key,
    token: &Token<'_>,
) -> Result<(), AllocError>
    ensures { OnOk result (spots.new.items ≡ spots.old.items
        ++ value_remarks (value_fault accounts.now key token.now.parts.head.operator (meaning_of token.now)) token.now) }
{
    let text = unquote(alloc, token)?;
    match value_fault(accounts, key, token.operator(), &text) {
        None => {}
        Some(MessageKind::EmptyValue) => {
            spots.push(key_spot(alloc, MessageKind::EmptyValue, token)?)?;
        }
        Some(kind) => spots.push(value_spot(kind, Bytes::new(text), token))?,
    }
    Ok(())
}
