//! What is wrong with the value of a token of a rule that stays.
ghost use Rattle.std.specs.Prelude.{◌≡◌};
ghost use Rattle.rule_remarks.specs.Accounts.{given_in};
ghost use Rattle.rule_remarks.specs.Values.{assigned_fault, filled_fault, given_fault, text_fault, value_fault};

use crate::accounts::{AccountKind, Accounts, Given, given_in};
use file_messages::MessageKind;
use rule_parts::is_known_option;
use rule_tokens::{Operator, is_faulty};
use rule_types::Key;

/// What is wrong with a value of a key after an operator, if anything is.
#[tactic(auto, unfolding(crate::specs::Values::value_fault))]
pub(crate) fn value_fault(
    accounts: &Accounts,
    key: Key,
    operator: Operator,
    text: &[u8],
) -> Option<MessageKind>
    ensures { result ≡ value_fault accounts.now key operator text.now }
{
    if !operator.compares() {
        return assigned_fault(accounts, key, text);
    }
    match key {
        Key::Subsystem => {
            if text == b"bus".as_slice() || text == b"class".as_slice() {
                Some(MessageKind::OldSubsystemName)
            } else {
                None
            }
        }
        Key::Test | Key::Program | Key::Import => filled_fault(text),
        _ => None,
    }
}

/// What is wrong with what is assigned to a key.
fn assigned_fault(accounts: &Accounts, key: Key, text: &[u8]) -> Option<MessageKind>
    ensures { result ≡ assigned_fault accounts.now key text.now }
{
    match key {
        Key::Name | Key::Symlink | Key::Env | Key::Attr | Key::Sysctl => text_fault(text),
        Key::Tag | Key::Seclabel | Key::Mode | Key::Run | Key::Program | Key::Import =>
            filled_fault(text),
        Key::Owner => account_fault(accounts, AccountKind::User, text),
        Key::Group => account_fault(accounts, AccountKind::Group, text),
        Key::Options => {
            if is_known_option(text) {
                None
            } else {
                Some(MessageKind::BadValue)
            }
        }
        _ => None,
    }
}

/// What is wrong with a text in which substitutions may be.
fn text_fault(text: &[u8]) -> Option<MessageKind>
    ensures { result ≡ text_fault text.now }
{
    if is_faulty(text) {
        Some(MessageKind::BadSubstitution)
    } else {
        None
    }
}

/// The same for a text that must not be empty.
fn filled_fault(text: &[u8]) -> Option<MessageKind>
    ensures { result ≡ filled_fault text.now }
{
    if text.is_empty() {
        Some(MessageKind::EmptyValue)
    } else {
        text_fault(text)
    }
}

/// What is wrong with a user or a group.
fn account_fault(accounts: &Accounts, kind: AccountKind, text: &[u8]) -> Option<MessageKind>
    ensures { result ≡ given_fault (given_in accounts.now kind text.now) text.now }
{
    match given_in(accounts, kind, text) {
        Given::Number(_) => None,
        Given::Unknown => Some(MessageKind::UnknownAccount),
        Given::Text => filled_fault(text),
    }
}
