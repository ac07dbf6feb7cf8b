//! The users and groups that are known, and what a value of OWNER or GROUP gives by them.
ghost use Rattle.std.specs.Prelude.{◌≡◌, option_map};
ghost use Rattle.rule_remarks.specs.Accounts.{given_among, given_in, is_identity, nobody, written_identity};

use crate::account_list::AccountList;
use rule_tokens::is_substituted;
use std::marker::Model;
use text_bytes::{Bytes, begins_with, decimal_below};

/// -1 in 16 bits, which is not a number of a user or group.
const NONE_IN_16_BITS: u32 = 0xFFFF;

/// The number of the user and of the group that stand for nobody.
const NOBODY: u32 = 0xFFFE;

/// A user or a group.
#[derive(Drop)]
pub struct Account {
    /// Its name.
    pub name: Bytes,
    /// Its number.
    pub number: u32,
}

/// Whether a name is that of a user or of a group.
#[derive(Clone, Copy, PartialEq, Eq)]
pub enum AccountKind {
    User,
    Group,
}

/// What is known about users and groups.
#[derive(Drop)]
pub struct Accounts {
    /// The users; of those with one name the first counts. Without a list only `root` is known.
    pub users: Option<AccountList>,
    /// The groups, likewise.
    pub groups: Option<AccountList>,
}

/// What a value of OWNER or GROUP gives.
#[derive(Clone, Copy, PartialEq, Eq)]
pub(crate) enum Given {
    /// A user or a group, by its number.
    Number(u32),
    /// A name that no user or group has.
    Unknown,
    /// A text with substitutions, or a name if there is no list.
    Text,
}

impl Model for Accounts {
    ghost use Rattle.rule_remarks.specs.Accounts as accounts;

    ghost Value = { accounts.Accounts };

    ghost view = { λ a. record { users = a.users; groups = a.groups } };
}

impl Accounts {
    /// No list of users, and none of groups.
    pub fn nobody() -> Accounts
        ensures { result ≡ nobody }
    {
        Accounts {
            users: None,
            groups: None,
        }
    }
}

/// What a value of OWNER or GROUP gives: the number that it writes; or else it is a text with substitutions, or a
/// name, whose number is given if it is known.
#[tactic(auto, unfolding(crate::specs::Accounts::given_in))]
pub(crate) fn given_in(accounts: &Accounts, kind: AccountKind, text: &[u8]) -> Given
    ensures { result ≡ given_in accounts.now kind text.now }
{
    if let Some(number) = written_identity(text) {
        return Given::Number(number);
    }
    if is_substituted(text) {
        return Given::Text;
    }
    if text == b"root".as_slice() {
        return Given::Number(0);
    }
    match kind {
        AccountKind::User => given_among(accounts.users.as_ref(), b"nobody", text),
        AccountKind::Group => given_among(accounts.groups.as_ref(), b"nogroup", text),
    }
}

/// The number of a user or a group that a text writes in decimal digits, without a leading zero.
fn written_identity(text: &[u8]) -> Option<u32>
    ensures { result ≡ written_identity text.now }
{
    if begins_with(b'0', text) && 1 < text.len() {
        return None;
    }
    let number = decimal_below(1 << 32, text)? as u32;
    if is_identity(number) {
        Some(number)
    } else {
        None
    }
}

/// Whether a number may be that of a user or a group.
fn is_identity(number: u32) -> bool
    ensures { result ≡ is_identity number }
{
    number < u32::MAX && number != NONE_IN_16_BITS
}

/// What a name other than `root` gives by a list, if there is one, and the name that stands for nobody.
fn given_among(accounts: Option<&AccountList>, nobody_name: &[u8], name: &[u8]) -> Given
    ensures { result ≡ given_among (option_map (λ list. list.now) accounts.entry) nobody_name.now name.now }
{
    let Some(accounts) = accounts else {
        return Given::Text;
    };
    if name == nobody_name {
        return Given::Number(NOBODY);
    }
    match accounts.number_of(name) {
        Some(number) if is_identity(number) => Given::Number(number),
        _ => Given::Unknown,
    }
}
