//! The users and groups that files list.
ghost use Rattle.std.specs.Prelude.{◌≡◌, IfOk, option_map};
ghost use Rattle.rule_remarks.specs.AccountLines.{account, account_in, accounts_of, bare, field_number, number_in};

use crate::accounts::{Account, AccountKind};
use rule_tokens::leading_whitespace;
use std::alloc::{AllocError, Global};
use text_bytes::{Bytes, Lines, begins_with, decimal_below, split_once, up_to};

/// A number of 32 bits is below this.
const NUMBERS: u64 = 1 << 32;

/// The users that a file like /etc/passwd lists, or the groups that one like /etc/group lists, as the C library
/// reads it.
///
/// White space before a line counts for nothing. A line lists no account if it begins with `#`, `+` or `-`, or if
/// it has no number within 32 bits for its account, or for a user's group.
pub fn read_accounts(
    alloc: Global,
    kind: AccountKind,
    bytes: &[u8],
) -> Result<Vec<Account>, AllocError>
    ensures { IfOk result (λ accounts. accounts.items ≡ accounts_of kind bytes.now) }
{
    let mut accounts = Vec::new(alloc);
    for line in Lines::new(bytes) {
        if let Some((name, number)) = account_in(kind, bare(line.text())) {
            let name = Bytes::copy_of(alloc, name)?;
            accounts.push(Account { name, number })?;
        }
    }
    Ok(accounts)
}

/// The name and the number of the account of a line without the white space at its start. There is none if it
/// begins with a byte of which no name is looked up.
fn account_in(kind: AccountKind, line: &[u8]) -> Option<(&[u8], u32)>
    ensures { option_map (λ x. account x.0.now x.1) result ≡ account_in kind line.now }
{
    if begins_with(b'#', line) || begins_with(b'+', line) || begins_with(b'-', line) {
        return None;
    }
    let (name, following) = split_once(b':', line)?;
    let (_, fields) = split_once(b':', following)?;
    Some((name, number_in(kind, fields)?))
}

/// The number of an account, by the fields after its password.
fn number_in(kind: AccountKind, fields: &[u8]) -> Option<u32>
    ensures { result ≡ number_in kind fields.now }
{
    match kind {
        AccountKind::User => {
            let (number, following) = split_once(b':', fields)?;
            if field_number(up_to(b':', following)).is_some() {
                field_number(number)
            } else {
                None
            }
        }
        AccountKind::Group => field_number(up_to(b':', fields)),
    }
}

/// The number that a field gives.
fn field_number(text: &[u8]) -> Option<u32>
    ensures { result ≡ field_number text.now }
{
    let digits = bare(text);
    let number = decimal_below(NUMBERS, digits.strip_prefix(b"+").unwrap_or(digits))?;
    Some(number as u32)
}

/// A text without the white space at its start.
fn bare(text: &[u8]) -> &[u8]
    ensures { result.now ≡ bare text.now }
{
    let (_, following) = text.split_at(leading_whitespace(text));
    following
}
