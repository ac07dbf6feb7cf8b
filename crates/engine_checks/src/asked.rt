//! What the texts of `--ignore` ask for.
ghost use Rattle.std.specs.Prelude.{◌≡◌, IfOk, map, option_map};
ghost use Rattle.text_bytes.specs.Text.{Text};
ghost use Rattle.text_tables.specs.Texts.{is_among};
ghost use Rattle.engine_checks.specs.Codes.{has_comments};
ghost use Rattle.engine_checks.specs.Files.{accounts_by, ignored_by};
ghost use Rattle.rule_remarks.specs.AccountLines.{accounts_of};

use crate::reported::Asked;
use engine_sessions::{AccountFile, Line};
use rule_remarks::{AccountKind, AccountList, Accounts, read_accounts};
use std::alloc::{AllocError, Global};
use text_tables::Texts;

/// The word among the codes that lets comments count.
const COMMENTS: &[u8] = b"comments";

/// The texts, each once.
fn ignored_codes<'a>(alloc: Global, ignored: &[&'a str]) -> Result<Texts<'a>, AllocError>
    ensures { IfOk result (λ codes. (code : Text) → is_among codes code ≡ is_among (map (λ t. t.now) ignored.now) code) }
{
    let mut codes = Texts::new(alloc);
    for text in ignored {
        codes.add(text.as_bytes())?;
    }
    Ok(codes)
}

/// Whether the texts let comments count.
pub(crate) fn has_comments(codes: &Texts<'_>) -> bool
    ensures { result ≡ has_comments codes.now }
{
    codes.contains(COMMENTS)
}

/// The accounts that a file lists, if there is one.
fn accounts_in(
    alloc: Global,
    kind: AccountKind,
    file: &Option<AccountFile<'_>>,
) -> Result<Option<AccountList>, AllocError>
    ensures { IfOk result (λ list. list ≡ option_map (λ f. accounts_of kind f.bytes) file.now) }
{
    let Some(file) = file else {
        return Ok(None);
    };
    let listed = read_accounts(alloc, kind, file.bytes.as_slice())?;
    Ok(Some(AccountList::of(alloc, listed)?))
}

/// The users and the groups that a line knows.
fn accounts_by(alloc: Global, line: &Line<'_>) -> Result<Accounts, AllocError>
    ensures { IfOk result (λ accounts. accounts ≡ accounts_by line.now) }
{
    Ok(Accounts {
        users: accounts_in(alloc, AccountKind::User, &line.users)?,
        groups: accounts_in(alloc, AccountKind::Group, &line.groups)?,
    })
}

/// Which messages a line asks for.
pub(crate) fn asked_by<'a>(alloc: Global, line: &Line<'a>) -> Result<Asked<'a>, AllocError>
    ensures profile { IfOk result (λ asked. asked.profile ≡ line.now.profile) }
    ensures accounts { IfOk result (λ asked. asked.accounts ≡ accounts_by line.now) }
    ensures style { IfOk result (λ asked. asked.style ≡ line.now.style) }
    ensures lint { IfOk result (λ asked. asked.lint ≡ line.now.lint) }
    ensures ignored { IfOk result (λ asked. (code : Text) → is_among asked.ignored code ≡ is_among (ignored_by line.now) code) }
{
    Ok(Asked {
        profile: line.profile,
        accounts: accounts_by(alloc, line)?,
        style: line.style,
        lint: line.lint,
        ignored: ignored_codes(alloc, &line.ignored)?,
    })
}
