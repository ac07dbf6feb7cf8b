//! W27: the tag `uaccess` in a file that udev evaluates after the one that reads it.
ghost use Rattle.std.specs.Prelude.{◌≡◌, ◌++◌, OnOk, find, option_map};
ghost use Rattle.rule_file_lints.specs.Late.{gives_access, has_access, has_tag, is_giving, late_tag, runs_access};

use crate::guarded::add_first;
use rule_core::{Spot, WrittenPart};
use rule_lints::{Lint, first_word};
use rule_tokens::{Operator, Token};
use std::alloc::{AllocError, Global};

/// The file of systemd that gives users at a seat access to a device with the tag.
pub(crate) const ACCESS_FILE: &[u8] = b"73-seat-late.rules";

/// Whether an operator gives a value.
fn is_giving(operator: Operator) -> bool
    ensures { result ≡ is_giving operator }
{
    matches!(
        operator,
        Operator::Add | Operator::Assign | Operator::AssignFinal
    )
}

/// Whether a token gives the tag.
fn gives_access(token: &Token<'_>) -> bool
    ensures { result ≡ gives_access token.now }
{
    token.key() == b"TAG".as_slice()
        && is_giving(token.operator())
        && token.value() == b"uaccess".as_slice()
}

/// Whether a token runs the builtin that gives access.
fn runs_access(token: &Token<'_>) -> bool
    ensures { result ≡ runs_access token.now }
{
    token.key() == b"RUN".as_slice() && first_word(token.value()) == b"uaccess".as_slice()
}

/// Whether a rule with these tokens runs it.
pub(crate) fn has_access(tokens: &[WrittenPart<'_>]) -> bool
    ensures { result ≡ has_access tokens.now }
{
    tokens.iter().any(|written| runs_access(&written.token))
}

/// Whether a rule gives the tag.
pub(crate) fn has_tag(tokens: &[WrittenPart<'_>]) -> bool
    ensures { result ≡ has_tag tokens.now }
{
    tokens.iter().any(|written| gives_access(&written.token))
}

/// Adds the first token of a rule that gives the tag, if it comes too late and no rule above gives it.
pub(crate) fn add_late_tag(
    alloc: Global,
    spots: &mut Vec<Spot<Lint>>,
    late: bool,
    above: bool,
    tokens: &[WrittenPart<'_>],
) -> Result<(), AllocError>
    ensures { OnOk result (spots.new.items ≡ spots.old.items ++ late_tag late above tokens.now) }
{
    if !late || above {
        return Ok(());
    }
    add_first(alloc, spots, Lint::TagTooLate, first_tag(tokens))
}

/// The first of these tokens that gives the tag.
fn first_tag<'w, 't>(tokens: &'w [WrittenPart<'t>]) -> Option<&'w WrittenPart<'t>>
    ensures { option_map (λ w. w.now) result ≡ find (λ w. gives_access w.token) tokens.now }
{
    tokens.iter().find(|written| gives_access(&written.token))
}
