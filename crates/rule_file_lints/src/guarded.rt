//! W15 and W25: rules that change every device, and results that no program gives yet.
ghost use Rattle.std.specs.Prelude.{◌≡◌, ◌++◌, OnOk, find, option_map};
ghost use Rattle.rule_lints.specs.Assignments.{changes_device};
ghost use Rattle.rule_file_lints.specs.Guarded.{first_spots, has_program, is_result, may_jump, no_result, unguarded};

use crate::file_rule::FileRule;
use crate::matches::may_end;
use rule_core::{Spot, WrittenPart};
use rule_lints::{Lint, add_word, changes_device, has_key};
use std::alloc::{AllocError, Global};

/// The key of programs that give a result.
const PROGRAM_KEYS: [&[u8]; 1] = [b"PROGRAM"];

/// Whether a rule may jump to a later one.
pub(crate) fn may_jump(rule: &FileRule<'_, '_>) -> bool
    ensures { result ≡ may_jump rule.now }
{
    let draft = rule.draft;
    draft.goto.is_some() && !rule.landing.lost
}

/// Adds the first assignment of a rule that changes the device, if the rule is for every device: nothing may end it, and
/// no rule above may jump.
pub(crate) fn add_unguarded(
    alloc: Global,
    spots: &mut Vec<Spot<Lint>>,
    guarded: bool,
    tokens: &[WrittenPart<'_>],
) -> Result<(), AllocError>
    ensures { OnOk result (spots.new.items ≡ spots.old.items ++ unguarded guarded tokens.now) }
{
    if guarded || may_end(tokens) {
        return Ok(());
    }
    add_first(alloc, spots, Lint::NoMatch, first_change(tokens))
}

/// The first of these tokens that changes the device.
fn first_change<'w, 't>(tokens: &'w [WrittenPart<'t>]) -> Option<&'w WrittenPart<'t>>
    ensures { option_map (λ w. w.now) result ≡ find (λ w. changes_device w.token) tokens.now }
{
    tokens.iter().find(|written| changes_device(&written.token))
}

/// Whether a rule has a program that gives a result.
pub(crate) fn has_program(tokens: &[WrittenPart<'_>]) -> bool
    ensures { result ≡ has_program tokens.now }
{
    has_key(&PROGRAM_KEYS, tokens)
}

/// Adds the first match of RESULT of a rule, if neither the rule nor one above has a program.
pub(crate) fn add_no_result(
    alloc: Global,
    spots: &mut Vec<Spot<Lint>>,
    programs: bool,
    tokens: &[WrittenPart<'_>],
) -> Result<(), AllocError>
    ensures { OnOk result (spots.new.items ≡ spots.old.items ++ no_result programs tokens.now) }
{
    if programs || has_program(tokens) {
        return Ok(());
    }
    add_first(alloc, spots, Lint::NoResultYet, first_result(tokens))
}

/// The first of these tokens that is a match of RESULT.
fn first_result<'w, 't>(tokens: &'w [WrittenPart<'t>]) -> Option<&'w WrittenPart<'t>>
    ensures { option_map (λ w. w.now) result ≡ find is_result tokens.now }
{
    tokens.iter().find(|written| is_result(written))
}

/// Whether a token is a match of RESULT.
fn is_result(written: &WrittenPart<'_>) -> bool
    ensures { result ≡ is_result written.now }
{
    written.token.key() == b"RESULT".as_slice()
}

/// Adds a lint about the key of a token, if there is one.
pub(crate) fn add_first(
    alloc: Global,
    spots: &mut Vec<Spot<Lint>>,
    lint: Lint,
    token: Option<&WrittenPart<'_>>,
) -> Result<(), AllocError>
    ensures { OnOk result (spots.new.items ≡ spots.old.items ++ first_spots lint (option_map (λ w. w.now) token.entry)) }
{
    match token {
        None => Ok(()),
        Some(token) => add_word(alloc, spots, lint, Some(token.token.key()), &token.token),
    }
}
