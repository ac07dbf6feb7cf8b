//! Matches of properties that are imported only further down.
ghost use Rattle.std.specs.Prelude.{◌≡◌, [], ◌++◌, OnOk, false, flat_map, if◌then◌else◌, option_map};
ghost use Rattle.rule_file_lints.specs.Beside.{imported_beside, late_spots};
ghost use Rattle.rule_file_lints.specs.Imported.{asked_for, imported_below, wanted_in};

use crate::beside::{imports_any, is_early};
use crate::imported::{has_property, is_given};
use rule_core::{Spot, WrittenPart, spot_at_key};
use rule_lints::Lint;
use rule_types::{MatchOperator, Part, PlainKey};
use std::alloc::{AllocError, Global};
use text_bytes::Bytes;
use text_core::Choice;
use text_tables::OwnedTexts;

/// Adds the matches of a rule that ask for properties that its file imports, if these are not given before.
pub(crate) fn add_imported_below(
    alloc: Global,
    spots: &mut Vec<Spot<Lint>>,
    imported: &OwnedTexts,
    given: &OwnedTexts,
    tokens: &[WrittenPart<'_>],
) -> Result<(), AllocError>
    ensures { OnOk result (spots.new.items ≡ spots.old.items ++ flat_map (imported_below imported.now given.now) tokens.now) }
{
    for token in tokens {
        add_token(alloc, spots, imported, given, token)?;
    }
    Ok(())
}

/// Adds a match that asks for a property that the file imports, if it is not given before.
fn add_token(
    alloc: Global,
    spots: &mut Vec<Spot<Lint>>,
    imported: &OwnedTexts,
    given: &OwnedTexts,
    token: &WrittenPart<'_>,
) -> Result<(), AllocError>
    ensures { OnOk result (spots.new.items ≡ spots.old.items ++ imported_below imported.now given.now token.now) }
{
    if let Some(name) = wanted_in(&token.part) {
        if has_property(imported, name) && !is_given(given, name) {
            let word = Bytes::copy_of(alloc, name)?;
            spots.push(spot_at_key(Lint::ImportedBelow, word, &token.token))?;
        }
    }
    Ok(())
}

/// Adds the matches of a rule that are written after an import of any names, and ask for properties that are not given
/// before the rule.
pub(crate) fn add_imported_beside(
    alloc: Global,
    spots: &mut Vec<Spot<Lint>>,
    given: &OwnedTexts,
    tokens: &[WrittenPart<'_>],
) -> Result<(), AllocError>
    ensures { OnOk result (spots.new.items ≡ spots.old.items ++ imported_beside given.now false tokens.now) }
{
    let mut imported = false;
    for token in tokens {
        add_if_imported(alloc, spots, given, imported, token)?;
        imported = imported || imports_any(token);
    }
    Ok(())
}

/// Adds a match that asks for a property that is not given before, if an import of any names is written before it.
fn add_if_imported(
    alloc: Global,
    spots: &mut Vec<Spot<Lint>>,
    given: &OwnedTexts,
    imported: bool,
    token: &WrittenPart<'_>,
) -> Result<(), AllocError>
    ensures { OnOk result (spots.new.items ≡ spots.old.items ++ (if imported then late_spots given.now token.now (wanted_in token.now.part) else [])) }
{
    if imported {
        add_late(alloc, spots, given, token)?;
    }
    Ok(())
}

/// Adds a match that asks for a property that is not given before.
fn add_late(
    alloc: Global,
    spots: &mut Vec<Spot<Lint>>,
    given: &OwnedTexts,
    token: &WrittenPart<'_>,
) -> Result<(), AllocError>
    ensures { OnOk result (spots.new.items ≡ spots.old.items ++ late_spots given.now token.now (wanted_in token.now.part)) }
{
    if let Some(name) = wanted_in(&token.part) {
        if !(is_given(given, name) || is_early(name)) {
            let word = Bytes::copy_of(alloc, name)?;
            spots.push(spot_at_key(Lint::ImportedBelow, word, &token.token))?;
        }
    }
    Ok(())
}

/// The property without which a part of a rule holds for no device, if there is one.
fn wanted_in(part: &Part) -> Option<&[u8]>
    ensures { option_map (λ name. name.now) result ≡ wanted_in part.now }
{
    match part {
        Part::Plain(found) => match found.wanted.operator {
            MatchOperator::Equal => asked_for(&found.key, &found.wanted.choice),
            MatchOperator::NotEqual => None,
        },
        _ => None,
    }
}

/// The property that patterns are compared with, if none of them fits the empty text.
fn asked_for<'a>(key: &'a PlainKey, choice: &Choice) -> Option<&'a [u8]>
    ensures { option_map (λ name. name.now) result ≡ asked_for key.now choice.now }
{
    match key {
        PlainKey::Env(name) => {
            if choice.fits(b"") {
                None
            } else {
                Some(name.as_slice())
            }
        }
        _ => None,
    }
}
