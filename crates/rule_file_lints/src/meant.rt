//! Assignments of values that rules compare, for which a comparison was most likely meant.
ghost use Rattle.std.specs.Prelude.{◌≡◌, ◌++◌, OnOk};
ghost use Rattle.std.specs.List.{count_by};
ghost use Rattle.text_tables.specs.Texts.{with_texts};
ghost use Rattle.rule_file_lints.specs.Compared.{assigned_value, compared_by, meant_spots, meant_to_compare};
ghost use Rattle.rule_file_lints.specs.Matches.{is_match};
ghost use Rattle.rule_file_lints.specs.Steps.{before_matches, left_after};

use crate::matches::is_match;
use crate::valued::{assigned_value, compared_in, text_of};
use rule_core::{Spot, WrittenPart, spot_at_key};
use rule_lints::Lint;
use std::alloc::{AllocError, Global};
use text_bytes::Bytes;
use text_tables::OwnedTexts;

/// Adds what the tokens of a rule compare by `==`.
pub(crate) fn add_compared(
    alloc: Global,
    texts: &mut OwnedTexts,
    tokens: &[WrittenPart<'_>],
) -> Result<(), AllocError>
    ensures { OnOk result (texts.new ≡ with_texts texts.old (compared_by tokens.now)) }
{
    for token in tokens {
        if let Some(valued) = compared_in(&token.part) {
            texts.add(alloc, &text_of(alloc, &valued)?)?;
        }
    }
    Ok(())
}

/// Adds the assignments of a rule that a match follows, if what they give is compared.
pub(crate) fn add_meant(
    alloc: Global,
    spots: &mut Vec<Spot<Lint>>,
    compared: &OwnedTexts,
    tokens: &[WrittenPart<'_>],
) -> Result<(), AllocError>
    ensures { OnOk result (spots.new.items ≡ spots.old.items ++ meant_to_compare compared.now tokens.now) }
{
    let mut following = matches_in(tokens);
    for token in tokens {
        let left = left_after(following, token);
        add_before(alloc, spots, compared, token, left)?;
        following = left;
    }
    Ok(())
}

/// How many of so many matches follow a token, which may be the first of them.
fn left_after(matches: usize, token: &WrittenPart<'_>) -> usize
    ensures { result ≡ left_after matches token.now }
{
    if is_match(&token.part) {
        matches.saturating_sub(1)
    } else {
        matches
    }
}

/// Adds an assignment that so many matches follow, if there are any and what it gives is compared.
fn add_before(
    alloc: Global,
    spots: &mut Vec<Spot<Lint>>,
    compared: &OwnedTexts,
    token: &WrittenPart<'_>,
    matches: usize,
) -> Result<(), AllocError>
    ensures { OnOk result (spots.new.items ≡ spots.old.items ++ before_matches matches compared.now token.now) }
{
    if matches > 0 {
        add_token(alloc, spots, compared, token)?;
    }
    Ok(())
}

/// How many matches a rule has.
fn matches_in(tokens: &[WrittenPart<'_>]) -> usize
    ensures { result ≡ count_by (λ w. is_match w.part) tokens.now }
{
    tokens.iter().filter(|token| is_match(&token.part)).count()
}

/// Adds an assignment, if what it gives is compared.
fn add_token(
    alloc: Global,
    spots: &mut Vec<Spot<Lint>>,
    compared: &OwnedTexts,
    token: &WrittenPart<'_>,
) -> Result<(), AllocError>
    ensures { OnOk result (spots.new.items ≡ spots.old.items ++ meant_spots compared.now token.now (assigned_value token.now.part)) }
{
    if let Some(valued) = assigned_value(&token.part) {
        if compared.contains(&text_of(alloc, &valued)?) {
            let word = Bytes::copy_of(alloc, valued.name)?;
            spots.push(spot_at_key(Lint::MeantToCompare, word, &token.token))?;
        }
    }
    Ok(())
}
