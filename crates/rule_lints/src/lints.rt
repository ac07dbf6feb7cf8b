//! What is reported for a rule by itself.
ghost use Rattle.std.specs.Prelude.{◌≡◌, ◌++◌, IfOk, OnOk, option_map};
ghost use Rattle.rule_lints.specs.Devices.{stranger};
ghost use Rattle.rule_lints.specs.RuleLints.{is_of_key, lints_of_rule, looks_at, reported, spots_of_stranger, spots_with, word_of};

use crate::commands::{forbidden_command, relative_program, shell_command};
use crate::devices::{Side, asked, is_of_net, stranger};
use crate::letter_case::wrong_case;
use crate::lint::Lint;
use crate::modes::wrong_mode;
use crate::names::{dev_link, is_outside_net, link_given, name_given, quoted_name};
use crate::patterns::{always_holds, expression, is_no_pattern};
use rule_tokens::Token;
use rule_types::{Spot, WrittenPart, spot_at_key, value_spot};
use std::alloc::{AllocError, Global};
use text_bytes::{Bytes, Profile};

/// What is reported for a rule's tokens: the lints of a rule by itself in the order of their codes, and those of
/// one code in written order.
#[tactic(auto, unfolding(crate::specs::RuleLints::lints_of_rule))]
pub fn lints_of_rule(
    alloc: Global,
    profile: Profile,
    tokens: &[WrittenPart<'_>],
) -> Result<Vec<Spot<Lint>>, AllocError>
    ensures { IfOk result (λ spots. spots.items ≡ lints_of_rule profile tokens.now) }
{
    let mut spots = Vec::new(alloc);
    add(alloc, profile, &mut spots, Lint::ModeNotOctal, tokens)?;
    add(alloc, profile, &mut spots, Lint::SignOfShell, tokens)?;
    add(alloc, profile, &mut spots, Lint::RelativeProgram, tokens)?;
    add(alloc, profile, &mut spots, Lint::LetterCase, tokens)?;
    add_stranger(alloc, &mut spots, Side::Event, tokens)?;
    add_stranger(alloc, &mut spots, Side::Chain, tokens)?;
    add(alloc, profile, &mut spots, Lint::NameOutsideNet, tokens)?;
    add(alloc, profile, &mut spots, Lint::LinkWithDev, tokens)?;
    add(alloc, profile, &mut spots, Lint::QuotedName, tokens)?;
    add(alloc, profile, &mut spots, Lint::NotAPattern, tokens)?;
    add(alloc, profile, &mut spots, Lint::AlwaysHolds, tokens)?;
    add(alloc, profile, &mut spots, Lint::NoPatternForUdev, tokens)?;
    add(alloc, profile, &mut spots, Lint::ForbiddenCommand, tokens)?;
    add(alloc, profile, &mut spots, Lint::LinkOfNet, tokens)?;
    Ok(spots)
}

/// Adds the W5 of a rule's tokens of a side, if any.
fn add_stranger(
    alloc: Global,
    spots: &mut Vec<Spot<Lint>>,
    side: Side,
    tokens: &[WrittenPart<'_>],
) -> Result<(), AllocError>
    ensures { OnOk result (spots.new.items ≡ spots.old.items ++ spots_of_stranger (stranger side tokens.now)) }
{
    match stranger(side, tokens) {
        None => Ok(()),
        Some(written) => {
            let token = &written.token;
            add_word(alloc, spots, Lint::NoSuchDevice, Some(asked(token)), token)
        }
    }
}

/// Adds what a lint of single tokens finds in a rule's tokens.
fn add(
    alloc: Global,
    profile: Profile,
    spots: &mut Vec<Spot<Lint>>,
    lint: Lint,
    tokens: &[WrittenPart<'_>],
) -> Result<(), AllocError>
    ensures { OnOk result (spots.new.items ≡ spots.old.items ++ reported profile lint tokens.now) }
{
    if !looks_at(lint, tokens) {
        return Ok(());
    }
    for written in tokens {
        let word = word_of(profile, lint, written);
        add_word(alloc, spots, lint, word, &written.token)?;
    }
    Ok(())
}

/// Whether a lint of single tokens looks at those of a rule.
fn looks_at(lint: Lint, tokens: &[WrittenPart<'_>]) -> bool
    ensures { result ≡ looks_at lint tokens.now }
{
    match lint {
        Lint::NameOutsideNet => is_outside_net(tokens),
        Lint::LinkOfNet => is_of_net(tokens),
        _ => true,
    }
}

/// Adds a lint about a token, if there is a text with which it is reported. It is about the token's key or about its
/// value, by its kind.
pub fn add_word(
    alloc: Global,
    spots: &mut Vec<Spot<Lint>>,
    lint: Lint,
    word: Option<&[u8]>,
    token: &Token<'_>,
) -> Result<(), AllocError>
    ensures { OnOk result (spots.new.items ≡ spots.old.items ++ spots_with lint token.now (option_map (λ text. text.now) word.entry)) }
{
    if let Some(word) = word {
        let word = Bytes::copy_of(alloc, word)?;
        let spot = if is_of_key(lint) {
            spot_at_key(lint, word, token)
        } else {
            value_spot(lint, word, token)
        };
        spots.push(spot)?;
    }
    Ok(())
}

/// Whether a lint is about a token's key, and not about its value.
fn is_of_key(lint: Lint) -> bool
    ensures { result ≡ is_of_key lint }
{
    match lint {
        Lint::ModeNotOctal
        | Lint::SignOfShell
        | Lint::RelativeProgram
        | Lint::LetterCase
        | Lint::NameOutsideNet
        | Lint::LinkWithDev
        | Lint::NotAPattern
        | Lint::NeverFits
        | Lint::BlankBesideBar
        | Lint::NotSubstituted
        | Lint::NameTooLong
        | Lint::ForbiddenCommand
        | Lint::LinkOfNet => false,
        _ => true,
    }
}

/// The text with which a lint of single tokens is reported for this one, if it is reported.
fn word_of<'w>(profile: Profile, lint: Lint, written: &'w WrittenPart<'_>) -> Option<&'w [u8]>
    ensures { option_map (λ word. word.now) result ≡ word_of profile lint written.now }
{
    match lint {
        Lint::ModeNotOctal => wrong_mode(profile, &written.part),
        Lint::SignOfShell => shell_command(&written.part),
        Lint::RelativeProgram => relative_program(&written.part),
        Lint::LetterCase => wrong_case(&written.part),
        Lint::NameOutsideNet => name_given(&written.part),
        Lint::LinkWithDev => dev_link(profile, &written.part),
        Lint::QuotedName => quoted_name(&written.token),
        Lint::NotAPattern => expression(&written.part),
        Lint::AlwaysHolds => always_holds(&written.part).then_some(written.token.key()),
        Lint::NoPatternForUdev => {
            is_no_pattern(profile, &written.part).then_some(written.token.key())
        }
        Lint::ForbiddenCommand => forbidden_command(&written.part),
        Lint::LinkOfNet => link_given(&written.part),
        _ => None,
    }
}
