//! What is reported for the values, the names and the assignments of a rule.
ghost use Rattle.std.specs.Prelude.{◌≡◌, ◌++◌, not, ◌&&◌, OnOk, option_map};
ghost use Rattle.std.specs.List.{list_any};
ghost use Rattle.rule_lints.specs.Assignments.{changes_device, is_untagged};
ghost use Rattle.rule_lints.specs.ValueLints.{found_by, found_in, value_lints, word_of};

use crate::assignments::{
    changes_device, is_meant_to_match, is_untagged, replaces_list, wants_unit,
};
use crate::lint::Lint;
use crate::lints::add_word;
use crate::near::known_instead;
use crate::never::impossible;
use crate::values::{is_blank_beside_bar, is_compared, is_long_name, is_no_substitution};
use rule_types::{Spot, WrittenPart};
use std::alloc::{AllocError, Global};
use std::marker::Model;

/// The lints, in the order of their codes.
const LINTS: [Lint; 8] = [
    Lint::NeverFits,
    Lint::BlankBesideBar,
    Lint::UnknownName,
    Lint::NotSubstituted,
    Lint::ListReplaced,
    Lint::MeantAsMatch,
    Lint::NameTooLong,
    Lint::WantedWithoutTag,
];

/// What a rule's tokens are together.
#[derive(Drop)]
struct Setting {
    /// They change the device, its node or its names, or run a command.
    changes: bool,
    /// They hold only for devices that systemd does not see.
    unseen: bool,
}

impl Model for Setting {
    ghost use Rattle.rule_lints.specs.ValueLints as value_lints;

    ghost Value = { value_lints.Setting };

    ghost view = { λ s. record { changes = s.changes; unseen = s.unseen } };
}

/// Adds what is reported for a rule's values, names and assignments, W16 to W23: token by token in written order, and for
/// each in the order of the codes. It is given whether some rule of the file is about tags.
pub fn add_value_lints(
    alloc: Global,
    spots: &mut Vec<Spot<Lint>>,
    tagged: bool,
    tokens: &[WrittenPart<'_>],
) -> Result<(), AllocError>
    ensures { OnOk result (spots.new.items ≡ spots.old.items ++ value_lints tagged tokens.now) }
{
    let setting = Setting {
        changes: change_device(tokens),
        unseen: are_unseen(tagged, tokens),
    };
    add_tokens(alloc, spots, &setting, tokens)
}

/// Whether tokens change the device, its node or its names, or run a command.
fn change_device(tokens: &[WrittenPart<'_>]) -> bool
    ensures { result ≡ list_any (λ w. changes_device w.token) tokens.now }
{
    tokens.iter().any(|written| changes_device(&written.token))
}

/// Whether tokens hold only for devices that systemd does not tag.
fn are_untagged(tokens: &[WrittenPart<'_>]) -> bool
    ensures { result ≡ list_any (λ w. is_untagged w.token) tokens.now }
{
    tokens.iter().any(|written| is_untagged(&written.token))
}

/// Whether tokens hold only for devices that systemd does not see, in a file some of whose rules are about tags or none.
fn are_unseen(tagged: bool, tokens: &[WrittenPart<'_>]) -> bool
    ensures { result ≡ not tagged && list_any (λ w. is_untagged w.token) tokens.now }
{
    !tagged && are_untagged(tokens)
}

/// Adds what is reported for these tokens.
fn add_tokens(
    alloc: Global,
    spots: &mut Vec<Spot<Lint>>,
    setting: &Setting,
    tokens: &[WrittenPart<'_>],
) -> Result<(), AllocError>
    ensures { OnOk result (spots.new.items ≡ spots.old.items ++ found_by setting.now tokens.now) }
{
    for written in tokens {
        add_lints(alloc, spots, setting, written, &LINTS)?;
    }
    Ok(())
}

/// Adds what these lints find in a token.
fn add_lints(
    alloc: Global,
    spots: &mut Vec<Spot<Lint>>,
    setting: &Setting,
    written: &WrittenPart<'_>,
    lints: &[Lint],
) -> Result<(), AllocError>
    ensures { OnOk result (spots.new.items ≡ spots.old.items ++ found_in setting.now written.now lints.now) }
{
    for lint in lints {
        add_word(
            alloc,
            spots,
            *lint,
            word_of(setting, *lint, written),
            &written.token,
        )?;
    }
    Ok(())
}

/// The text with which a lint is reported for a token, if it is reported.
fn word_of<'w>(setting: &Setting, lint: Lint, written: &'w WrittenPart<'_>) -> Option<&'w [u8]>
    ensures { option_map (λ text. text.now) result ≡ word_of setting.now lint written.now }
{
    let part = &written.part;
    let token = &written.token;
    let value = token.value();
    match lint {
        Lint::NeverFits => impossible(part),
        Lint::BlankBesideBar => (is_compared(part) && is_blank_beside_bar(value)).then_some(value),
        Lint::UnknownName => known_instead(token),
        Lint::NotSubstituted => is_no_substitution(is_compared(part), value).then_some(value),
        Lint::ListReplaced => replaces_list(token).then_some(token.key()),
        Lint::MeantAsMatch => is_meant_to_match(setting.changes, token).then_some(token.key()),
        Lint::NameTooLong => is_long_name(token).then_some(value),
        Lint::WantedWithoutTag => (setting.unseen && wants_unit(token)).then_some(token.key()),
        _ => None,
    }
}
