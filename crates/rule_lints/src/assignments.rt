//! W20, W21 and W23: lists that are replaced, values that were meant to be compared, and units that are wanted by devices
//! that systemd does not see.
ghost use Rattle.std.specs.Prelude.{◌≡◌, map};
ghost use Rattle.rule_lints.specs.Assignments.{changes_device, has_key, is_about_tags, is_meant_to_match, is_untagged, replaces_list};
ghost use Rattle.rule_lints.specs.Assignments.{wants_unit};

use crate::tables::{
    CHANGING_KEYS, FIXED_ATTRIBUTES, LIST_KEYS, TELLING_PROPERTIES, UNTAGGED_SUBSYSTEMS,
    WANTING_PROPERTIES,
};
use crate::value_texts::has_name;
use crate::values::is_constant;
use rule_tokens::{Operator, Token};
use rule_types::WrittenPart;
use text_tables::is_among;

/// The keys of tags.
const TAG_KEYS: [&[u8]; 2] = [b"TAG", b"TAGS"];

/// Whether W20 is reported for a token: it takes away what earlier rules added to a list.
pub(crate) fn replaces_list(token: &Token<'_>) -> bool
    ensures { result ≡ replaces_list token.now }
{
    is_among(&LIST_KEYS, token.key())
        && token.operator() == Operator::Assign
        && !token.value().is_empty()
}

/// Whether a token changes its device, its node or its names, or runs a command.
pub fn changes_device(token: &Token<'_>) -> bool
    ensures { result ≡ changes_device token.now }
{
    is_among(&CHANGING_KEYS, token.key()) && !token.operator().compares()
}

/// Whether W21 is reported for a token of a rule, which changes its device or does not.
pub(crate) fn is_meant_to_match(changes: bool, token: &Token<'_>) -> bool
    ensures { result ≡ is_meant_to_match changes token.now }
{
    token.operator() == Operator::Assign
        && (has_name(b"ATTR", &FIXED_ATTRIBUTES, token)
            || (changes
                && has_name(b"ENV", &TELLING_PROPERTIES, token)
                && is_constant(token.value())))
}

/// Whether W23 is reported for a token of a rule whose device systemd does not see: it wants a unit.
pub(crate) fn wants_unit(token: &Token<'_>) -> bool
    ensures { result ≡ wants_unit token.now }
{
    has_name(b"ENV", &WANTING_PROPERTIES, token) && !token.operator().compares()
}

/// Whether a token holds only for a device that systemd's own rules do not tag.
pub(crate) fn is_untagged(token: &Token<'_>) -> bool
    ensures { result ≡ is_untagged token.now }
{
    token.key() == b"SUBSYSTEM".as_slice()
        && token.operator() == Operator::Equal
        && is_among(&UNTAGGED_SUBSYSTEMS, token.value())
}

/// Whether one of a rule's tokens has one of these keys.
pub fn has_key(keys: &[&[u8]], tokens: &[WrittenPart<'_>]) -> bool
    ensures { result ≡ has_key (map (λ key. key.now) keys.now) tokens.now }
{
    tokens
        .iter()
        .any(|written| is_among(keys, written.token.key()))
}

/// Whether a rule gives tags, or compares them.
pub fn is_about_tags(tokens: &[WrittenPart<'_>]) -> bool
    ensures { result ≡ is_about_tags tokens.now }
{
    has_key(&TAG_KEYS, tokens)
}
