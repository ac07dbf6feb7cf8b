//! The options of OPTIONS.
ghost use Rattle.std.specs.Prelude.{◌≡◌, Some, codes, false, map};
ghost use Rattle.text_bytes.specs.Texts.{following};
ghost use Rattle.rule_parts.specs.Options.{as_level, as_priority, below_zero, beside, from_zero, level_of, number_of, priority_of};
ghost use Rattle.rule_parts.specs.Options.{is_ignored, is_known_option, option_by, option_of, other_option, udev_option, udev_other};

use rule_tokens::{integer_of, natural_of};
use rule_types::RuleOption;
use text_bytes::{Profile, decimal_below};

/// A number above zero is below this, and one below zero may be this far from zero.
const MAX_SIZE: u64 = 1 << 31;

/// A priority of links is below this, and the least is this far below zero.
const PRIORITIES: i64 = 1 << 31;

/// Each option that is one word, by its name.
const WORDS: [(&[u8], RuleOption); 5] = [
    (b"watch", RuleOption::Watch),
    (b"nowatch", RuleOption::NoWatch),
    (b"db_persist", RuleOption::DbPersist),
    (b"string_escape=none", RuleOption::KeepEscapes),
    (b"string_escape=replace", RuleOption::ReplaceEscapes),
];

/// The levels of the log by their names.
const LEVELS: [(&[u8], i32); 9] = [
    (b"reset", -1),
    (b"emerg", 0),
    (b"alert", 1),
    (b"crit", 2),
    (b"err", 3),
    (b"warning", 4),
    (b"notice", 5),
    (b"info", 6),
    (b"debug", 7),
];

/// What a table has beside a name.
fn beside<X: Copy>(rows: &[(&[u8], X)], text: &[u8]) -> Option<X>
    ensures { result ≡ beside (map (λ row. (row.0.now, row.1)) rows.now) text.now }
{
    for row in rows {
        if row.0 == text {
            return Some(row.1);
        }
    }
    None
}

/// The number that a text writes within 32 signed bits: a minus, a plus or no sign, and after it
/// decimal digits.
#[tactic(auto, unfolding(crate::specs::Options::number_of))]
fn number_of(text: &[u8]) -> Option<i32>
    ensures { result ≡ number_of text.now }
{
    match text.strip_prefix(b"-") {
        Some(digits) => below_zero(digits),
        None => from_zero(text.strip_prefix(b"+").unwrap_or(text)),
    }
}

/// The number below zero, or zero, that digits write after a minus.
fn below_zero(digits: &[u8]) -> Option<i32>
    ensures { result ≡ below_zero digits.now }
{
    let size = decimal_below(MAX_SIZE + 1, digits)?;
    Some((-(size as i64)) as i32)
}

/// The number that digits write.
fn from_zero(digits: &[u8]) -> Option<i32>
    ensures { result ≡ from_zero digits.now }
{
    let size = decimal_below(MAX_SIZE, digits)?;
    Some(size as i32)
}

/// Whether a text is an option that changes nothing here, whatever it is set to.
fn is_ignored(text: &[u8]) -> bool
    ensures { result ≡ is_ignored text.now }
{
    text.strip_prefix(b"static_node=").is_some() || text.strip_prefix(b"log_level=").is_some()
}

/// The option of a text that is not a priority.
fn other_option(text: &[u8]) -> Option<RuleOption>
    ensures { result ≡ other_option text.now }
{
    if is_ignored(text) {
        Some(RuleOption::Ignored)
    } else {
        beside(&WORDS, text)
    }
}

/// The option of a text by a profile, if it is one. For udev an option that it does not know is one that changes
/// nothing.
#[tactic(auto, unfolding(crate::specs::Options::option_of))]
pub fn option_of(profile: Profile, text: &[u8]) -> Option<RuleOption>
    ensures { result ≡ option_of profile text.now }
{
    match profile {
        Profile::Manual => manual_option(text),
        Profile::Udev => udev_option(text),
    }
}

/// The option of a text by the manual, if it is one.
fn manual_option(text: &[u8]) -> Option<RuleOption>
    ensures { result ≡ option_by text.now (following (codes "link_priority=") text.now) }
{
    match text.strip_prefix(b"link_priority=") {
        Some(number) => number_of(number).map(|priority| RuleOption::LinkPriority(priority)),
        None => other_option(text),
    }
}

/// The option of a text for udev, if it is one.
fn udev_option(text: &[u8]) -> Option<RuleOption>
    ensures { result ≡ udev_option text.now (following (codes "link_priority=") text.now) }
{
    match text.strip_prefix(b"link_priority=") {
        Some(number) => priority_of(number).map(|priority| RuleOption::LinkPriority(priority)),
        None => udev_other(text),
    }
}

/// The option for udev of a text that is not a priority.
fn udev_other(text: &[u8]) -> Option<RuleOption>
    ensures { result ≡ udev_other text.now (following (codes "log_level=") text.now) }
{
    match text.strip_prefix(b"log_level=") {
        Some(level) => level_of(level).map(|_| RuleOption::LogLevel),
        None => Some(other_option(text).unwrap_or(RuleOption::Ignored)),
    }
}

/// The priority of links that udev reads in a text, in 32 signed bits.
#[tactic(auto, unfolding(crate::specs::Options::priority_of))]
fn priority_of(text: &[u8]) -> Option<i32>
    ensures { result ≡ priority_of text.now }
{
    as_priority(integer_of(text)?)
}

/// An integer as a priority of links.
fn as_priority(number: i64) -> Option<i32>
    ensures { result ≡ as_priority number }
{
    if -PRIORITIES <= number && number < PRIORITIES {
        Some(number as i32)
    } else {
        None
    }
}

/// The level of the log that udev reads in a text after `log_level=`: 0 to 7, or -1 for `reset`.
#[tactic(auto, unfolding(crate::specs::Options::level_of))]
pub fn level_of(text: &[u8]) -> Option<i32>
    ensures { result ≡ level_of text.now }
{
    match beside(&LEVELS, text) {
        Some(level) => Some(level),
        None => as_level(natural_of(text)?),
    }
}

/// A number as a level of the log.
fn as_level(number: u64) -> Option<i32>
    ensures { result ≡ as_level number }
{
    if number <= 7 {
        Some(number as i32)
    } else {
        None
    }
}

/// Whether udev knows the option of a text, whatever it is set to.
#[tactic(auto, using(crate::proofs::Ignoring::unknown_is_ignored))]
pub fn is_known_option(text: &[u8]) -> bool
    ensures known { result ≡ is_known_option text.now }
    // For udev one that it does not know changes nothing.
    ensures ignored { result ≡ false → option_of Profile.Udev text.now ≡ Some RuleOption.Ignored }
{
    text.strip_prefix(b"link_priority=").is_some() || other_option(text).is_some()
}
