//! When two tokens of a rule say the same, and when they exclude each other.
ghost use Rattle.std.specs.Prelude.{◌≡◌, ◌&&◌, map};
ghost use Rattle.std.specs.List.{list_all, list_any};
ghost use Rattle.text_tables.specs.Texts.{is_among};
ghost use Rattle.rule_remarks.specs.Relations.{all_part_ways, are_alike, beginning, is_against, is_same, is_strict, lacks_words, leave_nothing};
ghost use Rattle.rule_remarks.specs.Relations.{parts_from_all, same_matter, same_way};

use crate::form::Form;
use crate::said::Said;
use rule_types::Operator;
use text_core::is_special;
use text_tables::OwnedTexts;

/// Whether two tokens say the same.
#[tactic(auto, unfolding(crate::specs::Relations::is_same))]
pub(crate) fn is_same(a: &Said, b: &Said) -> bool
    ensures { result ≡ is_same a.now b.now }
{
    are_alike(a, b) && a.operator == b.operator
}

/// Whether two tokens exclude each other: they are alike, but for `==` and `!=`, or they are of one matter and compare by `==`
/// so that no value can satisfy both.
#[tactic(auto, unfolding(crate::specs::Relations::is_against))]
pub(crate) fn is_against(a: &Said, b: &Said) -> bool
    ensures { result ≡ is_against a.now b.now }
{
    if are_alike(a, b) {
        return matches!(
            (a.operator, b.operator),
            (Operator::Equal, Operator::NotEqual) | (Operator::NotEqual, Operator::Equal)
        );
    }
    are_comparable(a, b)
        && is_strict(a)
        && is_strict(b)
        && leave_nothing(a.form, &a.words, &b.words)
}

/// Whether two tokens are alike: they differ in their operators, and in the order of their words, at most.
fn are_alike(a: &Said, b: &Said) -> bool
    ensures { result ≡ are_alike a.now b.now }
{
    are_comparable(a, b)
        && (lacks_words(a)
            || (has_all(&b.words, a.words.as_slice()) && has_all(&a.words, b.words.as_slice())))
}

/// Whether two tokens are of the same kind, about the same matter, and compare in the same way.
fn are_comparable(a: &Said, b: &Said) -> bool
    ensures { result ≡ (same_matter a.now b.now && same_way a.now b.now) }
{
    a.key == b.key
        && a.kind == b.kind
        && a.name.as_slice() == b.name.as_slice()
        && a.number == b.number
        && a.form == b.form
        && a.blind == b.blind
        && a.trims == b.trims
}

/// Whether the words of a token do not matter: in its form each text means the same, case counts, and it does not trim.
pub(crate) fn lacks_words(a: &Said) -> bool
    ensures { result ≡ lacks_words a.now }
{
    matches!(a.form, Form::AnySubsystem | Form::Empty) && !a.blind && !a.trims
}

/// Whether a token compares by `==`, case counts, and it does not trim.
pub(crate) fn is_strict(a: &Said) -> bool
    ensures { result ≡ is_strict a.now }
{
    a.operator == Operator::Equal && !a.blind && !a.trims
}

/// Whether no value can satisfy both lists of words, by their form.
fn leave_nothing(form: Form, words: &OwnedTexts, others: &OwnedTexts) -> bool
    ensures { result ≡ leave_nothing form words.now others.now }
{
    match form {
        Form::Plain => !has_any(others, words.as_slice()),
        Form::Pattern => all_part_ways(words.as_slice(), others.as_slice()),
        _ => false,
    }
}

/// Whether each of these words is among texts.
fn has_all(texts: &OwnedTexts, words: &[Vec<u8>]) -> bool
    ensures { result ≡ list_all (is_among texts.now) (map (λ word. word.items) words.now) }
{
    for word in words {
        if !texts.contains(word) {
            return false;
        }
    }
    true
}

/// Whether one of these words is among texts.
pub(crate) fn has_any(texts: &OwnedTexts, words: &[Vec<u8>]) -> bool
    ensures { result ≡ list_any (is_among texts.now) (map (λ word. word.items) words.now) }
{
    for word in words {
        if texts.contains(word) {
            return true;
        }
    }
    false
}

/// Whether the beginnings of any two patterns part ways, one from each list.
fn all_part_ways(words: &[Vec<u8>], others: &[Vec<u8>]) -> bool
    ensures { result ≡ all_part_ways (map (λ word. word.items) words.now) (map (λ word. word.items) others.now) }
{
    for word in words {
        if !parts_from_all(beginning(word), others) {
            return false;
        }
    }
    true
}

/// Whether a beginning parts ways with those of all these patterns: neither is empty, and neither begins with the other.
#[tactic(auto, unfolding(crate::specs::Relations::parts_from_all, crate::specs::Relations::part_ways))]
fn parts_from_all(prefix: &[u8], others: &[Vec<u8>]) -> bool
    ensures { result ≡ parts_from_all prefix.now (map (λ word. word.items) others.now) }
{
    for other in others {
        let other = beginning(other);
        if prefix.is_empty()
            || other.is_empty()
            || prefix.starts_with(other)
            || other.starts_with(prefix)
        {
            return false;
        }
    }
    true
}

/// What is in a pattern before its first `*`, `?` or `[`.
#[tactic(auto, unfolding(crate::specs::Relations::beginning))]
pub(crate) fn beginning(word: &[u8]) -> &[u8]
    ensures { result.now ≡ beginning word.now }
{
    let length = word.iter().take_while(|byte| !is_special(**byte)).count();
    let (prefix, _) = word.split_at(length);
    prefix
}
