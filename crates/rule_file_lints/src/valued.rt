//! Properties and attributes with values, as rules compare and assign them.
ghost use Rattle.std.specs.Prelude.{◌≡◌, IfOk};
ghost use Rattle.rule_file_lints.specs.Compared.{assigned_value, changed, changed_by, compared_in, looked_at, text_of};

use rule_types::{AssignOperator, Change, Key, MatchOperator, Part, PlainKey, Target};
use std::alloc::{AllocError, Global};
use std::marker::Model;

/// A property or an attribute with a value, both borrowed.
#[derive(Drop)]
pub(crate) struct Valued<'a> {
    /// The key, which is ENV or ATTR.
    pub key: Key,
    /// The name in its braces.
    pub name: &'a [u8],
    /// The value as it was given.
    pub value: &'a [u8],
}

impl<'a> Model for Valued<'a> {
    ghost use Rattle.rule_file_lints.specs.Compared as compared;

    ghost Value = { compared.Valued };

    ghost view = { λ v. record { key = v.key; name = v.name.now; value = v.value.now } };
}

/// A property or an attribute with a value as a rule writes it, without operator and quotes.
pub(crate) fn text_of(alloc: Global, valued: &Valued<'_>) -> Result<Vec<u8>, AllocError>
    ensures { IfOk result (λ text. text.items ≡ text_of valued.now) }
{
    let mut text = Vec::from_slice(alloc, valued.key.name())?;
    text.push(b'{')?;
    text.extend_from_slice(valued.name)?;
    text.push(b'}')?;
    text.extend_from_slice(valued.value)?;
    Ok(text)
}

/// The property or the attribute that a part of a rule compares by `==`.
pub(crate) fn compared_in(part: &Part) -> Option<Valued<'_>>
    ensures { result ≡ compared_in part.now }
{
    match part {
        Part::Plain(found) => match found.wanted.operator {
            MatchOperator::Equal => looked_at(&found.key, found.wanted.written.as_slice()),
            MatchOperator::NotEqual => None,
        },
        _ => None,
    }
}

/// The property or the attribute of the event device that a match looks at, with a value.
fn looked_at<'a>(key: &'a PlainKey, value: &'a [u8]) -> Option<Valued<'a>>
    ensures { result ≡ looked_at key.now value.now }
{
    match key {
        PlainKey::Env(name) => Some(Valued {
            key: Key::Env,
            name: name.as_slice(),
            value,
        }),
        PlainKey::Attr(name) => Some(Valued {
            key: Key::Attr,
            name: name.as_slice(),
            value,
        }),
        _ => None,
    }
}

/// The property or the attribute that a part of a rule assigns by `=`.
pub(crate) fn assigned_value(part: &Part) -> Option<Valued<'_>>
    ensures { result ≡ assigned_value part.now }
{
    match part {
        Part::Set(assignment) => match assignment.operator {
            AssignOperator::Assign => changed_by(&assignment.change),
            _ => None,
        },
        _ => None,
    }
}

/// The property or the attribute that a change gives a value.
fn changed_by(change: &Change) -> Option<Valued<'_>>
    ensures { result ≡ changed_by change.now }
{
    match change {
        Change::Text(target, text) => changed(target, text.written()),
        _ => None,
    }
}

/// The property or the attribute that takes a value.
fn changed<'a>(target: &'a Target, value: &'a [u8]) -> Option<Valued<'a>>
    ensures { result ≡ changed target.now value.now }
{
    match target {
        Target::Env(name) => Some(Valued {
            key: Key::Env,
            name: name.as_slice(),
            value,
        }),
        Target::Attr(name) => Some(Valued {
            key: Key::Attr,
            name: name.as_slice(),
            value,
        }),
        _ => None,
    }
}
