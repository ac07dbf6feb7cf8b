//! A token of a rule as it is compared with the others of its rule.
ghost use Rattle.std.specs.Prelude.{◌≡◌, IfOk, map};
ghost use Rattle.rule_remarks.specs.Said.{first_ends_dark, operator_of, opposite, said_by, said_of, trims};

use crate::accounts::Accounts;
use crate::form::{Form, form_of, is_act_kind};
use crate::matter::{Matter, matter_of};
use crate::words::words_of;
use rule_parts::is_something;
use rule_tokens::{Quote, Token, unquote};
use rule_types::{Key, Operator, key_of, read_as};
use std::alloc::{AllocError, Global};
use std::marker::Model;
use text_bytes::{Bytes, is_whitespace};
use text_tables::OwnedTexts;

/// A token as it is compared with others.
#[derive(Drop)]
pub(crate) struct Said {
    /// The name of its key.
    pub(crate) key: &'static [u8],
    /// Which kind of the key, by its matter.
    pub(crate) kind: &'static [u8],
    /// The attribute or the builtin.
    pub(crate) name: Bytes,
    /// The number of its value, if it has one.
    pub(crate) number: Option<i64>,
    /// The operator as it is read.
    pub(crate) operator: Operator,
    /// How its value is compared.
    pub(crate) form: Form,
    /// What it compares with or assigns, each word once.
    pub(crate) words: OwnedTexts,
    /// Whether case is ignored.
    pub(crate) blind: bool,
    /// Whether white space at the end of what is compared does not count.
    pub(crate) trims: bool,
}

impl Model for Said {
    ghost use Rattle.rule_remarks.specs.Said as tokens;

    ghost Value = { tokens.Said };

    ghost view = { λ s. record {
      key = s.key.now;
      kind = s.kind.now;
      name = s.name;
      number = s.number;
      operator = s.operator;
      form = s.form;
      words = s.words;
      blind = s.blind;
      trims = s.trims;
    } };
}

/// A token as it is compared with others. `None` for LABEL, for GOTO and for what is not an option.
#[tactic(auto, unfolding(crate::specs::Said::said_of))]
pub(crate) fn said_of(
    alloc: Global,
    accounts: &Accounts,
    token: &Token<'_>,
) -> Result<Option<Said>, AllocError>
    ensures { IfOk result (λ said. said ≡ said_of accounts.now token.now) }
{
    let Some(key) = key_of(token.key()) else {
        return Ok(None);
    };
    let text = unquote(alloc, token)?;
    let Some(matter) = matter_of(accounts, key, token.attribute(), &text) else {
        return Ok(None);
    };
    let operator = operator_of(key, token.operator());
    let blind = matches!(token.quote(), Quote::Blind | Quote::BlindEscaped);
    let said = said_by(alloc, key, operator, &text, blind, &matter)?;
    Ok(Some(said))
}

/// A token of a key by its matter, the operator as it is read, its value, and whether case is
/// ignored.
fn said_by(
    alloc: Global,
    key: Key,
    operator: Operator,
    text: &[u8],
    blind: bool,
    matter: &Matter<'_>,
) -> Result<Said, AllocError>
    ensures { IfOk result (λ said. said ≡ said_by key operator text.now blind matter.now) }
{
    let between_bars = operator.compares() && !is_act_kind(key);
    let words = words_of(alloc, between_bars, matter.text)?;
    let trims = trims(key, operator, &words);
    Ok(Said {
        key: key.name(),
        kind: matter.kind,
        name: Bytes::copy_of(alloc, matter.name)?,
        number: matter.number,
        operator: if is_something(text) {
            opposite(operator)
        } else {
            operator
        },
        form: form_of(key, operator, text),
        words,
        blind,
        trims,
    })
}

/// The operator as which an operator is compared after a key: `==` for any that assigns what is done while the rule is
/// matched, and `=` for `+=` of an option.
fn operator_of(key: Key, operator: Operator) -> Operator
    ensures { result ≡ operator_of key operator }
{
    match key {
        Key::Program | Key::Import => {
            if operator.compares() {
                operator
            } else {
                Operator::Equal
            }
        }
        Key::Options => match operator {
            Operator::Add => Operator::Assign,
            other => other,
        },
        _ => read_as(key, operator),
    }
}

/// The other of `==` and `!=`.
pub(crate) fn opposite(operator: Operator) -> Operator
    ensures { result ≡ opposite operator }
{
    match operator {
        Operator::Equal => Operator::NotEqual,
        Operator::NotEqual => Operator::Equal,
        other => other,
    }
}

/// Whether a token with these words trims what it compares: it asks for an attribute of a device, and its first word
/// has no white space at its end.
fn trims(key: Key, operator: Operator, words: &OwnedTexts) -> bool
    ensures { result ≡ trims key operator words.now }
{
    matches!(key, Key::Attr | Key::Attrs)
        && operator.compares()
        && first_ends_dark(words.as_slice())
}

/// Whether there is a first word, and it ends in a byte that is not white space.
fn first_ends_dark(words: &[Vec<u8>]) -> bool
    ensures { result ≡ first_ends_dark (map (λ word. word.items) words.now) }
{
    let Some(word) = words.first() else {
        return false;
    };
    match word.last() {
        None => false,
        Some(last) => !is_whitespace(*last),
    }
}
