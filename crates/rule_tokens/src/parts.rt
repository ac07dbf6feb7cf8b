//! One token at the front of a text.

ghost use Rattle.std.specs.Prelude.{◌≡◌, option_map};
ghost use Rattle.rule_tokens.specs.Reading.{Gives, token_at, parts_of};

use crate::heads::{attribute_of, key_of, operator_of};
use crate::kinds::{Operator, Quote, Span, TokenFaultKind};
use crate::prefixes::{has_escapes, quote_of};
use crate::runs::closed_of;
use crate::values::value_length;
use std::marker::Model;
use text_bytes::unindented;

/// The parts of a token, wherever it lies.
#[derive(Clone, Copy)]
pub(crate) struct TokenParts<'a> {
    pub(crate) key: &'a [u8],
    pub(crate) attribute: Option<&'a [u8]>,
    pub(crate) operator: Operator,
    pub(crate) quote: Quote,
    pub(crate) value: &'a [u8],
}

/// The token at the front of a text, and what follows it.
#[tactic(auto, unfolding(crate::specs::Reading::head_at, crate::specs::Reading::token_at))]
pub(crate) fn token_of(text: &[u8]) -> Result<(TokenParts<'_>, &[u8]), TokenFaultKind>
    ensures { Gives (λ x. (parts_of x.0, x.1.now)) result (token_at text.now) }
{
    let (key, rest) = key_of(text)?;
    let (attribute, rest) = attribute_of(rest)?;
    let (operator, rest) = operator_of(unindented(rest))?;
    let (quote, rest) = quote_of(operator, unindented(rest))?;
    let n = value_length(has_escapes(quote), rest);
    let (value, rest) = closed_of(rest, n, b'"')?;
    Ok((
        TokenParts {
            key,
            attribute,
            operator,
            quote,
            value,
        },
        rest,
    ))
}

/// A key with what is done to it. It borrows its line, and only `Tokens` makes it.
#[derive(Drop)]
pub struct Token<'a> {
    pub(crate) parts: TokenParts<'a>,
    pub(crate) span: Span,
}

impl<'a> Model for Token<'a> {
    ghost use Rattle.rule_tokens.specs.Grammar.{Placed};

    ghost Value = { Placed };

    ghost use Rattle.rule_tokens.specs.Reading.{parts_of, IsWholeValue};

    ghost view = { λ t. record { parts = parts_of t.parts; span = t.span } };

    ghost invariant = { λ t. IsWholeValue t.parts.quote t.parts.value.now };
}

impl<'a> Token<'a> {
    /// The key: ASCII letters, digits and `_`, at least one.
    pub fn key(&self) -> &'a [u8]
        ensures { result.now ≡ self.now.parts.head.key }
    {
        self.parts.key
    }

    /// What is in the braces after the key, if there are any.
    pub fn attribute(&self) -> Option<&'a [u8]>
        ensures { option_map (λ a. a.now) result ≡ self.now.parts.head.attribute }
    {
        self.parts.attribute
    }

    /// What is done to the key.
    pub fn operator(&self) -> Operator
        ensures { result ≡ self.now.parts.head.operator }
    {
        self.parts.operator
    }

    /// How the value is quoted.
    pub fn quote(&self) -> Quote
        ensures { result ≡ self.now.parts.quote }
    {
        self.parts.quote
    }

    /// The bytes between the quotes as they are written, their escapes not yet read; `unquote` reads
    /// them.
    pub fn value(&self) -> &'a [u8]
        ensures { result.now ≡ self.now.parts.value }
    {
        self.parts.value
    }

    /// Where the token lies in its line, from its key's first byte to after its closing quote.
    pub fn span(&self) -> Span
        ensures { result ≡ self.now.span }
    {
        self.span
    }
}
