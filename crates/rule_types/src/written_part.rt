//! A token of a rule with the part of the rule that it is.

use crate::part::Part;
use rule_tokens::Token;
use std::marker::Model;

/// A token of a rule with the part of the rule that it is.
#[derive(Drop)]
pub struct WrittenPart<'a> {
    /// The token, as it is in its line.
    pub token: Token<'a>,
    /// What it is for the rule.
    pub part: Part,
}

impl<'a> Model for WrittenPart<'a> {
    ghost use Rattle.rule_types.specs.Tokens as tokens;

    ghost Value = { tokens.WrittenPart };

    ghost view = { λ w. record { token = w.token; part = w.part } };
}
