//! The rules of all files together.
//!
//! A set is known to have not too many tokens, so that what is made from rules can be counted without a case for too
//! many.
ghost use Rattle.std.specs.Prelude.{◌≡◌, ◌^◌, ◌≤◌};
ghost use Rattle.rule_types.specs.Rules.{tokens_in};

use crate::rule::Rule;
use std::marker::Model;

/// The rules of files, of which at most 2^24 tokens are left.
#[derive(Drop)]
pub struct RuleSet {
    rules: Vec<Rule>,
}

impl Model for RuleSet {
    ghost use Rattle.std.specs.Prelude.{◌^◌, ◌≤◌, List};
    ghost use Rattle.rule_types.specs.Rules.{Rule, tokens_in};

    ghost Value = { List Rule };

    ghost view = { λ s. s.rules.items };

    ghost invariant = { λ s. tokens_in s.rules.items ≤ 2 ^ 24 };
}

impl RuleSet {
    /// Takes rules, in the order of the files and their lines, of which at most 2^24 tokens are left.
    pub fn new(rules: Vec<Rule>) -> RuleSet
        requires { tokens_in rules.items ≤ 2 ^ 24 }
        ensures { result ≡ rules.items }
    {
        RuleSet { rules }
    }

    /// Returns the rules, in the order of the files and their lines.
    pub fn rules(&self) -> &[Rule]
        ensures borrowed { result.now ≡ self.now }
        ensures within { tokens_in self.now ≤ 2 ^ 24 }
    {
        &self.rules
    }

    /// Returns the rules as a list of their own.
    pub fn into_rules(self) -> Vec<Rule>
        ensures given { result.items ≡ self }
        ensures within { tokens_in self ≤ 2 ^ 24 }
    {
        let RuleSet { rules } = self;
        rules
    }
}
