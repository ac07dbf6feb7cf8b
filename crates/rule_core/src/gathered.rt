//! The rules so far, and how many tokens are left in them.
//!
//! A rule that would make the tokens too many is not kept, so that the bound holds for each value here.
ghost use Rattle.std.specs.Prelude.{◌≡◌, ◌∷◌, ◌-◌, ◌^◌, ◌≤◌, [], min};
ghost use Rattle.rule_core.specs.Gathering.{Adds};
ghost use Rattle.rule_types.specs.Rules.{name_count, rule_tokens, tokens_in};

use crate::counts::MAX_TOKENS;
use crate::fault::RulesFault;
use rule_types::Rule;
use std::alloc::Global;
use std::marker::Model;
use text_bytes::Bytes;

/// Rules in order.
#[derive(Drop)]
pub(crate) struct Gathered {
    rules: Vec<Rule>,
    tokens: usize,
}

impl Model for Gathered {
    ghost use Rattle.std.specs.Prelude.{List};
    ghost use Rattle.rule_types.specs.Rules.{Rule};
    ghost use Rattle.rule_core.specs.Gathering.{IsCounted};

    ghost Value = { List Rule };

    ghost view = { λ g. g.rules.items };

    ghost invariant = { λ g. IsCounted g.rules.items g.tokens };
}

impl Gathered {
    /// No rule so far.
    pub fn new(alloc: Global) -> Gathered
        ensures { result ≡ [] }
    {
        Gathered {
            rules: Vec::new(alloc),
            tokens: 0,
        }
    }

    /// Adds a rule. `TooMany` comes if more than 2^24 tokens are left with it, `Memory` if an allocation fails.
    pub fn add(&mut self, rule: Rule) -> Result<(), RulesFault>
        ensures { Adds self.old self.new (rule ∷ []) result }
    {
        let tokens = tokens_of(&rule);
        if tokens > MAX_TOKENS - self.tokens {
            return Err(RulesFault::TooMany);
        }
        self.rules.push(rule)?;
        self.tokens += tokens;
        Ok(())
    }

    /// The rules.
    pub fn into_rules(self) -> Vec<Rule>
        ensures items { result.items ≡ self }
        ensures within { tokens_in self ≤ 2 ^ 24 }
    {
        let Gathered { rules, tokens: _ } = self;
        rules
    }
}

/// How many tokens are left in a rule, or 2^64 - 1 if that is less.
fn tokens_of(rule: &Rule) -> usize
    ensures { result ≡ min (rule_tokens rule.now) (2 ^ 64 - 1) }
{
    name_count(&rule.label)
        .saturating_add(name_count(&rule.goto))
        .saturating_add(rule.plain.len())
        .saturating_add(rule.up.len())
        .saturating_add(rule.acts.len())
        .saturating_add(rule.results.len())
        .saturating_add(rule.sets.len())
}

/// 1 for a name, 0 for none.
fn name_count(name: &Option<Bytes>) -> usize
    ensures { result ≡ name_count name.now }
{
    match name {
        None => 0,
        Some(_) => 1,
    }
}
