//! The rule since which each key has been final.
ghost use Rattle.std.specs.Bool.{then_some};
ghost use Rattle.std.specs.Option.{option_or};
ghost use Rattle.std.specs.Prelude.{◌≡◌, option_map};
ghost use Rattle.eval_effects.specs.Since.{no_since, since_after};

use eval_state::{FinalKey, Finals};
use rule_types::Rule;
use std::marker::Model;

/// For each key that `:=` made final, the first rule after which it was final.
#[derive(Drop)]
pub struct Since<'a> {
    owner: Option<&'a Rule>,
    group: Option<&'a Rule>,
    mode: Option<&'a Rule>,
    name: Option<&'a Rule>,
    symlink: Option<&'a Rule>,
    run: Option<&'a Rule>,
    priority: Option<&'a Rule>,
    watch: Option<&'a Rule>,
}

impl<'a> Model for Since<'a> {
    ghost use Rattle.std.specs.Prelude.{option_map};
    ghost use Rattle.eval_effects.specs.Since as known;
    ghost use Rattle.eval_state.specs.KeyTables.{by_key_code, kept_for};
    ghost use Rattle.rule_types.specs.contracts.rule.Rule.{the_row};
    ghost use Rattle.std.specs.Coded.{coded_option};

    ghost Value = { known.Since };

    ghost coded = { by_key_code (coded_option the_row.coded) };

    ghost view = { λ s. kept_for (record {
      owner = option_map (λ r. r.now) s.owner;
      group = option_map (λ r. r.now) s.group;
      mode = option_map (λ r. r.now) s.mode;
      name = option_map (λ r. r.now) s.name;
      symlink = option_map (λ r. r.now) s.symlink;
      run = option_map (λ r. r.now) s.run;
      priority = option_map (λ r. r.now) s.priority;
      watch = option_map (λ r. r.now) s.watch;
    }) };
}

/// The rule since which a key is final after one more rule: the one that is known, or that rule if the key is final
/// now.
fn since_either<'a>(first: Option<&'a Rule>, is_final: bool, rule: &'a Rule) -> Option<&'a Rule>
    ensures { option_map (λ r. r.now) result ≡ option_or (option_map (λ r. r.now) first.entry) (then_some is_final rule.now) }
{
    match first {
        Some(first) => Some(first),
        None => { if is_final { Some(rule) } else { None } }
    }
}

impl<'a> Since<'a> {
    /// No key is final.
    pub fn new() -> Since<'a>
        ensures { result ≡ no_since }
    {
        Since {
            owner: None,
            group: None,
            mode: None,
            name: None,
            symlink: None,
            run: None,
            priority: None,
            watch: None,
        }
    }

    /// Records a rule, with the keys that are final after it.
    pub fn report(&mut self, rule: &'a Rule, finals: Finals)
        ensures { self.new ≡ since_after self.old rule.now finals }
    {
        self.owner = since_either(self.owner, finals.contains(FinalKey::Owner), rule);
        self.group = since_either(self.group, finals.contains(FinalKey::Group), rule);
        self.mode = since_either(self.mode, finals.contains(FinalKey::Mode), rule);
        self.name = since_either(self.name, finals.contains(FinalKey::Name), rule);
        self.symlink = since_either(self.symlink, finals.contains(FinalKey::Symlink), rule);
        self.run = since_either(self.run, finals.contains(FinalKey::Run), rule);
        self.priority = since_either(self.priority, finals.contains(FinalKey::Priority), rule);
        self.watch = since_either(self.watch, finals.contains(FinalKey::Watch), rule);
    }

    /// The rule since which a key is final, if a recorded rule made it final.
    pub fn rule_of(&self, key: FinalKey) -> Option<&'a Rule>
        ensures { option_map (λ rule. rule.now) result ≡ self.now key }
    {
        match key {
            FinalKey::Owner => self.owner,
            FinalKey::Group => self.group,
            FinalKey::Mode => self.mode,
            FinalKey::Name => self.name,
            FinalKey::Symlink => self.symlink,
            FinalKey::Run => self.run,
            FinalKey::Priority => self.priority,
            FinalKey::Watch => self.watch,
        }
    }
}
