//! What reading rules files comes to.
ghost use Rattle.std.specs.Prelude.{◌≡◌};

use file_messages::Message;
use rule_types::RuleSet;
use std::marker::Model;

/// The rules of files, and the messages about them. Only `read_rules` and `read_rules_as` make it.
#[derive(Drop)]
pub struct ReadRules {
    pub(crate) rules: RuleSet,
    pub(crate) messages: Vec<Message>,
}

impl Model for ReadRules {
    ghost use Rattle.rule_core.specs.Rules as sets;

    ghost Value = { sets.ReadRules };

    ghost view = { λ s. record { rules = s.rules; messages = s.messages.items } };
}

impl ReadRules {
    /// Returns the rules.
    pub fn rules(&self) -> &RuleSet
        ensures { result.now ≡ self.now.rules }
    {
        &self.rules
    }

    /// Returns the messages: by file, then by line; of one line the V by number and place, then the S by place and
    /// number, S4 last. For udev V24 is among the S, by its place.
    pub fn messages(&self) -> &[Message]
        ensures { result.now ≡ self.now.messages }
    {
        &self.messages
    }

    /// Returns the rules and drops the messages.
    pub fn into_rules(self) -> RuleSet
        ensures { result ≡ self.rules }
    {
        let ReadRules { rules, messages: _ } = self;
        rules
    }
}
