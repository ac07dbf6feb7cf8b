//! Rules as they were read, and what is known beyond an event, as one thing that says of events what the rules ask.
ghost use Rattle.std.specs.Prelude.{◌≡◌};

use builtin_devices::Knowledge;
use device_core::Event;
use engine_courses::question_answer;
use engine_sessions::Answering;
use rule_types::{Rule, RuleSet};
use std::alloc::{AllocError, Global};
use std::marker::Model;
use text_bytes::Bytes;

/// Rules and what is known beyond an event, by which each event is answered with the commands that the rules ask for and its block does not
/// answer.
#[derive(Drop)]
pub struct AskedTables<K: Knowledge> {
    rules: RuleSet,
    knowledge: K,
}

impl<K: Knowledge> Model for AskedTables<K> {
    ghost use Rattle.std.specs.Prelude.{List};
    ghost use Rattle.rule_types.specs.Rules.{Rule};

    ghost Value = { List Rule × K };

    ghost view = { λ t. (t.rules, t.knowledge) };
}

impl<K: Knowledge + Drop> AskedTables<K> {
    /// The rules and the knowledge that say what is asked.
    pub fn new(rules: RuleSet, knowledge: K) -> AskedTables<K>
        ensures { result ≡ (rules, knowledge) }
    {
        AskedTables { rules, knowledge }
    }

    /// The rules.
    pub(crate) fn rules(&self) -> &[Rule]
        ensures { result.now ≡ self.now.0 }
    {
        self.rules.rules()
    }

    /// What is known beyond an event.
    pub(crate) fn knowledge(&self) -> &K
        ensures { result.now ≡ self.now.1 }
    {
        &self.knowledge
    }
}

impl<K: Knowledge> Answering for AskedTables<K> {
    ghost use Rattle.engine_courses.specs.Questions.{question_answer};

    ghost answers = { λ tables. question_answer tables.0 (K.known tables.1) };

    fn answer(&self, alloc: Global, event: &Event<'_>) -> Result<Bytes, AllocError> {
        question_answer(alloc, &self.rules, event, &self.knowledge)
    }
}
