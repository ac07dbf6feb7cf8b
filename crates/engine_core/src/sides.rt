//! One side of a comparison: its answers, and where their lines come from.
ghost use Rattle.std.specs.Prelude.{◌≡◌, IfOk};
ghost use Rattle.engine_core.specs.Comparing.{compared_answer};

use builtin_devices::Knowledge;
use device_core::Event;
use engine_answers::{Side, Tables};
use engine_sessions::Answering;
use rule_types::RuleSet;
use std::alloc::{AllocError, Global};
use std::marker::Model;
use text_bytes::Bytes;

/// Rules and what is known beyond an event, whose answers are compared with those of others.
#[derive(Drop)]
pub struct ComparedTables<K: Knowledge> {
    sources: bool,
    tables: Tables<K>,
}

impl<K: Knowledge> Model for ComparedTables<K> {
    ghost use Rattle.std.specs.Prelude.{Bool, List};
    ghost use Rattle.rule_types.specs.Rules.{Rule};

    ghost Value = { Bool × (List Rule × K) };

    ghost view = { λ t. (t.sources, t.tables) };
}

impl<K: Knowledge + Drop> ComparedTables<K> {
    /// The rules and the knowledge that events are answered by, and whether each line of an answer is shown after the rule
    /// that it comes from.
    ///
    /// There is an error only if memory runs out; what was passed in is then dropped.
    pub fn new(
        alloc: Global,
        sources: bool,
        rules: RuleSet,
        knowledge: K,
    ) -> Result<ComparedTables<K>, AllocError>
        ensures { IfOk result (λ tables. tables ≡ (sources, (rules, knowledge))) }
    {
        let tables = Tables::new(alloc, rules, knowledge)?;
        Ok(ComparedTables { sources, tables })
    }
}

impl<K: Knowledge> Side for ComparedTables<K> {
    ghost use Rattle.engine_core.specs.Comparing.{compared_answer};

    ghost answers = { λ tables. compared_answer tables.0 tables.1.0 (K.known tables.1.1) };

    fn answer(&self, alloc: Global, event: &Event<'_>) -> Result<Bytes, AllocError> {
        self.tables.answer(alloc, event)
    }

    fn shown(&self, alloc: Global, event: &Event<'_>) -> Result<Option<Bytes>, AllocError> {
        if !self.sources {
            return Ok(None);
        }
        let lines = self.tables.sourced_lines(alloc, event)?;
        Ok(Some(Bytes::new(lines)))
    }
}
