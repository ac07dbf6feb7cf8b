//! The counts of rules over the events of a run.
ghost use Rattle.std.specs.Prelude.{◌≡◌, IfOk, map};
ghost use Rattle.engine_courses.specs.Unused.{rules_named};
ghost use Rattle.engine_courses.specs.Rows.{unreached};

use crate::unused::lines::{lines_by, rules_named};
use crate::unused::rows::{Row, note_all, rows_of};
use builtin_devices::Knowledge;
use device_core::{Event, tried};
use engine_sessions::Tally;
use eval_courses::fates;
use rule_types::Rule;
use std::alloc::{AllocError, Global};
use std::marker::Model;
use text_bytes::Bytes;

/// Rules with what is known beyond an event, and counts of what became of each rule at the events so far.
#[derive(Drop)]
pub struct UnusedTally<'b, K: Knowledge> {
    /// The names of the rules files that are reported on; if there are none, all are.
    names: Vec<&'b [u8]>,
    rules: &'b [Rule],
    knowledge: &'b K,
    rows: Vec<Row>,
}

impl<'b, K: Knowledge> Model for UnusedTally<'b, K> {
    ghost use Rattle.std.specs.Prelude.{map};
    ghost use Rattle.engine_courses.specs.Rows.{TallyValue};

    ghost Value = { TallyValue K };

    ghost view = { λ t. record {
      names = map (λ n. n.now) t.names.items;
      rules = t.rules.now;
      knowledge = t.knowledge.now;
      rows = t.rows.items;
    } };
}

impl<'b, K: Knowledge> UnusedTally<'b, K> {
    /// The counts before any event. The rules that are reported on are those of the rules files among the paths that are
    /// added, by their names, and all if there is none among them.
    ///
    /// There is an error only if memory runs out.
    pub fn new(
        alloc: Global,
        added: &[&'b str],
        rules: &'b [Rule],
        knowledge: &'b K,
    ) -> Result<UnusedTally<'b, K>, AllocError>
        ensures { IfOk result (λ tally. tally ≡ record {
          names = rules_named (map (λ p. p.now) added.now);
          rules = rules.entry.now;
          knowledge = knowledge.entry.now;
          rows = map unreached rules.entry.now;
        }) }
    {
        Ok(UnusedTally {
            names: rules_named(alloc, added)?,
            rules,
            knowledge,
            rows: rows_of(alloc, rules)?,
        })
    }
}

impl<'b, K: Knowledge> Tally for UnusedTally<'b, K> {
    ghost use Rattle.engine_courses.specs.Rows.{counted};
    ghost use Rattle.engine_courses.specs.Unused.{lines_by};

    ghost says = { λ t events. lines_by t.names t.rules (counted t.rules (K.known t.knowledge) t.rows events) };

    #[tactic(auto, using(crate::proofs::Own::counted_more))]
    fn count(&mut self, alloc: Global, event: &Event<'_>) -> Result<(), AllocError> {
        let found = fates(alloc, tried(event, self.rules), event, self.knowledge)?;
        note_all(&mut self.rows, &found)
    }

    #[tactic(auto, unfolding(crate::specs::Rows::counted))]
    fn end(&self, alloc: Global) -> Result<Bytes, AllocError> {
        lines_by(alloc, &self.names, self.rules, &self.rows)
    }
}
