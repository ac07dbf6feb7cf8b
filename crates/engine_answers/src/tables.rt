//! Rules, and what is known beyond an event, as one thing that answers events.
ghost use Rattle.std.specs.Prelude.{◌≡◌, IfOk, []};
ghost use Rattle.engine_answers.specs.Answers.{answer, answer_by, sourced_lines};
ghost use Rattle.eval_unread.specs.Unread.{whole_outcome};
ghost use Rattle.eval_unread.specs.Others.{ask_others};

use crate::answers::{answer, sourced_lines};
use builtin_devices::Knowledge;
use device_core::{Event, lacks_event};
use engine_sessions::Answering;
use eval_core::{Program, compile};
use eval_unread::{ask_others, completed, evaluate_whole};
use rule_types::{Rule, RuleSet};
use std::alloc::{AllocError, Global};
use std::marker::Model;
use text_bytes::Bytes;

/// Rules and what is known beyond an event, by which events are answered, each as its profile has it; and whether the rules ask
/// for attributes of other devices, so that this is looked for once, and not at each event.
#[derive(Drop)]
pub struct Tables<K: Knowledge> {
    program: Program,
    asks: bool,
    knowledge: K,
}

impl<K: Knowledge> Model for Tables<K> {
    ghost use Rattle.std.specs.Prelude.{◌≡◌, List};
    ghost use Rattle.rule_types.specs.Rules.{Rule};
    ghost use Rattle.eval_unread.specs.Others.{ask_others};

    ghost Value = { List Rule × K };

    ghost view = { λ t. (t.program, t.knowledge) };

    ghost invariant = { λ t. t.asks ≡ ask_others t.program };
}

impl<K: Knowledge + Drop> Tables<K> {
    /// The rules and the knowledge that events are answered by; the rules are laid out once, as a program.
    ///
    /// There is an error only if memory runs out; what was passed in is then dropped.
    pub fn new(alloc: Global, rules: RuleSet, knowledge: K) -> Result<Tables<K>, AllocError>
        ensures { IfOk result (λ tables. tables ≡ (rules, knowledge)) }
    {
        let program = compile(alloc, rules)?;
        let asks = ask_others(program.rules());
        Ok(Tables {
            program,
            asks,
            knowledge,
        })
    }
}

impl<K: Knowledge> Tables<K> {
    /// The rules.
    pub fn rules(&self) -> &[Rule]
        ensures { result.now ≡ self.now.0 }
    {
        self.program.rules()
    }

    /// What is known beyond an event.
    pub fn knowledge(&self) -> &K
        ensures { result.now ≡ self.now.1 }
    {
        &self.knowledge
    }

    /// The lines of the answer to an event, each after the place of the rule that it comes from, as `sourced_lines` has
    /// them.
    pub fn sourced_lines(&self, alloc: Global, event: &Event<'_>) -> Result<Vec<u8>, AllocError>
        ensures { IfOk result (λ lines. lines.items ≡ sourced_lines self.now.0 (K.known self.now.1) event.now) }
    {
        sourced_lines(
            alloc,
            self.asks,
            self.program.rules(),
            event,
            &self.knowledge,
        )
    }
}

/// The answer to an event at which no rule is tried.
fn answer_without_rules<K: Knowledge>(
    alloc: Global,
    knowledge: &K,
    event: &Event<'_>,
) -> Result<Bytes, AllocError>
    ensures { IfOk result (λ text. text ≡ answer event.now (whole_outcome [] (K.known knowledge.now) event.now)) }
{
    let none = RuleSet::new(Vec::new(alloc));
    let outcome = evaluate_whole(alloc, false, &none, event, knowledge)?;
    let text = answer(alloc, event, &outcome);
    drop(outcome);
    text
}

/// The answer to an event at which all rules are tried, by them and what is known.
fn answer_with_rules<K: Knowledge>(
    alloc: Global,
    program: &Program,
    asks: bool,
    knowledge: &K,
    event: &Event<'_>,
) -> Result<Bytes, AllocError>
    requires { asks ≡ ask_others program.now }
    ensures { IfOk result (λ text. text ≡ answer event.now (whole_outcome program.now (K.known knowledge.now) event.now)) }
{
    let own = program.evaluate(alloc, event, knowledge)?;
    let outcome = completed(alloc, asks, program.rules(), event, knowledge, own)?;
    let said = answer(alloc, event, &outcome);
    drop(outcome);
    said
}

/// The answer to an event by rules and what is known.
fn answer_by<K: Knowledge>(
    alloc: Global,
    program: &Program,
    asks: bool,
    knowledge: &K,
    event: &Event<'_>,
) -> Result<Bytes, AllocError>
    requires { asks ≡ ask_others program.now }
    ensures { IfOk result (λ text. text ≡ answer_by program.now (K.known knowledge.now) event.now) }
{
    if lacks_event(event) {
        answer_without_rules(alloc, knowledge, event)
    } else {
        answer_with_rules(alloc, program, asks, knowledge, event)
    }
}

impl<K: Knowledge> Answering for Tables<K> {
    ghost use Rattle.engine_answers.specs.Answers.{answer_by};

    ghost answers = { λ tables. answer_by tables.0 (K.known tables.1) };

    fn answer(&self, alloc: Global, event: &Event<'_>) -> Result<Bytes, AllocError> {
        answer_by(alloc, &self.program, self.asks, &self.knowledge, event)
    }
}
