//! Rules as they were read, and what is known beyond an event, as one thing that answers events and reports what a line asks for in
//! addition, as lines or as JSON.
ghost use Rattle.std.specs.Prelude.{◌≡◌, ◌++◌, ◌∷◌, [], IfOk, map};
ghost use Rattle.text_bytes.specs.Names.{newline};
ghost use Rattle.engine_courses.specs.WhyLines.{why_lines};
ghost use Rattle.eval_unread.specs.Others.{ask_others};
ghost use Rattle.eval_unread.specs.Unread.{whole_outcome};
ghost use Rattle.engine_answers.specs.Answers.{answer_lines};
ghost use Rattle.engine_answers.specs.JsonAnswers.{json_answer};
ghost use Rattle.engine_core.specs.Reported.{lines_reported, reported_by};

use builtin_devices::Knowledge;
use device_core::{Event, lacks_event};
use engine_answers::{answer_lines, json_answer, sourced_lines};
use engine_courses::push_why_lines;
use engine_sessions::Answering;
use eval_unread::{ask_others, evaluate_whole};
use rule_core::ReadRules;
use rule_types::{Rule, RuleSet};
use std::alloc::{AllocError, Global};
use std::marker::Model;
use text_bytes::Bytes;

/// Rules and what is known beyond an event, by which events are answered, and what is reported in addition: the rule that each line
/// comes from, and what rules met. Whether the rules ask for attributes of other devices is looked for once, and not at each event.
#[derive(Drop)]
pub struct ReportedTables<'b, 'a, K: Knowledge> {
    json: bool,
    sources: bool,
    asks: bool,
    why: &'b [&'a str],
    rules: ReadRules,
    knowledge: K,
}

impl<'b, 'a, K: Knowledge> Model for ReportedTables<'b, 'a, K> {
    ghost use Rattle.std.specs.Prelude.{◌≡◌, map};
    ghost use Rattle.eval_unread.specs.Others.{ask_others};
    ghost use Rattle.engine_core.specs.Reported.{ReportedValue};

    ghost Value = { ReportedValue × K };

    ghost view = { λ t. (
      record {
        json = t.json;
        sources = t.sources;
        why = map (λ w. w.now) t.why.now;
        messages = t.rules.messages;
        rules = t.rules.rules;
      },
      t.knowledge,
    ) };

    ghost invariant = { λ t. t.asks ≡ ask_others t.rules.rules };
}

impl<'b, 'a, K: Knowledge + Drop> ReportedTables<'b, 'a, K> {
    /// The rules and the knowledge that events are answered by, whether by objects of JSON, and what is reported in addition:
    /// with `sources` the rule that each line comes from, and what the rules that `why` asks for met.
    pub fn new(
        json: bool,
        sources: bool,
        why: &'b [&'a str],
        rules: ReadRules,
        knowledge: K,
    ) -> ReportedTables<'b, 'a, K>
        ensures { result ≡ (
          record {
            json = json;
            sources = sources;
            why = map (λ w. w.now) why.entry.now;
            messages = rules.messages;
            rules = rules.rules;
          },
          knowledge,
        ) }
    {
        let asks = ask_others(rules.rules().rules());
        ReportedTables {
            json,
            sources,
            asks,
            why,
            rules,
            knowledge,
        }
    }

    /// The rules.
    pub(crate) fn rules(&self) -> &[Rule]
        ensures { result.now ≡ self.now.0.rules }
    {
        self.rules.rules().rules()
    }

    /// What is known beyond an event.
    pub(crate) fn knowledge(&self) -> &K
        ensures { result.now ≡ self.now.1 }
    {
        &self.knowledge
    }
}

/// The lines of an answer without sources, by rules that are all tried.
fn plain_lines<K: Knowledge>(
    alloc: Global,
    asks: bool,
    rules: &RuleSet,
    knowledge: &K,
    event: &Event<'_>,
) -> Result<Vec<u8>, AllocError>
    requires { asks ≡ ask_others rules.now }
    ensures { IfOk result (λ lines. lines.items ≡ answer_lines event.now (whole_outcome rules.now (K.known knowledge.now) event.now)) }
{
    let outcome = evaluate_whole(alloc, asks, rules, event, knowledge)?;
    let said = answer_lines(alloc, event, &outcome);
    drop(outcome);
    said
}

/// The lines of an answer, with sources or without.
fn lines_reported<K: Knowledge>(
    alloc: Global,
    sources: bool,
    asks: bool,
    rules: &RuleSet,
    knowledge: &K,
    event: &Event<'_>,
) -> Result<Vec<u8>, AllocError>
    requires { asks ≡ ask_others rules.now }
    ensures { IfOk result (λ lines. lines.items ≡ lines_reported sources rules.now (K.known knowledge.now) event.now) }
{
    if sources {
        return sourced_lines(alloc, asks, rules.rules(), event, knowledge);
    }
    if lacks_event(event) {
        let none = RuleSet::new(Vec::new(alloc));
        plain_lines(alloc, false, &none, knowledge, event)
    } else {
        plain_lines(alloc, asks, rules, knowledge, event)
    }
}

/// The answer to an event as lines, with what is asked for in addition.
fn answer_in_lines<K: Knowledge>(
    alloc: Global,
    sources: bool,
    asks: bool,
    why: &[&str],
    rules: &ReadRules,
    knowledge: &K,
    event: &Event<'_>,
) -> Result<Bytes, AllocError>
    requires { asks ≡ ask_others rules.now.rules }
    ensures { IfOk result (λ text. text ≡ lines_reported sources rules.now.rules (K.known knowledge.now) event.now
        ++ why_lines (map (λ w. w.now) why.now) rules.now.messages rules.now.rules (K.known knowledge.now) event.now ++ newline ∷ []) }
{
    let mut lines = lines_reported(alloc, sources, asks, rules.rules(), knowledge, event)?;
    push_why_lines(alloc, &mut lines, why, rules, event, knowledge)?;
    lines.push(b'\n')?;
    Ok(Bytes::new(lines))
}

/// The answer to an event as an object of JSON, with what is asked for in addition.
fn answer_in_json<K: Knowledge>(
    alloc: Global,
    sources: bool,
    asks: bool,
    why: &[&str],
    rules: &ReadRules,
    knowledge: &K,
    event: &Event<'_>,
) -> Result<Bytes, AllocError>
    requires { asks ≡ ask_others rules.now.rules }
    ensures { IfOk result (λ text. text ≡ json_answer sources
        (why_lines (map (λ w. w.now) why.now) rules.now.messages rules.now.rules (K.known knowledge.now) event.now)
        rules.now.rules (K.known knowledge.now) event.now) }
{
    let mut met = Vec::new(alloc);
    push_why_lines(alloc, &mut met, why, rules, event, knowledge)?;
    json_answer(alloc, sources, asks, &met, rules.rules(), event, knowledge)
}

/// The answer to an event, with what is asked for in addition.
fn reported_by<K: Knowledge>(
    alloc: Global,
    json: bool,
    sources: bool,
    asks: bool,
    why: &[&str],
    rules: &ReadRules,
    knowledge: &K,
    event: &Event<'_>,
) -> Result<Bytes, AllocError>
    requires { asks ≡ ask_others rules.now.rules }
    ensures { IfOk result (λ text. text ≡ reported_by (record {
      json = json;
      sources = sources;
      why = map (λ w. w.now) why.now;
      messages = rules.now.messages;
      rules = rules.now.rules;
    }) (K.known knowledge.now) event.now) }
{
    if json {
        answer_in_json(alloc, sources, asks, why, rules, knowledge, event)
    } else {
        answer_in_lines(alloc, sources, asks, why, rules, knowledge, event)
    }
}

impl<'b, 'a, K: Knowledge> Answering for ReportedTables<'b, 'a, K> {
    ghost use Rattle.engine_core.specs.Reported.{reported_by};

    ghost answers = { λ tables. reported_by tables.0 (K.known tables.1) };

    fn answer(&self, alloc: Global, event: &Event<'_>) -> Result<Bytes, AllocError> {
        reported_by(
            alloc,
            self.json,
            self.sources,
            self.asks,
            self.why,
            &self.rules,
            &self.knowledge,
            event,
        )
    }
}
