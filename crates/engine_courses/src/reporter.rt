//! What watches rules for `--why`.
//!
//! Whether a rule is asked for is decided when it is reached; any other is evaluated as for an answer.
ghost use Rattle.std.specs.Prelude.{◌≡◌, ◌++◌, [], None, OnOk, flat_map, map, option_map};
ghost use Rattle.eval_effects.specs.Since.{no_since, since_after};
ghost use Rattle.eval_rules.specs.Moments.{happening};
ghost use Rattle.eval_courses.specs.Inner.{moment_reports};
ghost use Rattle.engine_courses.specs.Inner.{about_of, with_texts};
ghost use Rattle.engine_courses.specs.WhyLines.{jumping_after, passed_texts, reported_if_asked, rule_lines};

use crate::asked::is_asked;
use crate::lines::{push_course, push_passed};
use builtin_devices::Knowledge;
use eval_acts::act_step;
use eval_assignments::set_all;
use eval_courses::{report_act, report_moment};
use eval_effects::{Since, end_and_report};
use eval_rules::{Moment, Watch, sought_after};
use eval_state::{Finals, Scene};
use rule_types::{Act, Rule};
use std::alloc::{AllocError, Global};
use std::marker::Model;
use text_bytes::Bytes;

/// What is reported for the rules that are asked for, while they are evaluated.
#[derive(Drop)]
pub(crate) struct Reporter<'w, 't, 'a> {
    why: &'w [&'t str],
    /// The rule that was reached last, if it is asked for.
    about: Option<&'a Rule>,
    /// The rule whose GOTO is being followed.
    jumping: Option<&'a Rule>,
    since: Since<'a>,
    lines: Vec<u8>,
}

impl<'w, 't, 'a> Model for Reporter<'w, 't, 'a> {
    ghost use Rattle.std.specs.Prelude.{map, option_map};
    ghost use Rattle.engine_courses.specs.Inner as inner;
    ghost use Rattle.rule_types.specs.contracts.rule.Rule.{the_row};

    ghost Value = { inner.Reporting };

    ghost coded = { inner.reporting_code the_row.coded };

    ghost view = { λ r. record {
      why = map (λ t. t.now) r.why.now;
      about = option_map (λ r. r.now) r.about;
      jumping = option_map (λ r. r.now) r.jumping;
      since = r.since;
      lines = r.lines.items;
    } };
}

/// The rule that jumps, after a rule was reached: this one, if its GOTO is then looked for.
fn jumping_after(reached: bool, rule: &Rule) -> Option<&Rule>
    ensures { option_map (λ r. r.now) result ≡ jumping_after reached rule.now }
{
    if sought_after(reached, rule).is_some() {
        Some(rule)
    } else {
        None
    }
}

/// A rule, if it is asked for.
fn about_of<'a>(why: &[&str], rule: &'a Rule) -> Option<&'a Rule>
    ensures { option_map (λ r. r.now) result ≡ about_of (map (λ t. t.now) why.now) rule.now }
{
    if is_asked(why, rule.file(), rule.line) {
        Some(rule)
    } else {
        None
    }
}

/// Adds what is reported for a rule that is skipped, if it is asked for.
fn report_passed(
    alloc: Global,
    lines: &mut Vec<u8>,
    why: &[&str],
    jumping: Option<&Rule>,
    rule: &Rule,
) -> Result<(), AllocError>
    ensures { OnOk result (lines.new.items ≡ lines.old.items
        ++ flat_map rule_lines (reported_if_asked (map (λ t. t.now) why.now) rule.now (passed_texts (option_map (λ r. r.now) jumping.entry)))) }
{
    if is_asked(why, rule.file(), rule.line) {
        push_passed(alloc, lines, jumping, rule)?;
    }
    Ok(())
}

impl<'w, 't, 'a> Reporter<'w, 't, 'a> {
    /// Nothing is reported yet.
    pub(crate) fn new(alloc: Global, why: &'w [&'t str]) -> Reporter<'w, 't, 'a>
        ensures { result ≡ record { why = map (λ t. t.now) why.entry.now; about = None; jumping = None; since = no_since; lines = [] } }
    {
        Reporter {
            why,
            about: None,
            jumping: None,
            since: Since::new(),
            lines: Vec::new(alloc),
        }
    }

    /// The lines on what was reported.
    pub(crate) fn into_lines(self) -> Vec<u8>
        ensures { result.items ≡ self.entry.lines }
    {
        self.lines
    }

    /// Reaches a rule.
    fn enter(&mut self, rule: &'a Rule)
        ensures { self.new ≡ record (self.old) { about = about_of self.old.why rule.now } }
    {
        self.about = about_of(self.why, rule);
    }

    /// Leaves a rule, with the keys that are final after it.
    fn leave(&mut self, rule: &'a Rule, reached: bool, finals: Finals)
        ensures { self.new ≡ record (self.old) { since = since_after self.old.since rule.now finals; jumping = jumping_after reached rule.now } }
    {
        self.since.report(rule, finals);
        self.jumping = jumping_after(reached, rule);
    }

    /// Passes a rule over.
    fn pass(&mut self, alloc: Global, rule: &'a Rule) -> Result<(), AllocError>
        ensures { OnOk result (self.new
            ≡ record (self.old) { lines = self.old.lines ++ flat_map rule_lines (reported_if_asked self.old.why rule.now (passed_texts self.old.jumping)) }) }
    {
        report_passed(alloc, &mut self.lines, self.why, self.jumping, rule)
    }

    /// Adds texts on the rule that was reached, if it is asked for.
    fn push(&mut self, alloc: Global, texts: &[Bytes]) -> Result<(), AllocError>
        ensures { OnOk result (self.new ≡ with_texts self.old texts.now) }
    {
        match self.about {
            Some(rule) => push_course(alloc, &mut self.lines, rule, texts),
            None => Ok(()),
        }
    }

    /// Adds what is reported at a moment of the rule that was reached, if it is asked for.
    fn report(
        &mut self,
        alloc: Global,
        moment: Moment<'a>,
        scene: &Scene<'a>,
    ) -> Result<(), AllocError>
        ensures { OnOk result (self.new ≡ with_texts self.old (moment_reports (happening moment.entry) scene.now)) }
    {
        if self.about.is_none() {
            return Ok(());
        }
        let mut texts = Vec::new(alloc);
        report_moment(alloc, moment, scene, &mut texts)?;
        self.push(alloc, &texts)
    }
}

impl<'w, 't, 'a> Watch<'a> for Reporter<'w, 't, 'a> {
    ghost use Rattle.engine_courses.specs.Inner.{reporting};

    ghost telling = { reporting };

    fn tell(
        &mut self,
        alloc: Global,
        moment: Moment<'a>,
        scene: &mut Scene<'a>,
    ) -> Result<(), AllocError> {
        match moment {
            Moment::Passed(rule) => self.pass(alloc, rule),
            Moment::Entered(rule) => {
                self.enter(rule);
                Ok(())
            }
            Moment::Left(rule, reached) => {
                self.leave(rule, reached, scene.finals);
                Ok(())
            }
            _ => self.report(alloc, moment, scene),
        }
    }

    #[tactic(auto, unfolding(eval_courses::specs::Acts::act_report), using(eval_rules::proofs::Staying::act_stays))]
    fn act<K: Knowledge>(
        &mut self,
        alloc: Global,
        rule: &'a Rule,
        part: &'a Act,
        knowledge: &K,
        scene: &mut Scene<'a>,
    ) -> Result<bool, AllocError> {
        if self.about.is_none() {
            return act_step(alloc, rule, part, knowledge, scene);
        }
        let mut texts = Vec::new(alloc);
        let proceeds = report_act(alloc, rule, part, knowledge, scene, &mut texts)?;
        self.push(alloc, &texts)?;
        Ok(proceeds)
    }

    #[tactic(auto, using(crate::proofs::Telling::sets_stay))]
    fn assign(
        &mut self,
        alloc: Global,
        rule: &'a Rule,
        scene: &mut Scene<'a>,
    ) -> Result<(), AllocError> {
        if self.about.is_none() {
            return set_all(alloc, rule, scene);
        }
        let mut texts = Vec::new(alloc);
        texts.push(end_and_report(alloc, rule, &self.since, scene)?)?;
        self.push(alloc, &texts)
    }
}
