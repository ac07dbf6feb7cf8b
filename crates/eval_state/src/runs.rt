//! What is kept for each RUN until all rules have run.
//!
//! A command is rendered at the end, with what is then known about the event, but with the device that was selected
//! when its rule was reached: so a run holds its template, and the place of that device.
//!
//! A RUN is added once for its type and its written text. So runs are a set, in which one is found by
//! its bytes and not by a search through all.
ghost use Rattle.std.specs.Prelude.{◌≡◌, [], OnOk, OnErr, IfOk};
ghost use Rattle.std.specs.Hash as fed;
ghost use Rattle.eval_state.specs.Runs.{run_kind, runs_after, same_kind, same_run, with_run};
ghost use Rattle.eval_state.specs.Sameness.{runs_equal, runs_equal_in_part, same_runs_fed};

use indexmap::IndexSet;
use rule_tokens::Template;
use rule_types::{AssignOperator, Rule, RunType};
use std::alloc::{AllocError, Global};
use std::hash::{Hash, Hasher};
use std::marker::Model;
use std::mem;

/// A RUN as it is written.
#[derive(Drop)]
pub struct Run<'a> {
    rule: &'a Rule,
    braces: Option<RunType>,
    template: &'a Template,
    selected: Option<usize>,
}

impl<'a> Model for Run<'a> {
    ghost use Rattle.eval_state.specs.Runs.{RunValue};

    ghost Value = { RunValue };

    ghost view = { λ r. record {
      rule = r.rule.now;
      braces = r.braces;
      template = r.template.now;
      selected = r.selected;
    } };
}

impl<'a> Run<'a> {
    /// A RUN of a rule, as it is written, with the type in its braces, and with the device selected at the time, if
    /// any.
    pub fn new(
        rule: &'a Rule,
        braces: Option<RunType>,
        template: &'a Template,
        selected: Option<usize>,
    ) -> Run<'a>
        ensures { result ≡ record { rule = rule.now; braces = braces; template = template.now; selected = selected } }
    {
        Run {
            rule,
            braces,
            template,
            selected,
        }
    }

    /// Returns the rule that it is in.
    pub fn rule(&self) -> &'a Rule
        ensures { result.now ≡ self.now.rule }
    {
        self.rule
    }

    /// The type that is in its braces, if it has any.
    pub fn braces(&self) -> Option<RunType>
        ensures { result ≡ self.now.braces }
    {
        self.braces
    }

    /// Whether it is a program or a builtin: without braces it is a program.
    pub fn kind(&self) -> RunType
        ensures { result ≡ run_kind self.now.braces }
    {
        match self.braces {
            Some(kind) => kind,
            None => RunType::Program,
        }
    }

    /// Returns the command, with its substitutions not yet made.
    pub fn template(&self) -> &'a Template
        ensures { result.now ≡ self.now.template }
    {
        self.template
    }

    /// The place in the chain of the device that was selected, if one was.
    pub fn selected(&self) -> Option<usize>
        ensures { result ≡ self.now.selected }
    {
        self.selected
    }
}

/// Two RUNs are the same if they have the same type and the same written text.
impl<'a> PartialEq for Run<'a> {
    ghost eq = { same_run };

    ghost laws = { runs_equal_in_part };

    fn eq(&self, other: &Run<'a>) -> bool {
        same_kind(self.kind(), other.kind()) && self.template.written() == other.template.written()
    }
}

impl<'a> Eq for Run<'a> {
    ghost laws = { runs_equal };
}

impl<'a> Hash for Run<'a> {
    ghost hash_input = { λ r. fed.slice fed.u8 r.template.written };

    ghost respects_eq = { same_runs_fed };

    fn hash<H: Hasher>(&self, state: &mut H) {
        self.template.written().hash(state);
    }
}

/// Whether two types are the same.
fn same_kind(one: RunType, other: RunType) -> bool
    ensures { result ≡ same_kind one other }
{
    one == other
}

/// What is to be run, in order.
#[derive(Drop)]
pub struct Runs<'a> {
    held: IndexSet<Run<'a>>,
}

impl<'a> Model for Runs<'a> {
    ghost use Rattle.std.specs.Prelude.{List};
    ghost use Rattle.eval_state.specs.Runs.{RunValue};

    ghost Value = { List RunValue };

    ghost view = { λ r. r.held.keys };
}

impl<'a> Runs<'a> {
    /// Nothing to run.
    pub fn new(alloc: Global) -> Runs<'a>
        ensures { result ≡ [] }
    {
        Runs {
            held: IndexSet::new(alloc),
        }
    }

    /// Returns what is to be run, in order.
    pub fn as_slice(&self) -> &[Run<'a>]
        ensures { result.now ≡ self.now }
    {
        self.held.as_slice()
    }

    /// Removes all.
    pub(crate) fn clear(&mut self)
        ensures { self.new ≡ [] }
    {
        self.held.clear();
    }

    /// Adds a RUN at the end, unless it is there or its written text is empty. If memory runs
    /// out, the runs stay as they are.
    fn add(&mut self, run: Run<'a>) -> Result<(), AllocError>
        ensures runs { OnOk result (self.new ≡ with_run self.old run.entry) }
        ensures refused { OnErr result (self.new ≡ self.old) }
    {
        if run.template.written().is_empty() {
            return Ok(());
        }
        self.held.insert(run)?;
        Ok(())
    }

    /// One RUN alone, or nothing if its written text is empty.
    fn alone(alloc: Global, run: Run<'a>) -> Result<Runs<'a>, AllocError>
        ensures { IfOk result (λ runs. runs ≡ with_run [] run.entry) }
    {
        let mut runs = Runs::new(alloc);
        runs.add(run)?;
        Ok(runs)
    }

    /// Applies a RUN by its operator: `+=` adds it unless the same one is there, any other operator makes it the
    /// only one. One whose written text is empty is left out.
    ///
    /// If memory runs out, the runs stay as they are.
    pub fn change(
        &mut self,
        alloc: Global,
        operator: AssignOperator,
        run: Run<'a>,
    ) -> Result<(), AllocError>
        ensures runs { OnOk result (self.new ≡ runs_after operator self.old run.entry) }
        ensures refused { OnErr result (self.new ≡ self.old) }
    {
        match operator {
            AssignOperator::Add => self.add(run),
            _ => {
                drop(mem::replace(self, Runs::alone(alloc, run)?));
                Ok(())
            }
        }
    }
}
