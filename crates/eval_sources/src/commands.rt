//! Commands, each with the rule that added it.
ghost use Rattle.std.specs.Prelude.{◌≡◌, ◌++◌, None, IfOk, OnOk, map};
ghost use Rattle.eval_rules.specs.Outcomes.{command};
ghost use Rattle.eval_rules.specs.Steps.{with_selected};
ghost use Rattle.eval_sources.specs.Reported.{sourced_commands, sourced_made};

use eval_rendering::Rendered;
use eval_rules::{Command, made_command, run_text};
use eval_state::{MadeRun, Run, State};
use rule_types::Rule;
use std::alloc::{AllocError, Global};
use std::marker::Model;

/// A command that udev would run when all rules are done, with the rule that added it.
#[derive(Drop)]
pub struct SourcedCommand<'a> {
    command: Command,
    rule: &'a Rule,
}

impl<'a> Model for SourcedCommand<'a> {
    ghost use Rattle.rule_types.specs.Rules.{Rule};
    ghost use Rattle.eval_rules.specs.declared.outcome.Command.{Command};

    ghost Value = { Command × Rule };

    ghost view = { λ c. (c.command, c.rule.now) };
}

impl<'a> SourcedCommand<'a> {
    /// Returns the command.
    pub fn command(&self) -> &Command
        ensures { result.now ≡ self.now.0 }
    {
        &self.command
    }

    /// Returns the rule that added it.
    pub fn rule(&self) -> &'a Rule
        ensures { result.now ≡ self.now.1 }
    {
        self.rule
    }
}

/// Adds a rendered RUN as a command, unless it is too long.
fn take_run<'a>(
    kept: &Run<'a>,
    rendered: Rendered,
    done: &mut Vec<SourcedCommand<'a>>,
) -> Result<(), AllocError>
    ensures { OnOk result (done.new.items ≡ done.old.items ++ map (λ c. (c, kept.now.rule)) (command kept.now rendered)) }
{
    let Rendered::Text(text) = rendered else {
        return Ok(());
    };
    let command = Command {
        kind: kept.kind(),
        text,
    };
    done.push(SourcedCommand {
        command,
        rule: kept.rule(),
    })?;
    Ok(())
}

/// Renders what is to be run, one after another. Of the state, only the selected device may change.
pub(crate) fn sourced_commands<'a>(
    alloc: Global,
    runs: &[Run<'a>],
    state: &mut State<'_>,
) -> Result<Vec<SourcedCommand<'a>>, AllocError>
    ensures commands { IfOk result (λ done. done.items ≡ sourced_commands state.old runs.now) }
    ensures state { OnOk result (with_selected None state.new ≡ with_selected None state.old) }
{
    let mut done = Vec::new(alloc);
    for kept in runs {
        let rendered = run_text(alloc, kept, state)?;
        take_run(kept, rendered, &mut done)?;
    }
    Ok(done)
}

/// Adds the commands that were rendered at their rules, each with its rule.
pub(crate) fn add_made<'a>(
    alloc: Global,
    made: &[MadeRun<'a>],
    done: &mut Vec<SourcedCommand<'a>>,
) -> Result<(), AllocError>
    ensures { OnOk result (done.new.items ≡ done.old.items ++ map sourced_made made.now) }
{
    for each in made {
        done.push(SourcedCommand {
            command: made_command(alloc, each)?,
            rule: each.run.rule(),
        })?;
    }
    Ok(())
}
