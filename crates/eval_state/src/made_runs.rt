//! What is to be run, as udev collects it: rendered at its rule, as often as it is given.
ghost use Rattle.std.specs.Prelude.{◌≡◌, ◌++◌, ◌∷◌, [], OnOk, OnErr};

use crate::runs::Run;
use std::alloc::{AllocError, Global};
use std::marker::Model;
use text_bytes::Bytes;

/// A RUN, with the text that it was rendered to at its rule.
#[derive(Drop)]
pub struct MadeRun<'a> {
    /// The RUN as it is written.
    pub run: Run<'a>,
    /// The command.
    pub text: Bytes,
}

/// What is to be run, in order.
#[derive(Drop)]
pub struct MadeRuns<'a> {
    held: Vec<MadeRun<'a>>,
}

impl<'a> Model for MadeRuns<'a> {
    ghost use Rattle.std.specs.Prelude.{List};
    ghost use Rattle.eval_state.specs.declared.made_runs.MadeRun.{MadeRun};

    ghost Value = { List MadeRun };

    ghost view = { λ r. r.held.items };
}

impl<'a> MadeRuns<'a> {
    /// Nothing to run.
    pub fn new(alloc: Global) -> MadeRuns<'a>
        ensures { result ≡ [] }
    {
        MadeRuns {
            held: Vec::new(alloc),
        }
    }

    /// Returns what is to be run, in order.
    pub fn as_slice(&self) -> &[MadeRun<'a>]
        ensures { result.now ≡ self.now }
    {
        &self.held
    }

    /// Removes all.
    pub fn clear(&mut self)
        ensures { self.new ≡ [] }
    {
        self.held.clear();
    }

    /// Adds one at the end. If memory runs out, what is to be run stays as it is.
    pub fn push(&mut self, made: MadeRun<'a>) -> Result<(), AllocError>
        ensures runs { OnOk result (self.new ≡ self.old ++ made.entry ∷ []) }
        ensures refused { OnErr result (self.new ≡ self.old) }
    {
        self.held.push(made)?;
        Ok(())
    }
}
