//! The outcome of an event.
ghost use Rattle.std.specs.Prelude.{◌≡◌, ◌++◌, ◌∷◌, [], OnOk, OnErr};

use eval_state::{Labels, Notes};
use rule_types::RunType;
use std::alloc::{AllocError, Global};
use std::marker::Model;
use text_bytes::Bytes;
use text_tables::{CowPairs, OwnedTexts, SortedPairs};

/// A command that udev would run when all rules are done.
#[derive(Drop)]
pub struct Command {
    /// Whether it is a program or a builtin.
    pub kind: RunType,
    /// The command, with its substitutions made.
    pub text: Bytes,
}

/// Commands in the order in which they are run.
#[derive(Drop)]
pub struct Commands {
    held: Vec<Command>,
}

impl Model for Commands {
    ghost use Rattle.std.specs.Prelude.{List};
    ghost use Rattle.eval_rules.specs.declared.outcome.Command.{Command};

    ghost Value = { List Command };

    ghost view = { λ c. c.held.items };
}

impl Commands {
    /// No commands.
    pub(crate) fn new(alloc: Global) -> Commands
        ensures { result ≡ [] }
    {
        Commands {
            held: Vec::new(alloc),
        }
    }

    /// The commands of a vector, without a copy.
    pub fn from_vec(held: Vec<Command>) -> Commands
        ensures { result ≡ held.items }
    {
        Commands { held }
    }

    /// Returns the vector.
    pub fn into_vec(self) -> Vec<Command>
        ensures { result.items ≡ self }
    {
        let Commands { held } = self;
        held
    }

    /// Adds a command at the end. If memory runs out, the commands stay as they are.
    pub(crate) fn push(&mut self, command: Command) -> Result<(), AllocError>
        ensures commands { OnOk result (self.new ≡ self.old ++ command ∷ []) }
        ensures refused { OnErr result (self.new ≡ self.old) }
    {
        self.held.push(command)?;
        Ok(())
    }

    /// Returns the commands, in their order.
    pub fn as_slice(&self) -> &[Command]
        ensures { result.now ≡ self.now }
    {
        &self.held
    }
}

/// The outcome of an event when all rules have run over it: what udev(7) would do with its device, and what a dry
/// run did not do.
#[derive(Drop)]
pub struct Outcome<'a> {
    /// The name of a network device, if a rule assigned one.
    pub name: Option<Bytes>,
    /// The owner of the device's node, as it was assigned.
    pub owner: Option<Bytes>,
    /// The group of the device's node, as it was assigned.
    pub group: Option<Bytes>,
    /// The mode of the device's node, as it was assigned; for udev as four octal digits.
    pub mode: Option<Bytes>,
    /// The priority of this device's links over those of others (`link_priority`), if it was assigned.
    pub priority: Option<i32>,
    /// Whether the device's node is watched (`watch`, `nowatch`), if it was assigned.
    pub watch: Option<bool>,
    /// Whether what is known about the device stays in udev's database (`db_persist`).
    pub persist: bool,
    /// The labels of security modules: by the manual one for each, in the order in which these were named first; for
    /// udev each that was set, in their order.
    pub labels: Labels,
    /// The links to the device's node.
    pub links: OwnedTexts,
    /// The tags.
    pub tags: OwnedTexts,
    /// The properties, sorted by name, byte by byte.
    pub env: SortedPairs<'a>,
    /// The attributes that would be written, in the order in which they were named first.
    pub attrs: CowPairs<'a>,
    /// The kernel parameters that would be written, in the order in which they were named first.
    pub sysctls: CowPairs<'a>,
    /// The commands that would be run.
    pub runs: Commands,
    /// What a dry run did not do, in the order of evaluation; the notes about commands come last.
    pub notes: Notes,
}
