//! Rules as they are meant.
ghost use Rattle.std.specs.Prelude.{◌≡◌, option_map};

use crate::part::{Act, Assignment, Comparison, PlainMatch, UpMatch};
use std::marker::Model;
use text_bytes::Bytes;

/// A rule: its file and line, its names for jumps, and its parts in the order in which they are evaluated.
#[derive(Drop)]
pub struct Rule {
    /// The name of the file that it is in.
    pub file: Bytes,
    /// The number of its first line, counted from 1; at most 2^32 - 1.
    pub line: u32,
    /// The name that a jump finds it by.
    pub label: Option<Bytes>,
    /// The label of a later rule of its file to which it jumps.
    pub goto: Option<Bytes>,
    /// The matches of the event device, in written order.
    pub plain: Vec<PlainMatch>,
    /// The matches of one device of the chain, in written order.
    pub up: Vec<UpMatch>,
    /// The parts that act: TEST, then PROGRAM, then IMPORT by its type, those of one kind in written order.
    pub acts: Vec<Act>,
    /// The matches of RESULT, in written order.
    pub results: Vec<Comparison>,
    /// The assignments, by their kind, those of one kind in written order.
    pub sets: Vec<Assignment>,
}

impl Model for Rule {
    ghost use Rattle.rule_types.specs.Rules as rules;

    ghost Value = { rules.Rule };

    ghost view = { λ r. record {
      file = r.file;
      line = r.line;
      label = r.label;
      goto = r.goto;
      plain = r.plain.items;
      up = r.up.items;
      acts = r.acts.items;
      results = r.results.items;
      sets = r.sets.items;
    } };
}

impl Rule {
    /// The name of its file, as bytes.
    pub fn file(&self) -> &[u8]
        ensures { result.now ≡ self.now.file }
    {
        self.file.as_slice()
    }

    /// The name that a jump finds it by, as bytes.
    pub fn label(&self) -> Option<&[u8]>
        ensures { option_map (λ t. t.now) result ≡ self.now.label }
    {
        match &self.label {
            None => None,
            Some(text) => Some(text.as_slice()),
        }
    }

    /// The label to which it jumps, as bytes.
    pub fn goto(&self) -> Option<&[u8]>
        ensures { option_map (λ t. t.now) result ≡ self.now.goto }
    {
        match &self.goto {
            None => None,
            Some(text) => Some(text.as_slice()),
        }
    }
}
