//! One part of a rule, by what it is for.

use crate::roles::{AssignOperator, MatchOperator, PlainKey, Target, UpKey};
use crate::rule_option::RuleOption;
use crate::types::RunType;
use rule_tokens::Template;
use text_bytes::Bytes;
use text_core::Choice;

/// A part of a rule: what one token asks for.
#[derive(Drop)]
pub enum Part {
    /// A match of the event.
    Plain(PlainMatch),
    /// A match of one device of the chain.
    Up(UpMatch),
    /// Something that is done, and perhaps stops the rule.
    Act(Act),
    /// A match of the result of PROGRAM.
    Result(Comparison),
    /// An assignment.
    Set(Assignment),
    /// The name that jumps find the rule by.
    Label(Bytes),
    /// The label to which the rule jumps.
    Goto(Bytes),
}

/// Patterns, and whether one of them has to fit or none may.
#[derive(Drop)]
pub struct Comparison {
    /// `==` if one has to fit, `!=` if none may.
    pub operator: MatchOperator,
    /// Whether the case of ASCII letters is ignored.
    pub blind: bool,
    /// The value as it was given, with its escapes read.
    pub written: Bytes,
    /// The patterns of the value.
    pub choice: Choice,
}

/// A match of the event.
#[derive(Drop)]
pub struct PlainMatch {
    /// What is compared.
    pub key: PlainKey,
    /// What it is compared with.
    pub wanted: Comparison,
}

/// A match of one device of the chain.
#[derive(Drop)]
pub struct UpMatch {
    /// What is compared.
    pub key: UpKey,
    /// What it is compared with.
    pub wanted: Comparison,
}

/// Something that is done while a rule is matched.
#[derive(Drop)]
pub struct Act {
    /// `==` if the rule goes on when it succeeds, `!=` if the rule goes on when it fails.
    pub operator: MatchOperator,
    /// What is done.
    pub kind: ActKind,
}

/// What an act does.
#[derive(Drop)]
pub enum ActKind {
    /// TEST asks whether the event device has a file, with a mask of file modes if there is one.
    Test(Option<Bytes>, Template),
    /// PROGRAM asks for the output of a command.
    Program(Template),
    /// IMPORT takes properties.
    Import(Import),
}

/// Where IMPORT takes properties from.
#[derive(Drop)]
pub enum Import {
    /// The output of a command.
    Program(Template),
    /// A command that is built into udev.
    Builtin(Template),
    /// A file, by its path.
    File(Template),
    /// The parent device: the properties whose names fit, and case counts; with the value as it was given.
    Parent(Choice, Bytes),
    /// The kernel's command line, by a parameter's name.
    Cmdline(Bytes),
    /// udev's database, by a property's name.
    Db(Bytes),
}

/// An assignment.
#[derive(Drop)]
pub struct Assignment {
    /// How it changes what was there. An operator that the key reads as `=` is `=`.
    pub operator: AssignOperator,
    /// What is changed.
    pub change: Change,
}

/// What an assignment changes.
#[derive(Drop)]
pub enum Change {
    /// An option of OPTIONS.
    Option(RuleOption),
    /// A text, with its substitutions made.
    Text(Target, Template),
    /// RUN: a command that is run in the end, with its type if one is given; else it is a program.
    Run(Option<RunType>, Template),
}
