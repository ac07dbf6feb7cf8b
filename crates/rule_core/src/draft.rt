//! What one line says about its rule.

use crate::names::NamePlace;
use file_messages::MessageKind;
use rule_types::{Spot, WrittenPart};
use std::marker::Model;

/// A rule as its line alone gives it.
#[derive(Drop)]
pub struct Draft<'a> {
    /// The name of its LABEL that counts: the first, for udev the last.
    pub label: Option<NamePlace>,
    /// The name of its first GOTO.
    pub goto: Option<NamePlace>,
    /// Its tokens with the parts that they are, in written order.
    pub parts: Vec<WrittenPart<'a>>,
    /// The findings about the rule, in the order of messages.
    pub findings: Vec<Spot<MessageKind>>,
}

impl<'a> Model for Draft<'a> {
    ghost use Rattle.rule_core.specs.Drafts as drafts;

    ghost Value = { drafts.Draft };

    ghost view = { λ d. record { label = d.label; goto = d.goto; parts = d.parts.items; findings = d.findings.items } };
}
