//! What is given with a text that is assigned.
use crate::escapes::Escape;
use rule_types::{AssignOperator, Rule, Target};
use std::marker::Model;

/// What is given with a text that is assigned.
#[derive(Drop)]
pub(crate) struct Given<'a> {
    /// The rule.
    pub rule: &'a Rule,
    /// How the rule treats bytes of links and names.
    pub escape: Escape,
    pub operator: AssignOperator,
    /// What the text is assigned to.
    pub target: &'a Target,
    /// The text as it is written.
    pub written: &'a [u8],
}

impl<'a> Model for Given<'a> {
    ghost use Rattle.eval_assignments.specs.Givens.{Given};

    ghost Value = { Given };

    ghost view = { λ g. record { rule = g.rule.now; escape = g.escape; operator = g.operator; target = g.target.now; written = g.written.now } };
}
