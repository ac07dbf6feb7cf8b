//! The names that a rule has for jumps, and what is found about them.
ghost use Rattle.std.specs.Prelude.{◌≡◌, option_map};

use std::marker::Model;

/// The names that a rule has for jumps, which it borrows.
#[derive(Drop)]
pub struct Jump<'a> {
    label: Option<&'a [u8]>,
    goto: Option<&'a [u8]>,
}

impl<'a> Model for Jump<'a> {
    ghost use Rattle.std.specs.Prelude.{option_map};
    ghost use Rattle.rule_types.specs.Jumps.{Names};

    ghost Value = { Names };

    ghost view = { λ j. record { label = option_map (λ t. t.now) j.label; goto = option_map (λ t. t.now) j.goto } };
}

impl<'a> Jump<'a> {
    /// A rule's label, and the label that it jumps to.
    pub fn new(label: Option<&'a [u8]>, goto: Option<&'a [u8]>) -> Jump<'a>
        ensures label { result.label ≡ option_map (λ t. t.now) label.entry }
        ensures goto { result.goto ≡ option_map (λ t. t.now) goto.entry }
    {
        Jump { label, goto }
    }

    /// The rule's label.
    pub(crate) fn label(&self) -> Option<&'a [u8]>
        ensures { option_map (λ t. t.now) result ≡ self.now.label }
    {
        self.label
    }

    /// The label that the rule jumps to.
    pub(crate) fn goto(&self) -> Option<&'a [u8]>
        ensures { option_map (λ t. t.now) result ≡ self.now.goto }
    {
        self.goto
    }
}

/// What becomes of a rule's label and of its jump.
#[derive(Clone, Copy, PartialEq, Eq)]
pub struct Landing {
    /// It jumps to a label that no later rule has.
    pub lost: bool,
    /// It has a label that no rule jumps to.
    pub unused: bool,
}
