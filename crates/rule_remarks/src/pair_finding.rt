//! What is reported for two tokens of a rule.
ghost use Rattle.std.specs.Prelude.{◌≡◌};
ghost use Rattle.rule_remarks.specs.Pairs.{message_of};

use file_messages::MessageKind;

/// What two tokens of a rule are to each other.
#[derive(Clone, Copy, PartialEq, Eq)]
pub(crate) enum PairKind {
    /// They say the same.
    Same,
    /// They exclude each other.
    Against,
}

/// What is reported for two tokens of a rule.
#[derive(Clone, Copy, PartialEq, Eq)]
pub(crate) struct PairFinding {
    /// What they are to each other.
    pub(crate) kind: PairKind,
    /// The place of the later one among the tokens of the rule, from 0.
    pub(crate) token: usize,
}

impl PairKind {
    /// The kind of the message that reports it.
    pub(crate) fn message_kind(self) -> MessageKind
        ensures { result ≡ message_of self }
    {
        match self {
            PairKind::Same => MessageKind::SaidTwice,
            PairKind::Against => MessageKind::MatchesExclude,
        }
    }
}
