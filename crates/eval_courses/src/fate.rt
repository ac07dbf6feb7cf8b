//! What may become of a rule at an event.

/// What became of a rule at an event.
#[derive(Clone, Copy, Debug, PartialEq, Eq)]
pub enum Fate {
    /// 1: a label was sought, and the rule was passed over.
    Passed,
    /// 2: a key stopped it: the one of this number, counted from 1 in the order of evaluation.
    Stopped(usize),
    /// 3: all its keys let it go on.
    Met,
}
