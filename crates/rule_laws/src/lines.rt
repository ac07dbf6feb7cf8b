//! The law of joined lines.
ghost use Rattle.rule_laws.specs.Runs.{NoTextLost, OneWay};

/// What the kept lines give is cut into runs in just one way: one after another the runs are all of it, and each
/// ends in the first line that no `\` continues; only the last may have no such line, if the file ends there. So no
/// byte of a kept line is lost but the `\` that it ends in.
pub fn pieces_are_runs_in_one_way()
    ensures one { OneWay }
    ensures whole { NoTextLost }
{}
