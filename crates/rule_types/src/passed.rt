//! The pass over rules, from the last one up.
ghost use Rattle.std.specs.Prelude.{◌≡◌, IfOk, OnOk, option_map};
ghost use Rattle.rule_types.specs.Passed.{skipped};
ghost use Rattle.rule_types.specs.Walks.{over_met, with_label};

use crate::rule::Rule;
use std::alloc::{AllocError, Global};
use text_tables::Table;

/// How many rules the jump of each rule skips, as udev(7) has it: those between the rule and the next one with the
/// label. A rule without a jump skips none, and one whose label no later rule has skips all later rules.
pub fn skipped(alloc: Global, rules: &[Rule]) -> Result<Vec<usize>, AllocError>
    ensures { IfOk result (λ counts. counts.items ≡ skipped rules.now) }
{
    let mut labels = Table::new(alloc);
    let mut counts = Vec::with_capacity(alloc, rules.len())?;
    for rule in rules.iter().rev() {
        let below = counts.len();
        counts.push(over(&labels, rule.goto(), below))?;
        note(&mut labels, rule.label(), below)?;
    }
    counts.reverse();
    Ok(counts)
}

/// How many of the rules below a jump it skips, given the labels of these, each with how many rules are below the
/// first rule that has it.
fn over(labels: &Table<'_, usize>, goto: Option<&[u8]>, below: usize) -> usize
    ensures { result ≡ over_met labels.now (option_map (λ t. t.now) goto.entry) below }
{
    match goto {
        None => 0,
        Some(name) => match labels.get(name) {
            None => below,
            Some(following) => below.saturating_sub(*following).saturating_sub(1),
        },
    }
}

/// Records how many rules are below one with a label.
fn note<'a>(
    labels: &mut Table<'a, usize>,
    label: Option<&'a [u8]>,
    below: usize,
) -> Result<(), AllocError>
    ensures { OnOk result (labels.new ≡ with_label labels.old (option_map (λ t. t.now) label.entry) below) }
{
    if let Some(name) = label {
        labels.add(name, below)?;
    }
    Ok(())
}
