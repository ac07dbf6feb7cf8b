//! The counts of rules.
ghost use Rattle.std.specs.Prelude.{◌≡◌, ◌+◌, IfOk, OnOk, map};
ghost use Rattle.engine_courses.specs.Inner.{with_fate_at};
ghost use Rattle.engine_courses.specs.Rows.{raised, unreached, with_end, with_fate, with_fates};

use eval_courses::{Fate, rule_keys};
use rule_types::Rule;
use std::alloc::{AllocError, Global};
use std::marker::Model;

/// The counts of a rule.
#[derive(Drop)]
pub(crate) struct Row {
    /// How many events reached it.
    pub(crate) reached: u64,
    /// How many of these ended how: first those that met all its keys, then those that each of its keys stopped.
    pub(crate) ends: Vec<u64>,
}

impl Model for Row {
    ghost use Rattle.engine_courses.specs.Rows as counts;

    ghost Value = { counts.Row };

    ghost view = { λ r. record { reached = r.reached; ends = r.ends.items } };
}

/// Adds one to a count. Fails if it is the greatest there is.
fn one_more(count: u64) -> Result<u64, AllocError>
    ensures { IfOk result (λ more. more ≡ count + 1) }
{
    match count.checked_add(1) {
        Some(more) => Ok(more),
        None => Err(AllocError),
    }
}

/// Adds one to the count at a place, if there is one.
fn raise(counts: &mut Vec<u64>, place: usize) -> Result<(), AllocError>
    ensures { OnOk result (counts.new.items ≡ raised place counts.old.items) }
{
    if place < counts.len() {
        counts[place] = one_more(counts[place])?;
    }
    Ok(())
}

impl Row {
    /// The counts of a rule before any event.
    fn new(alloc: Global, rule: &Rule) -> Result<Row, AllocError>
        ensures { IfOk result (λ row. row ≡ unreached rule.now) }
    {
        let keys = rule_keys(alloc, rule)?;
        let mut ends = Vec::new(alloc);
        ends.push(0)?;
        for _key in keys.as_slice() {
            ends.push(0)?;
        }
        Ok(Row { reached: 0, ends })
    }

    /// Counts one more event that reached the rule and ended so.
    fn end(&mut self, end: usize) -> Result<(), AllocError>
        ensures { OnOk result (self.new ≡ with_end self.old end) }
    {
        self.reached = one_more(self.reached)?;
        raise(&mut self.ends, end)
    }

    /// Counts one more event.
    fn note(&mut self, fate: Fate) -> Result<(), AllocError>
        ensures { OnOk result (self.new ≡ with_fate self.old fate) }
    {
        match fate {
            Fate::Passed => Ok(()),
            Fate::Stopped(number) => self.end(number),
            Fate::Met => self.end(0),
        }
    }
}

/// The counts of rules before any event.
pub(crate) fn rows_of(alloc: Global, rules: &[Rule]) -> Result<Vec<Row>, AllocError>
    ensures { IfOk result (λ rows. rows.items ≡ map unreached rules.now) }
{
    let mut rows = Vec::with_capacity(alloc, rules.len())?;
    for rule in rules {
        rows.push(Row::new(alloc, rule)?)?;
    }
    Ok(rows)
}

/// Counts one more event for the rule at a place, if there is one.
fn note_at(rows: &mut Vec<Row>, place: usize, fate: Fate) -> Result<(), AllocError>
    ensures { OnOk result (rows.new.items ≡ with_fate_at rows.old.items place fate) }
{
    match rows.get_mut(place) {
        Some(row) => row.note(fate),
        None => Ok(()),
    }
}

/// Counts one more event for all rules, by what became of each.
pub(crate) fn note_all(rows: &mut Vec<Row>, fates: &[Fate]) -> Result<(), AllocError>
    ensures { OnOk result (rows.new.items ≡ with_fates rows.old.items fates.now) }
{
    for place in 0..fates.len() {
        note_at(rows, place, fates[place])?;
    }
    Ok(())
}
