//! The lines that one list has more often than another.
//!
//! Each line of the other list is counted once, and each line here takes one of them away; so the time
//! grows with the bytes of both lists, whatever the lines are.
ghost use Rattle.std.specs.Prelude.{◌≡◌, ◌+◌, ◌-◌, ◌^◌, ◌<◌, if◌then◌else◌, nat_lt, map, IfOk, OnOk, OnErr};
ghost use Rattle.text_tables.specs.Pairs.{with_value};
ghost use Rattle.text_bytes.specs.Text.{Text};
ghost use Rattle.text_tables.specs.Texts.{same_text};
ghost use Rattle.text_tables.specs.Surplus.{ShownLine, line_of, surplus_by};
ghost use Rattle.text_tables.specs.Tallies.{left_of, Tallies};

use crate::table::Table;
use std::alloc::{AllocError, Global};

/// The lines that a list has more often than another, in its order; of equal lines the last ones. Each line comes with what
/// is shown for it, which is not compared.
pub fn surplus<'a>(
    alloc: Global,
    lines: &[(&'a [u8], &'a [u8])],
    others: &[(&'a [u8], &'a [u8])],
) -> Result<Vec<(&'a [u8], &'a [u8])>, AllocError>
    ensures { IfOk result (λ more. map {B = ShownLine} (λ l. (l.0.now, l.1.now)) more.items
        ≡ surplus_by line_of (map (λ l. (l.0.now, l.1.now)) lines.now) (map (λ l. l.0.now) others.now)) }
{
    let mut tally = tally_of(alloc, others)?;
    let mut more = Vec::new(alloc);
    for line in lines {
        let (text, _) = *line;
        if !take_one(&mut tally, text)? {
            more.push(*line)?;
        }
    }
    Ok(more)
}

/// How often each line is in a list, whatever is shown for it.
fn tally_of<'a>(
    alloc: Global,
    lines: &[(&'a [u8], &'a [u8])],
) -> Result<Table<'a, usize>, AllocError>
    ensures { IfOk result (λ tally. Tallies tally (map (λ l. l.0.now) lines.now)) }
{
    let mut tally = Table::new(alloc);
    for (text, _) in lines {
        count_one(&mut tally, text)?;
    }
    Ok(tally)
}

/// Counts a text once more, and returns how many of it there are now. If memory runs out, the counts stay as they are.
pub fn count_one<'a>(tally: &mut Table<'a, usize>, text: &'a [u8]) -> Result<usize, AllocError>
    requires { left_of tally.old text.now + 1 < 2 ^ 64 }
    ensures count { IfOk result (λ count. count ≡ left_of tally.old text.now + 1) }
    ensures counts { OnOk result (tally.new ≡ with_value tally.old text.now (left_of tally.old text.now + 1)) }
    ensures refused { OnErr result (tally.new ≡ tally.old) }
{
    let count = left_of(tally, text) + 1;
    tally.add(text, count)?;
    Ok(count)
}

/// How many of a line are left.
fn left_of(tally: &Table<'_, usize>, line: &[u8]) -> usize
    ensures { result ≡ left_of tally.now line.now }
{
    match tally.get(line) {
        None => 0,
        Some(left) => *left,
    }
}

/// Takes one of a line away, if one is left, and returns whether one was.
fn take_one<'a>(tally: &mut Table<'a, usize>, line: &'a [u8]) -> Result<bool, AllocError>
    ensures there { IfOk result (λ there. there ≡ nat_lt 0 (left_of tally.old line.now)) }
    ensures left { OnOk result ((text : Text) → left_of tally.new text ≡ left_of tally.old text - (if same_text text line.now then 1 else 0)) }
{
    let left = left_of(tally, line);
    if left == 0 {
        return Ok(false);
    }
    tally.add(line, left - 1)?;
    Ok(true)
}
