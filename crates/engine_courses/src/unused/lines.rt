//! The lines on rules that no event met.
ghost use Rattle.std.specs.Prelude.{◌≡◌, ◌++◌, [], IfOk, OnOk, map, slice_index_or};
ghost use Rattle.engine_courses.specs.Inner.{line_at};
ghost use Rattle.engine_courses.specs.Unused.{first_place, greatest, is_reported, lines_by, reported_line, rules_named};
ghost use Rattle.engine_courses.specs.Unused.{unmet_text, unused_line};

use crate::unused::rows::Row;
use engine_sessions::push_place;
use eval_courses::rule_keys;
use itoa::Buffer;
use rule_types::Rule;
use std::alloc::{AllocError, Global};
use text_bytes::{Bytes, FileKind, last_component};
use text_tables::is_among;

/// The greatest of counts.
#[tactic(auto, unfolding(crate::specs::Unused::greatest))]
fn greatest(counts: &[u64]) -> u64
    ensures { result ≡ greatest counts.now }
{
    let mut most = 0;
    for count in counts {
        most = most.max(*count);
    }
    most
}

/// How many counts are in front of the first that is as great as this one.
fn first_place(count: u64, counts: &[u64]) -> usize
    ensures { result ≡ first_place count counts.now }
{
    counts.iter().take_while(|n| **n != count).count()
}

/// The key at a place; empty if there is none.
fn key_at(keys: &[Bytes], place: usize) -> &[u8]
    ensures { result.now ≡ slice_index_or keys.now place [] }
{
    match keys.get(place) {
        Some(key) => key.as_slice(),
        None => b"",
    }
}

/// Adds why no event met a rule: none reached it, or else the key that stopped most events, and of several the first.
#[tactic(auto, unfolding(crate::specs::Unused::unmet_text))]
fn push_unmet(
    alloc: Global,
    text: &mut Vec<u8>,
    rule: &Rule,
    reached: u64,
    stops: &[u64],
) -> Result<(), AllocError>
    ensures { OnOk result (text.new.items ≡ text.old.items ++ unmet_text rule.now reached stops.now) }
{
    if reached == 0 {
        return text.extend_from_slice(b"not reached");
    }
    let most = greatest(stops);
    let keys = rule_keys(alloc, rule)?;
    text.extend_from_slice(key_at(&keys, first_place(most, stops)))?;
    text.extend_from_slice(b" failed ")?;
    text.extend_from_slice(Buffer::new().format(most).as_bytes())?;
    text.extend_from_slice(b" of ")?;
    text.extend_from_slice(Buffer::new().format(reached).as_bytes())
}

/// Adds the line on a rule by its counts, if no event met it.
#[tactic(auto, unfolding(crate::specs::Unused::line_on))]
fn push_unused_line(
    alloc: Global,
    text: &mut Vec<u8>,
    rule: &Rule,
    row: &Row,
) -> Result<(), AllocError>
    ensures { OnOk result (text.new.items ≡ text.old.items ++ unused_line rule.now row.now) }
{
    let Some((met, stops)) = row.ends.split_first() else {
        return Ok(());
    };
    if *met != 0 {
        return Ok(());
    }
    text.extend_from_slice(b"unused ")?;
    push_place(alloc, text, rule.file(), rule.line)?;
    push_unmet(alloc, text, rule, row.reached, stops)?;
    text.push(b'\n')?;
    Ok(())
}

/// The names of the rules files among these paths, by how each path ends.
pub(crate) fn rules_named<'a>(alloc: Global, paths: &[&'a str]) -> Result<Vec<&'a [u8]>, AllocError>
    ensures { IfOk result (λ names. map (λ n. n.now) names.items ≡ rules_named (map (λ p. p.now) paths.now)) }
{
    let mut names = Vec::new(alloc);
    for path in paths {
        if !path
            .as_bytes()
            .ends_with(FileKind::Hwdb.suffix().as_bytes())
        {
            names.push(last_component(path.as_bytes()))?;
        }
    }
    Ok(names)
}

/// Whether a rule is reported on: it is of one of the files that are named, or none is.
fn is_reported(names: &[&[u8]], rule: &Rule) -> bool
    ensures { result ≡ is_reported (map (λ n. n.now) names.now) rule.now }
{
    match names {
        [] => true,
        [_, ..] => is_among(names, rule.file()),
    }
}

/// Adds the line on a rule by its counts, if no event met it and it is reported on.
fn push_reported_line(
    alloc: Global,
    text: &mut Vec<u8>,
    names: &[&[u8]],
    rule: &Rule,
    row: &Row,
) -> Result<(), AllocError>
    ensures { OnOk result (text.new.items ≡ text.old.items ++ reported_line (map (λ n. n.now) names.now) rule.now row.now) }
{
    if is_reported(names, rule) {
        push_unused_line(alloc, text, rule, row)?;
    }
    Ok(())
}

/// Adds the line on the rule at a place, if there is one, as it is added on a rule.
fn push_line_at(
    alloc: Global,
    text: &mut Vec<u8>,
    names: &[&[u8]],
    rules: &[Rule],
    rows: &[Row],
    place: usize,
) -> Result<(), AllocError>
    ensures { OnOk result (text.new.items ≡ text.old.items ++ line_at (map (λ n. n.now) names.now) rules.now rows.now place) }
{
    let Some(rule) = rules.get(place) else {
        return Ok(());
    };
    let Some(row) = rows.get(place) else {
        return Ok(());
    };
    push_reported_line(alloc, text, names, rule, row)
}

/// Adds the lines on rules by their counts.
fn push_lines(
    alloc: Global,
    text: &mut Vec<u8>,
    names: &[&[u8]],
    rules: &[Rule],
    rows: &[Row],
) -> Result<(), AllocError>
    ensures { OnOk result (text.new.items ≡ text.old.items ++ lines_by (map (λ n. n.now) names.now) rules.now rows.now) }
{
    for place in 0..rules.len() {
        push_line_at(alloc, text, names, rules, rows, place)?;
    }
    Ok(())
}

/// The lines on rules by their counts.
pub(crate) fn lines_by(
    alloc: Global,
    names: &[&[u8]],
    rules: &[Rule],
    rows: &[Row],
) -> Result<Bytes, AllocError>
    ensures { IfOk result (λ text. text ≡ lines_by (map (λ n. n.now) names.now) rules.now rows.now) }
{
    let mut text = Vec::new(alloc);
    push_lines(alloc, &mut text, names, rules, rows)?;
    Ok(Bytes::new(text))
}
