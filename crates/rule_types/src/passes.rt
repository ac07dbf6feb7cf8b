//! The passes over the rules of a file: up for the jumps, down for the labels.
ghost use Rattle.std.specs.Prelude.{◌≡◌, [], map, option_map, IfOk, OnOk};
ghost use Rattle.std.specs.List.{zip};
ghost use Rattle.rule_types.specs.Jumps.{landings};
ghost use Rattle.rule_types.specs.Passes.{joined, leaves_unused, lost_flags, misses, unused_flags, with_name, with_note};

use crate::jumps::{Jump, Landing};
use std::alloc::{AllocError, Global};
use text_tables::{Table, Texts};

/// What becomes of the jumps of a file's rules, in order, as udev(7) has it: a GOTO jumps to the next label of its
/// name, in a later rule of the file. A label is used if such a jump ends at it.
pub fn landings(alloc: Global, rules: &[Jump<'_>]) -> Result<Vec<Landing>, AllocError>
    ensures { IfOk result (λ found. found.items ≡ landings rules.now) }
{
    let lost = lost_flags(alloc, rules)?;
    let unused = unused_flags(alloc, rules)?;
    joined(alloc, &lost, &unused)
}

/// Whether each rule jumps to a label that no later rule has.
fn lost_flags(alloc: Global, rules: &[Jump<'_>]) -> Result<Vec<bool>, AllocError>
    ensures { IfOk result (λ flags. flags.items ≡ lost_flags rules.now) }
{
    let mut below = Texts::new(alloc);
    let mut flags = Vec::with_capacity(alloc, rules.len())?;
    for rule in rules.iter().rev() {
        flags.push(misses(&below, rule.goto()))?;
        add(&mut below, rule.label())?;
    }
    flags.reverse();
    Ok(flags)
}

/// Whether there is a name, and it is not one of these.
fn misses(names: &Texts<'_>, name: Option<&[u8]>) -> bool
    ensures { result ≡ misses names.now (option_map (λ t. t.now) name.entry) }
{
    match name {
        Some(name) => !names.contains(name),
        None => false,
    }
}

/// Adds a name, if there is one.
fn add<'a>(names: &mut Texts<'a>, name: Option<&'a [u8]>) -> Result<(), AllocError>
    ensures { OnOk result (names.new ≡ with_name names.old (option_map (λ t. t.now) name.entry)) }
{
    if let Some(name) = name {
        names.add(name)?;
    }
    Ok(())
}

/// Whether each rule has a label that no rule above jumps to.
fn unused_flags(alloc: Global, rules: &[Jump<'_>]) -> Result<Vec<bool>, AllocError>
    ensures { IfOk result (λ flags. flags.items ≡ unused_flags [] rules.now) }
{
    let mut waiting = Table::new(alloc);
    let mut flags = Vec::with_capacity(alloc, rules.len())?;
    for rule in rules {
        flags.push(leaves_unused(&waiting, rule.label()))?;
        note(&mut waiting, rule.label(), false)?;
        note(&mut waiting, rule.goto(), true)?;
    }
    Ok(flags)
}

/// Whether there is a label, and no jump waits for it.
fn leaves_unused(waiting: &Table<'_, bool>, label: Option<&[u8]>) -> bool
    ensures { result ≡ leaves_unused waiting.now (option_map (λ t. t.now) label.entry) }
{
    match label {
        Some(label) => !waiting.get(label).copied().unwrap_or(false),
        None => false,
    }
}

/// Records for a name, if there is one, whether a jump waits for its next label.
fn note<'a>(
    waiting: &mut Table<'a, bool>,
    name: Option<&'a [u8]>,
    waits: bool,
) -> Result<(), AllocError>
    ensures { OnOk result (waiting.new ≡ with_note waiting.old (option_map (λ t. t.now) name.entry) waits) }
{
    if let Some(name) = name {
        waiting.add(name, waits)?;
    }
    Ok(())
}

/// The two lists of flags as one.
fn joined(alloc: Global, lost: &[bool], unused: &[bool]) -> Result<Vec<Landing>, AllocError>
    ensures { IfOk result (λ found. found.items ≡ map joined (zip lost.now unused.now)) }
{
    lost.iter()
        .zip(unused)
        .map(|(lost, unused)| Landing {
            lost: *lost,
            unused: *unused,
        })
        .collect(alloc)
}
