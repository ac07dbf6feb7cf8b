//! The properties that rules import or assign.
ghost use Rattle.std.specs.Prelude.{◌≡◌, ◌∷◌, [], OnOk, if◌then◌else◌, map};
ghost use Rattle.text_tables.specs.Texts.{with_texts};
ghost use Rattle.rule_file_lints.specs.Imported.{any_property, assigned_in, else_any, families, families_in, given_by, has_family, has_property, imported_by};
ghost use Rattle.rule_file_lints.specs.Imported.{imported_in, is_given, is_of, names_in_act_kind, names_in_import, names_perhaps, names_several, perhaps_in};
ghost use Rattle.rule_file_lints.specs.Imported.{perhaps_in_act_kind};

use rule_core::WrittenPart;
use rule_lints::first_word;
use rule_types::{ActKind, Change, Import, Part, Target};
use std::alloc::{AllocError, Global};
use text_tables::OwnedTexts;

/// Builtins, each with a family of properties that it imports: what their names begin with, and then a `*`.
const FAMILIES: [(&[u8], &[u8]); 6] = [
    (b"blkid", b"ID_FS_*"),
    (b"blkid", b"ID_PART_*"),
    (b"path_id", b"ID_PATH*"),
    (b"input_id", b"ID_INPUT*"),
    (b"net_id", b"ID_NET_NAME_*"),
    (b"usb_id", b"ID_USB_*"),
];

/// This stands for every property, if a rule may import any.
const ANY_PROPERTY: &[u8] = b"*";

/// Adds what the tokens of a rule import.
pub(crate) fn add_imported(
    alloc: Global,
    names: &mut OwnedTexts,
    tokens: &[WrittenPart<'_>],
) -> Result<(), AllocError>
    ensures { OnOk result (names.new ≡ with_texts names.old (imported_by tokens.now)) }
{
    for token in tokens {
        add_imports(alloc, names, &token.part)?;
    }
    Ok(())
}

/// Adds what the tokens of a rule import, may import or assign.
pub(crate) fn add_given(
    alloc: Global,
    names: &mut OwnedTexts,
    tokens: &[WrittenPart<'_>],
) -> Result<(), AllocError>
    ensures { OnOk result (names.new ≡ with_texts names.old (given_by tokens.now)) }
{
    for token in tokens {
        add_imports(alloc, names, &token.part)?;
        add_perhaps(alloc, names, &token.part)?;
        add_assigned(alloc, names, &token.part)?;
    }
    Ok(())
}

/// Adds what a part of a rule imports.
fn add_imports(alloc: Global, names: &mut OwnedTexts, part: &Part) -> Result<(), AllocError>
    ensures { OnOk result (names.new ≡ with_texts names.old (imported_in part.now)) }
{
    match part {
        Part::Act(act) => add_act_kind(alloc, names, &act.kind),
        _ => Ok(()),
    }
}

/// Adds what an act imports.
fn add_act_kind(alloc: Global, names: &mut OwnedTexts, act_kind: &ActKind) -> Result<(), AllocError>
    ensures { OnOk result (names.new ≡ with_texts names.old (names_in_act_kind act_kind.now)) }
{
    match act_kind {
        ActKind::Import(import) => add_import(alloc, names, import),
        _ => Ok(()),
    }
}

/// Adds what an IMPORT imports.
fn add_import(alloc: Global, names: &mut OwnedTexts, import: &Import) -> Result<(), AllocError>
    ensures { OnOk result (names.new ≡ with_texts names.old (names_in_import import.now)) }
{
    match import {
        Import::Builtin(command) => {
            add_families(alloc, names, &FAMILIES, first_word(command.written()))?;
        }
        Import::Cmdline(name) => {
            names.add(alloc, name.as_slice())?;
        }
        _ => {}
    }
    Ok(())
}

/// Adds the families that a builtin imports.
fn add_families(
    alloc: Global,
    names: &mut OwnedTexts,
    rows: &[(&[u8], &[u8])],
    builtin: &[u8],
) -> Result<(), AllocError>
    ensures { OnOk result (names.new ≡ with_texts names.old (families_in (map (λ row. (row.0.now, row.1.now)) rows.now) builtin.now)) }
{
    for row in rows {
        if row.0 == builtin {
            names.add(alloc, row.1)?;
        }
    }
    Ok(())
}

/// Adds what a part of a rule may import.
fn add_perhaps(alloc: Global, names: &mut OwnedTexts, part: &Part) -> Result<(), AllocError>
    ensures { OnOk result (names.new ≡ with_texts names.old (perhaps_in part.now)) }
{
    match part {
        Part::Act(act) => add_perhaps_by(alloc, names, &act.kind),
        _ => Ok(()),
    }
}

/// Adds what an act may import.
fn add_perhaps_by(
    alloc: Global,
    names: &mut OwnedTexts,
    act_kind: &ActKind,
) -> Result<(), AllocError>
    ensures { OnOk result (names.new ≡ with_texts names.old (perhaps_in_act_kind act_kind.now)) }
{
    match act_kind {
        ActKind::Import(import) => add_named(alloc, names, import),
        _ => Ok(()),
    }
}

/// Adds the property that an IMPORT names in the database or in the parent, or every property.
fn add_named(alloc: Global, names: &mut OwnedTexts, import: &Import) -> Result<(), AllocError>
    ensures { OnOk result (names.new ≡ with_texts names.old (names_perhaps import.now)) }
{
    match import {
        Import::Program(_) | Import::File(_) => {
            names.add(alloc, ANY_PROPERTY)?;
        }
        Import::Builtin(command) => {
            add_unless_known(alloc, names, first_word(command.written()))?;
        },
        Import::Db(name) => {
            names.add(alloc, name.as_slice())?;
        }
        Import::Parent(_, value) => {
            names.add(alloc, named_of_parent(value.as_slice()))?;
        }
        Import::Cmdline(_) => {}
    }
    Ok(())
}

/// Adds every property if a builtin has no family here.
fn add_unless_known(alloc: Global, names: &mut OwnedTexts, builtin: &[u8]) -> Result<(), AllocError>
    ensures { OnOk result (names.new ≡ with_texts names.old (else_any (families_in families builtin.now))) }
{
    if !has_families(&FAMILIES, builtin) {
        names.add(alloc, ANY_PROPERTY)?;
    }
    Ok(())
}

/// Whether one of these rows is a builtin's.
fn has_families(rows: &[(&[u8], &[u8])], builtin: &[u8]) -> bool
    ensures { else_any (families_in (map (λ row. (row.0.now, row.1.now)) rows.now) builtin.now) ≡ (if result then [] else any_property ∷ []) }
{
    for row in rows {
        if row.0 == builtin {
            return true;
        }
    }
    false
}

/// The property that is imported from the parent, or every property.
fn named_of_parent(value: &[u8]) -> &[u8]
    ensures { result.now ≡ (if names_several value.now then any_property else value.now) }
{
    if names_several(value) {
        ANY_PROPERTY
    } else {
        value
    }
}

/// Whether the value of an IMPORT names more than one property: it has a sign of patterns.
fn names_several(value: &[u8]) -> bool
    ensures { result ≡ names_several value.now }
{
    value.iter().any(|byte| *byte == b'*' || *byte == b'?' || *byte == b'[' || *byte == b'|')
}

/// Adds the property that a part of a rule assigns.
fn add_assigned(alloc: Global, names: &mut OwnedTexts, part: &Part) -> Result<(), AllocError>
    ensures { OnOk result (names.new ≡ with_texts names.old (assigned_in part.now)) }
{
    if let Part::Set(assignment) = part {
        if let Change::Text(Target::Env(name), _) = &assignment.change {
            names.add(alloc, name.as_slice())?;
        }
    }
    Ok(())
}

/// Whether a property is among names, or of a family among them.
pub(crate) fn has_property(names: &OwnedTexts, name: &[u8]) -> bool
    ensures { result ≡ has_property names.now name.now }
{
    names.contains(name) || has_family(names, &FAMILIES, name)
}

/// Whether names that are given have a property, a family of it, or every property.
pub(crate) fn is_given(names: &OwnedTexts, name: &[u8]) -> bool
    ensures { result ≡ is_given names.now name.now }
{
    names.contains(ANY_PROPERTY) || has_property(names, name)
}

/// Whether a family of a property is among names.
fn has_family(names: &OwnedTexts, rows: &[(&[u8], &[u8])], name: &[u8]) -> bool
    ensures { result ≡ has_family names.now (map (λ row. (row.0.now, row.1.now)) rows.now) name.now }
{
    for row in rows {
        if is_of(row.1, name) && names.contains(row.1) {
            return true;
        }
    }
    false
}

/// Whether a property is of a family.
fn is_of(family: &[u8], name: &[u8]) -> bool
    ensures { result ≡ is_of family.now name.now }
{
    let (prefix, _) = family.split_at(family.len().saturating_sub(1));
    name.starts_with(prefix)
}
