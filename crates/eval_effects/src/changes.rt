//! Names that are no longer there, and items that are there only now.
ghost use Rattle.std.specs.Prelude.{◌≡◌, ◌++◌, IfOk, OnOk, flat_map};
ghost use Rattle.eval_effects.specs.Inner.{table_of};
ghost use Rattle.eval_effects.specs.Changes.{item_changes, name_text, removed_item, set_item, value_part};

use crate::items::Item;
use crate::shown::push_shown;
use std::alloc::{AllocError, Global};
use text_bytes::{Bytes, split_once};
use text_tables::Pairs;

/// A table of items, in which a name has the value that it has among them: of two items with the same name the
/// first counts.
fn table_of<'i>(alloc: Global, items: &'i [Item]) -> Result<Pairs<'i>, AllocError>
    ensures { IfOk result (λ table. table ≡ table_of items.now) }
{
    let mut table = Pairs::new(alloc);
    for item in items.iter().rev() {
        table.add(item.name(), item.value())?;
    }
    Ok(table)
}

/// Appends what becomes of an item that takes a value.
fn push_value(alloc: Global, text: &mut Vec<u8>, value: &[u8]) -> Result<(), AllocError>
    ensures { OnOk result (text.new.items ≡ text.old.items ++ value_part value.now) }
{
    if value.is_empty() {
        return text.extend_from_slice(b" added");
    }
    text.push(b'=')?;
    push_shown(alloc, text, value)?;
    text.extend_from_slice(b" set")
}

/// Appends the name of an item: its word, and what it is about.
fn push_name(alloc: Global, text: &mut Vec<u8>, name: &[u8]) -> Result<(), AllocError>
    ensures { OnOk result (text.new.items ≡ text.old.items ++ name_text name.now) }
{
    let Some((word, about)) = split_once(b' ', name) else {
        return text.extend_from_slice(name);
    };
    text.extend_from_slice(word)?;
    text.push(b' ')?;
    push_shown(alloc, text, about)
}

/// Adds the text of an item, unless it was there like this before.
fn push_set(
    alloc: Global,
    reported: &mut Vec<Bytes>,
    was: &Pairs<'_>,
    item: &Item,
) -> Result<(), AllocError>
    ensures { OnOk result (reported.new.items ≡ reported.old.items ++ set_item was.now item.now) }
{
    if let Some(value) = was.get(item.name()) {
        if value == item.value() {
            return Ok(());
        }
    }
    let mut text = Vec::new(alloc);
    push_name(alloc, &mut text, item.name())?;
    push_value(alloc, &mut text, item.value())?;
    reported.push(Bytes::new(text))?;
    Ok(())
}

/// Adds the text of an earlier item if its name is no longer there.
fn push_removed(
    alloc: Global,
    reported: &mut Vec<Bytes>,
    now: &Pairs<'_>,
    item: &Item,
) -> Result<(), AllocError>
    ensures { OnOk result (reported.new.items ≡ reported.old.items ++ removed_item now.now item.now) }
{
    if now.get(item.name()).is_none() {
        let mut text = Vec::new(alloc);
        push_name(alloc, &mut text, item.name())?;
        text.extend_from_slice(b" removed")?;
        reported.push(Bytes::new(text))?;
    }
    Ok(())
}

/// Adds the texts of the items that were not there like this before.
fn push_all_set(
    alloc: Global,
    reported: &mut Vec<Bytes>,
    was: &Pairs<'_>,
    now: &[Item],
) -> Result<(), AllocError>
    ensures { OnOk result (reported.new.items ≡ reported.old.items ++ flat_map (set_item was.now) now.now) }
{
    for item in now {
        push_set(alloc, reported, was, item)?;
    }
    Ok(())
}

/// Adds the texts of the items whose names are no longer there.
fn push_all_removed(
    alloc: Global,
    reported: &mut Vec<Bytes>,
    was: &[Item],
    now: &Pairs<'_>,
) -> Result<(), AllocError>
    ensures { OnOk result (reported.new.items ≡ reported.old.items ++ flat_map (removed_item now.now) was.now) }
{
    for item in was {
        push_removed(alloc, reported, now, item)?;
    }
    Ok(())
}

/// Adds the texts of what changed in items, first those of what is no longer there.
pub(crate) fn push_item_changes(
    alloc: Global,
    reported: &mut Vec<Bytes>,
    was: &[Item],
    now: &[Item],
) -> Result<(), AllocError>
    ensures { OnOk result (reported.new.items ≡ reported.old.items ++ item_changes was.now now.now) }
{
    let now_table = table_of(alloc, now)?;
    push_all_removed(alloc, reported, was, &now_table)?;
    let was_table = table_of(alloc, was)?;
    push_all_set(alloc, reported, &was_table, now)?;
    Ok(())
}
