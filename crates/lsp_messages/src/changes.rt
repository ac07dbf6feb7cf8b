//! The changes of a document.
ghost use Rattle.std.specs.Prelude.{◌≡◌, IfOk, codes, option_map};
ghost use Rattle.json.specs.Find.{get};
ghost use Rattle.json.specs.Value.{items_view, value_view};
ghost use Rattle.lsp_messages.specs.Changes.{change_of, change_range, changes_in, changes_of};

use crate::parameters::string_at;
use crate::positions::range_of;
use crate::rows::Position;
use crate::text_changes::Change;
use json::Value;
use std::alloc::{AllocError, Global};

/// The changes that the parameters of `textDocument/didChange` have, in order: `contentChanges`. None if that is not an array,
/// or if one of its items is not a change: each has to have a `text` that is a string, and if it has a `range` that is not
/// null, that has to be a range.
#[tactic(auto, unfolding(crate::specs::Changes::changes_of))]
pub fn changes_of<'a>(
    alloc: Global,
    params: &Value<'a>,
) -> Result<Option<Vec<Change<'a>>>, AllocError>
    ensures { IfOk result (λ changes. option_map (λ cs. cs.items) changes ≡ changes_of (value_view params.now)) }
{
    match params.get("contentChanges") {
        Some(Value::Array(values)) => changes_in(alloc, values),
        _ => Ok(None),
    }
}

/// The changes that values are.
fn changes_in<'a>(
    alloc: Global,
    values: &[Value<'a>],
) -> Result<Option<Vec<Change<'a>>>, AllocError>
    ensures { IfOk result (λ changes. option_map (λ cs. cs.items) changes ≡ changes_in (items_view values.now)) }
{
    let mut changes = Vec::new(alloc);
    for value in values {
        match change_of(value) {
            Some(change) => changes.push(change)?,
            None => return Ok(None),
        }
    }
    Ok(Some(changes))
}

/// The change that a value is.
fn change_of<'a>(value: &Value<'a>) -> Option<Change<'a>>
    ensures { result ≡ change_of (value_view value.now) }
{
    let text = string_at(value, "text")?;
    let range = change_range(value)?;
    Some(Change::new(range, text.as_bytes()))
}

/// The range of a change: none without the member or if it is null, and otherwise it has to be a range.
fn change_range(change: &Value<'_>) -> Option<Option<(Position, Position)>>
    ensures { result ≡ change_range (get (codes "range") (value_view change.now)) }
{
    match change.get("range") {
        None | Some(Value::Null) => Some(None),
        Some(range) => Some(Some(range_of(range)?)),
    }
}
