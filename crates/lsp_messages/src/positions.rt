//! Positions and ranges, read and written.
ghost use Rattle.std.specs.Prelude.{◌≡◌, ◌++◌, OnOk};
ghost use Rattle.json.specs.Tree.{json_tokens};
ghost use Rattle.json.specs.Value.{value_view};
ghost use Rattle.lsp_messages.specs.Positions.{number_at, position_at, position_value, range_of, range_value};

use crate::numbers::whole_number;
use crate::rows::Position;
use json::{Value, Writer};
use std::alloc::AllocError;
use text_json::write_number;

/// The number that a member is, if it is a whole one that is not below zero; 2^32 - 1 for a greater one.
pub(crate) fn number_at(value: &Value<'_>, name: &str) -> Option<u32>
    ensures { result ≡ number_at name.now (value_view value.now) }
{
    let number = value.get(name)?;
    let text = number.as_number()?;
    whole_number(text.as_bytes())
}

/// The position that a member is: its members `line` and `character`, each a whole number that is not below zero.
#[tactic(auto, unfolding(crate::specs::Positions::position_of))]
pub(crate) fn position_at(value: &Value<'_>, name: &str) -> Option<Position>
    ensures { result ≡ position_at name.now (value_view value.now) }
{
    let position = value.get(name)?;
    let line = number_at(position, "line")?;
    let character = number_at(position, "character")?;
    Some(Position { line, character })
}

/// The range that a value is: its members `start` and `end`, each a position.
#[tactic(auto, unfolding(crate::specs::Positions::range_of))]
pub(crate) fn range_of(value: &Value<'_>) -> Option<(Position, Position)>
    ensures { result ≡ range_of (value_view value.now) }
{
    let start = position_at(value, "start")?;
    let end = position_at(value, "end")?;
    Some((start, end))
}

/// Writes a position as a value.
#[tactic(auto, unfolding(crate::specs::Positions::position_value))]
fn write_position(writer: &mut Writer, position: Position) -> Result<(), AllocError>
    ensures tokens { OnOk result (writer.new.tokens ≡ writer.old.tokens ++ json_tokens (position_value position)) }
    ensures before { OnOk result (writer.new.before ≡ writer.old.before) }
{
    writer.begin_object()?;
    write_number(writer, "line", position.line)?;
    write_number(writer, "character", position.character)?;
    writer.end_object()?;
    Ok(())
}

/// Writes a range as a value.
#[tactic(auto, unfolding(crate::specs::Positions::range_value))]
pub fn write_range(writer: &mut Writer, start: Position, end: Position) -> Result<(), AllocError>
    ensures tokens { OnOk result (writer.new.tokens ≡ writer.old.tokens ++ json_tokens (range_value start end)) }
    ensures before { OnOk result (writer.new.before ≡ writer.old.before) }
{
    writer.begin_object()?;
    writer.key("start")?;
    write_position(writer, start)?;
    writer.key("end")?;
    write_position(writer, end)?;
    writer.end_object()?;
    Ok(())
}
