//! Diagnostics as JSON.
ghost use Rattle.std.specs.Prelude.{◌≡◌, ◌++◌, map, take, OnOk};
ghost use Rattle.json.specs.Tree.{json_tokens};
ghost use Rattle.text_json.specs.Listed.{member_tokens, value_tokens};
ghost use Rattle.engine_formats.specs.Diagnostics.{shown};
ghost use Rattle.lsp_answers.specs.Diagnostics.{diagnostic_range, diagnostic_value, diagnostic_values, place_of, tag_members};

use crate::message::said_of;
use crate::severity::{severity_number, tag_of};
use engine_formats::Diagnostic;
use json::Writer;
use lsp_messages::{Encoding, Position, units, write_range};
use std::alloc::{AllocError, Global};
use text_json::{write_number, write_told, write_word};

/// The first bytes of a line, all of them if there are fewer.
#[tactic(auto, using(std::proofs::lemmas::List::take_min))]
fn front(source: &[u8], size: usize) -> &[u8]
    ensures { result.now ≡ take size source.now }
{
    &source[..size.min(source.len())]
}

/// Where a column of a line is, both counted from 1 and the column in bytes.
fn place_of(encoding: Encoding, line: u32, column: u32, source: &[u8]) -> Position
    ensures { result ≡ place_of encoding line column source.now }
{
    let before = front(source, (column as usize).saturating_sub(1));
    Position {
        line: line.saturating_sub(1),
        character: units(encoding, before),
    }
}

/// Writes the place of a diagnostic as a range.
pub(crate) fn write_diagnostic_range(
    writer: &mut Writer,
    encoding: Encoding,
    diagnostic: &Diagnostic<'_>,
) -> Result<(), AllocError>
    ensures tokens { OnOk result (writer.new.tokens ≡ writer.old.tokens ++ json_tokens (diagnostic_range encoding (shown diagnostic.now))) }
    ensures before { OnOk result (writer.new.before ≡ writer.old.before) }
{
    let line = diagnostic.line;
    let start = place_of(encoding, line, diagnostic.column, diagnostic.source);
    let end = place_of(encoding, line, diagnostic.end, diagnostic.source);
    write_range(writer, start, end)?;
    Ok(())
}

/// Writes the member with a tag, if there is one.
fn write_tag(writer: &mut Writer, tag: Option<u32>) -> Result<(), AllocError>
    ensures tokens { OnOk result (writer.new.tokens ≡ writer.old.tokens ++ member_tokens (tag_members tag)) }
    ensures before { OnOk result (writer.new.before ≡ writer.old.before) }
{
    if let Some(tag) = tag {
        writer.key("tags")?;
        writer.begin_array()?;
        writer.u64(u64::from(tag))?;
        writer.end_array()?;
    }
    Ok(())
}

/// Writes a diagnostic.
#[tactic(auto, unfolding(crate::specs::Diagnostics::diagnostic_value))]
fn write_diagnostic(
    alloc: Global,
    writer: &mut Writer,
    encoding: Encoding,
    diagnostic: &Diagnostic<'_>,
) -> Result<(), AllocError>
    ensures tokens { OnOk result (writer.new.tokens ≡ writer.old.tokens ++ json_tokens (diagnostic_value encoding (shown diagnostic.now))) }
    ensures before { OnOk result (writer.new.before ≡ writer.old.before) }
{
    let remark = diagnostic.remark;
    let said = said_of(alloc, diagnostic)?;
    writer.begin_object()?;
    writer.key("range")?;
    write_diagnostic_range(writer, encoding, diagnostic)?;
    write_number(writer, "severity", severity_number(remark.severity()))?;
    write_told(alloc, writer, "code", remark.code())?;
    write_word(writer, "source", "devdry")?;
    write_told(alloc, writer, "message", &said)?;
    write_tag(writer, tag_of(remark))?;
    writer.end_object()?;
    Ok(())
}

/// Writes diagnostics one after another.
fn write_each(
    alloc: Global,
    writer: &mut Writer,
    encoding: Encoding,
    diagnostics: &[Diagnostic<'_>],
) -> Result<(), AllocError>
    ensures tokens { OnOk result (writer.new.tokens
        ≡ writer.old.tokens ++ value_tokens (map (diagnostic_value encoding) (map shown diagnostics.now))) }
    ensures before { OnOk result (writer.new.before ≡ writer.old.before) }
{
    for diagnostic in diagnostics {
        write_diagnostic(alloc, writer, encoding, diagnostic)?;
    }
    Ok(())
}

/// Writes diagnostics as an array.
pub(crate) fn write_diagnostics(
    alloc: Global,
    writer: &mut Writer,
    encoding: Encoding,
    diagnostics: &[Diagnostic<'_>],
) -> Result<(), AllocError>
    ensures tokens { OnOk result (writer.new.tokens ≡ writer.old.tokens ++ json_tokens (diagnostic_values encoding (map shown diagnostics.now))) }
    ensures before { OnOk result (writer.new.before ≡ writer.old.before) }
{
    writer.begin_array()?;
    write_each(alloc, writer, encoding, diagnostics)?;
    writer.end_array()?;
    Ok(())
}
