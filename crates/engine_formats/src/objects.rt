//! Diagnostics as JSON, one object a line.
ghost use Rattle.std.specs.Prelude.{◌≡◌, ◌++◌, map, flat_map, IfOk, OnOk};
ghost use Rattle.json.specs.Tree.{json_tokens};
ghost use Rattle.engine_formats.specs.Diagnostics.{shown};
ghost use Rattle.engine_formats.specs.Json.{json_line, json_object};

use crate::diagnostic::Diagnostic;
use crate::json_members::write_text;
use json::Writer;
use std::alloc::{AllocError, Global};
use text_json::{write_number, write_word};

/// The lines of diagnostics, in the order given.
pub(crate) fn json_lines(
    alloc: Global,
    diagnostics: &[Diagnostic<'_>],
) -> Result<Vec<u8>, AllocError>
    ensures { IfOk result (λ text. text.items ≡ flat_map json_line (map shown diagnostics.now)) }
{
    let mut text = Vec::new(alloc);
    for diagnostic in diagnostics {
        text = with_json_line(alloc, text, diagnostic)?;
    }
    Ok(text)
}

/// A text with the line of a diagnostic after it.
#[tactic(auto, unfolding(crate::specs::Json::json_line))]
fn with_json_line(
    alloc: Global,
    text: Vec<u8>,
    diagnostic: &Diagnostic<'_>,
) -> Result<Vec<u8>, AllocError>
    ensures { IfOk result (λ longer. longer.items ≡ text.items ++ json_line (shown diagnostic.now)) }
{
    let mut writer = Writer::new(text);
    write_object(alloc, &mut writer, diagnostic)?;
    let mut longer = writer.into_inner();
    longer.push(b'\n')?;
    Ok(longer)
}

/// Writes the object of a diagnostic.
fn write_object(
    alloc: Global,
    writer: &mut Writer,
    diagnostic: &Diagnostic<'_>,
) -> Result<(), AllocError>
    ensures tokens { OnOk result (writer.new.tokens ≡ writer.old.tokens ++ json_tokens (json_object (shown diagnostic.now))) }
    ensures before { OnOk result (writer.new.before ≡ writer.old.before) }
{
    let remark = diagnostic.remark;
    writer.begin_object()?;
    write_text(alloc, writer, "path", diagnostic.path)?;
    write_number(writer, "line", diagnostic.line)?;
    write_number(writer, "column", diagnostic.column)?;
    write_number(writer, "end_column", diagnostic.end)?;
    write_text(alloc, writer, "code", remark.code())?;
    write_text(alloc, writer, "text", remark.text())?;
    write_text(alloc, writer, "word", diagnostic.word.as_slice())?;
    write_word(writer, "severity", remark.severity().word())?;
    writer.end_object()?;
    Ok(())
}
