//! What is found in a file, as diagnostics.
ghost use Rattle.std.specs.Prelude.{◌≡◌, map, IfOk};
ghost use Rattle.engine_formats.specs.Diagnostics.{shown};
ghost use Rattle.engine_checks.specs.Files.{database_diagnostic, rule_diagnostic};

use crate::file_text::FileText;
use engine_formats::{Diagnostic, placed_message};
use file_catalogue::Remark;
use file_messages::{Message, MessageKind};
use rule_places::PlacedFinding;
use std::alloc::{AllocError, Global};
use text_bytes::Bytes;

/// A finding of a rules file as a diagnostic.
fn rule_diagnostic<'r>(
    file: &'r FileText<'_>,
    finding: PlacedFinding<MessageKind>,
) -> Diagnostic<'r>
    ensures { shown result ≡ rule_diagnostic file.now finding }
{
    Diagnostic {
        name: file.name(),
        path: file.path(),
        source: file.line(finding.line),
        begins: finding.begins,
        line: finding.line,
        column: finding.column,
        end: finding.end,
        remark: Remark::Message(finding.kind),
        word: finding.word,
    }
}

/// Findings of a rules file as diagnostics.
pub(crate) fn rule_diagnostics<'r>(
    alloc: Global,
    file: &'r FileText<'_>,
    findings: Vec<PlacedFinding<MessageKind>>,
) -> Result<Vec<Diagnostic<'r>>, AllocError>
    ensures { IfOk result (λ found. map shown found.items ≡ map (rule_diagnostic file.now) findings.items) }
{
    let mut found = Vec::with_capacity(alloc, findings.len())?;
    for finding in findings {
        found.push(rule_diagnostic(file, finding))?;
    }
    Ok(found)
}

/// A message about a database as a diagnostic.
fn database_diagnostic<'r>(
    alloc: Global,
    file: &'r FileText<'_>,
    message: &Message,
) -> Result<Diagnostic<'r>, AllocError>
    ensures { IfOk result (λ d. shown d ≡ database_diagnostic file.now message.now) }
{
    let place = placed_message(file.lines(), message);
    Ok(Diagnostic {
        name: file.name(),
        path: file.path(),
        source: place.source,
        begins: message.line,
        line: message.line,
        column: place.column,
        end: place.end,
        remark: Remark::Message(message.kind),
        word: Bytes::copy_of(alloc, place.word)?,
    })
}

/// Messages about a file of a database as diagnostics.
pub(crate) fn database_diagnostics<'r>(
    alloc: Global,
    file: &'r FileText<'_>,
    messages: &[Message],
) -> Result<Vec<Diagnostic<'r>>, AllocError>
    ensures { IfOk result (λ found. map shown found.items ≡ map (database_diagnostic file.now) messages.now) }
{
    let mut found = Vec::with_capacity(alloc, messages.len())?;
    for message in messages {
        found.push(database_diagnostic(alloc, file, message)?)?;
    }
    Ok(found)
}
