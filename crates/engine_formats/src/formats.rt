//! The formats that diagnostics can be written in.
ghost use Rattle.std.specs.Prelude.{◌≡◌, map, IfOk};
ghost use Rattle.engine_formats.specs.Diagnostics.{shown};
ghost use Rattle.engine_formats.specs.Formats.{formatted, is_report};

use crate::diagnostic::Diagnostic;
use crate::gcc::gcc_lines;
use crate::github::github_lines;
use crate::gitlab::gitlab_report;
use crate::human::human_lines;
use crate::objects::json_lines;
use crate::plain::plain_lines;
use crate::sarif::sarif_log;
use engine_sessions::Format;
use file_catalogue::remarks;
use std::alloc::{AllocError, Global};

/// Diagnostics in a format, in the order given.
pub fn formatted(
    alloc: Global,
    format: Format,
    diagnostics: &[Diagnostic<'_>],
) -> Result<Vec<u8>, AllocError>
    ensures { IfOk result (λ text. text.items ≡ formatted format (map shown diagnostics.now)) }
{
    match format {
        Format::Plain => plain_lines(alloc, diagnostics),
        Format::Gcc => gcc_lines(alloc, diagnostics),
        Format::Github => github_lines(alloc, diagnostics),
        Format::Gitlab => gitlab_report(alloc, diagnostics),
        Format::Json => json_lines(alloc, diagnostics),
        Format::Sarif => sarif_log(alloc, &remarks(alloc)?, diagnostics),
        Format::Human => human_lines(alloc, false, diagnostics),
        Format::HumanInColor => human_lines(alloc, true, diagnostics),
    }
}

/// Whether a format is a report for programs, which goes to the standard output, alone.
pub fn is_report(format: Format) -> bool
    ensures { result ≡ is_report format }
{
    match format {
        Format::Gitlab | Format::Json | Format::Sarif => true,
        _ => false,
    }
}
