//! What is said in a format.
ghost use Rattle.std.specs.Prelude.{◌≡◌};
ghost use Rattle.engine_checks.specs.Outcomes.{in_format};
ghost use Rattle.engine_reports.specs.Reports.{said};

use engine_formats::is_report;
use engine_reports::Report;
use engine_sessions::Format;
use std::alloc::Global;

/// What is said in a format: a report for programs is all of the output, and there are no messages.
pub(crate) fn in_format(alloc: Global, format: Format, report: Report) -> Report
    ensures said { said result ≡ in_format format (said report) }
    ensures status { result.status ≡ report.status }
{
    if !is_report(format) {
        return report;
    }
    let Report {
        messages,
        status,
        ..
    } = report;
    Report {
        output: messages,
        messages: Vec::new(alloc),
        status,
    }
}
