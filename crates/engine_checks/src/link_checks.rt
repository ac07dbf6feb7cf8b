//! What `verify --links` says.
ghost use Rattle.std.specs.Prelude.{◌≡◌, ◌<◌, IfErr, IfOk};
ghost use Rattle.engine_sessions.specs.Delivery.{Delivers, ReportsFaults};
ghost use Rattle.engine_reports.specs.Reports.{IsSaid, said};
ghost use Rattle.engine_checks.specs.Links.{links_outcome};

use crate::asked::asked_by;
use crate::checks::report_on_reported;
use crate::link_faults::links_reported;
use crate::reads::read_links;
use engine_reports::{Refusal, Report, deliver_report};
use engine_sessions::{Line, Sink};
use std::alloc::Global;
use text_bytes::SourceFile;

/// What `verify --links` says about `.link` files and drop-ins, with the line's format and without the messages that it
/// ignores: what is reported for each, and how many of them are bad. A drop-in counts for the file among these whose name its
/// own begins with.
///
/// `Memory` comes if memory runs out.
#[tactic(auto, unfolding(crate::specs::Links::links_outcome))]
pub fn report_on_links(
    alloc: Global,
    line: &Line<'_>,
    files: &[SourceFile],
) -> Result<Report, Refusal>
    ensures said { IfOk result (λ r. said r ≡ links_outcome line.now files.now) }
    ensures status { IfOk result (λ r. r.status < 3) }
    ensures refused { IfErr result (λ e. IsSaid e (links_outcome line.now files.now)) }
{
    let asked = asked_by(alloc, line)?;
    let reads = read_links(alloc, line, files)?;
    let reported = links_reported(alloc, &asked, files, &reads)?;
    let report = report_on_reported(alloc, line, files, &reported)?;
    Ok(report)
}

/// Writes what `verify --links` says about files, and returns the status: 1 if one of them is bad, 3 if an output failed, 4 if
/// memory ran out, and 0 otherwise.
pub fn serve_links<W: Sink, E: Sink>(
    alloc: Global,
    line: &Line<'_>,
    files: &[SourceFile],
    output: &mut W,
    error: &mut E,
) -> u8
    ensures delivers { Delivers (links_outcome line.now files.now) result
        (record { out = W.shown output.old; err = E.shown error.old })
        (record { out = W.shown output.new; err = E.shown error.new }) }
    ensures faults { ReportsFaults result
        (record { out = W.shown output.old; err = E.shown error.old })
        (record { out = W.shown output.new; err = E.shown error.new }) }
{
    deliver_report(report_on_links(alloc, line, files), output, error)
}
