//! Writing a report, or why there is none.
ghost use Rattle.std.specs.Prelude.{◌≡◌, ◌<◌, IfOk};
ghost use Rattle.engine_sessions.specs.Delivery.{Delivers, ReportsFailure, ReportsFaults, RunOutcome, out_of_memory};
ghost use Rattle.engine_reports.specs.Outcomes.{usage_error};
ghost use Rattle.engine_reports.specs.Reports.{IsReport, IsSaid};

use crate::indexes::deliver_index_fault;
use crate::refusal::Refusal;
use crate::report::Report;
use engine_sessions::{Sink, deliver, deliver_in_pieces, report_out_of_memory};

/// The line on files that hold more than a database may.
const TOO_MANY_ENTRIES: &[u8] = b"devdry: hwdb: too many\n";

/// The line on rules that have too many tokens.
const TOO_MANY_RULES: &[u8] = b"devdry: rules: too many\n";

/// Writes a report, or what there is to say if there is none, and returns the status, or 3 if a device failed. The
/// status of a report is under 3.
pub fn deliver_report<W: Sink, E: Sink>(
    report: Result<Report, Refusal>,
    output: &mut W,
    error: &mut E,
) -> u8
    requires { IfOk report (λ r. r.status < 3) }
    ensures delivers { (outcome : RunOutcome) → IsReport outcome report
        → Delivers outcome result
        (record { out = W.shown output.old; err = E.shown error.old })
        (record { out = W.shown output.new; err = E.shown error.new }) }
    ensures faults { ReportsFaults result
        (record { out = W.shown output.old; err = E.shown error.old })
        (record { out = W.shown output.new; err = E.shown error.new }) }
{
    match report {
        Ok(
            Report {
                output: answer,
                messages,
                status,
            },
        ) => deliver(&messages, &answer, status, output, error),
        Err(refusal) => deliver_refusal(refusal, output, error),
    }
}

/// Writes why there is nothing to say about the files, and returns the status: 1 if they hold more than they may or
/// the index is not one, 4 if memory ran out, or 3 if the error output failed.
pub fn deliver_refusal<W: Sink, E: Sink>(refusal: Refusal, output: &mut W, error: &mut E) -> u8
    ensures delivers { (outcome : RunOutcome) → IsSaid refusal outcome
        → Delivers outcome result
        (record { out = W.shown output.old; err = E.shown error.old })
        (record { out = W.shown output.new; err = E.shown error.new }) }
    ensures memory { refusal ≡ Refusal.Memory
        → ReportsFailure out_of_memory 4 result (E.shown error.old) (E.shown error.new) × (W.shown output.new ≡ W.shown output.old) }
    ensures faults { ReportsFaults result
        (record { out = W.shown output.old; err = E.shown error.old })
        (record { out = W.shown output.new; err = E.shown error.new }) }
{
    match refusal {
        Refusal::TooManyEntries => deliver(TOO_MANY_ENTRIES, b"", 1, output, error),
        Refusal::TooManyRules => deliver(TOO_MANY_RULES, b"", 1, output, error),
        Refusal::Index(fault) => deliver_index_fault(fault, output, error),
        Refusal::Memory => report_out_of_memory(error),
    }
}

/// Writes the messages and, after them, a line on something that a command line asks for and that is not there, and
/// returns the status for it: 2, or 3 if an output failed.
pub fn deliver_usage_error<W: Sink, E: Sink>(
    messages: &[u8],
    line: &[u8],
    output: &mut W,
    error: &mut E,
) -> u8
    ensures delivers { Delivers (usage_error messages.now line.now) result
        (record { out = W.shown output.old; err = E.shown error.old })
        (record { out = W.shown output.new; err = E.shown error.new }) }
    ensures faults { ReportsFaults result
        (record { out = W.shown output.old; err = E.shown error.old })
        (record { out = W.shown output.new; err = E.shown error.new }) }
{
    deliver_in_pieces(&[messages, line], b"", 2, output, error)
}
