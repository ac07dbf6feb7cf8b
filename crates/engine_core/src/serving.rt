//! The whole run.
ghost use Rattle.std.specs.Prelude.{◌≡◌, false, option_map};
ghost use Rattle.engine_core.specs.Outcomes.{before_input, reads_modaliases};
ghost use Rattle.engine_core.specs.Runs.{RunsBy, RunsOver};

use crate::events::serve_events;
use crate::mending::report_on_mending;
use builtin_devices::RootFiles;
use engine_checks::{report_on_update, report_on_verify};
use engine_reports::{deliver_report, open_index, report_on_query, serve_lookups};
use engine_sessions::{Line, Sink, Source, Verb};
use std::alloc::Global;
use text_bytes::SourceFile;
use trie_build::{Index, IndexFault};

/// Runs a command over files that were read, writes what it says, and returns the status to exit with.
///
/// Messages about the files go to `error`, for `verify` and `update` in the format of `line` and without those that
/// it ignores, for `verify` with lints if `line` asks for them. The answer goes to `output`:
///
/// - for `query` the lines of the properties, as systemd-hwdb(8) gives them; if its modalias is `-`, those lines and
///   an empty one for each line of `input`, written and flushed before the next read;
/// - for `update` the index of the database, whether there are messages or not;
/// - for `verify`, as in udevadm(8), how many files are bad;
/// - for `fmt` the files with their style mended, one after another, or the names of those that this would change;
/// - for `events` the answer to each block of `input`, written and flushed before the next read. If `line` asks for
///   that, the rule that it comes from is before each line, and what rules met is after the lines. If it asks for
///   questions, the commands that the rules ask for and the block does not answer are there instead.
///
/// If `line` names files of the kind that the command reads, those passed in are read in their order, and otherwise
/// those whose names end in `.hwdb` or `.rules`, of each name the one of least rank, sorted by name. `verify` and
/// `events` read rules, and `events` evaluates them, by the profile of `line`; what IMPORT{file} takes as udev does is in
/// `found`, by the paths of files in the root. If `index` is passed in, `query` and `events` answer from it and read no
/// file of the database. Only `events`, and `query` with the modalias `-`, look at the input.
///
/// The status is 0; 1 if `update` is strict and there is a message, if `verify` finds a bad file, if `fmt` only lists
/// files and there is one to list, if a block is faulty, if a line of modaliases is too long, if the files hold more
/// than they may, or if `query` or `events` is passed an index that fails a check; 2 if a text of `why` asks for neither
/// a rule nor a message's place, and then no input is read; 3 if the input or an output failed, or the input did not end
/// within 2^48 reads, and only then; 4 if memory ran out. Under 3 all was written and flushed.
pub fn serve<R: Source, W: Sink, E: Sink>(
    alloc: Global,
    line: &Line<'_>,
    files: Vec<SourceFile>,
    found: &RootFiles,
    index: Option<&[u8]>,
    input: &mut R,
    output: &mut W,
    error: &mut E,
) -> u8
    // What is written and answered is one function of the line, the files, what was found at paths of the root, the index
    // and the input, also step by step.
    ensures runs { RunsOver line.now files.items found.now (option_map (λ bytes. bytes.now) index.entry) result
        (record { input = R.shown input.old; out = W.shown output.old; err = E.shown error.old })
        (record { input = R.shown input.new; out = W.shown output.new; err = E.shown error.new }) }
    ensures untouched { (line.now.verb ≡ Verb.Events → ⊥) → reads_modaliases line.now ≡ false → input.new ≡ input.old }
{
    let opened = open_index(index);
    if reads_modaliases(line) {
        return serve_lookups(alloc, line, files, opened, input, output, error);
    }
    serve_verb(alloc, line, files, found, opened, input, output, error)
}

/// Whether a line looks up the modaliases that its input has.
fn reads_modaliases(line: &Line<'_>) -> bool
    ensures { result ≡ reads_modaliases line.now }
{
    line.verb == Verb::Query && line.modalias == "-"
}

/// A run that looks up no modaliases of its input, by the outcome of opening the index.
fn serve_verb<R: Source, W: Sink, E: Sink>(
    alloc: Global,
    line: &Line<'_>,
    files: Vec<SourceFile>,
    found: &RootFiles,
    opened: Option<Result<Index<'_>, IndexFault>>,
    input: &mut R,
    output: &mut W,
    error: &mut E,
) -> u8
    ensures runs { RunsBy line.now found.now (before_input line.now.verb line.now files.items opened.entry) result
        (record { input = R.shown input.old; out = W.shown output.old; err = E.shown error.old })
        (record { input = R.shown input.new; out = W.shown output.new; err = E.shown error.new }) }
    ensures untouched { (line.now.verb ≡ Verb.Events → ⊥) → input.new ≡ input.old }
{
    match line.verb {
        Verb::Query => deliver_report(report_on_query(alloc, line, files, opened), output, error),
        Verb::Update => deliver_report(report_on_update(alloc, line, files), output, error),
        Verb::Verify => deliver_report(report_on_verify(alloc, line, files), output, error),
        Verb::Mend => deliver_report(report_on_mending(alloc, line, files), output, error),
        Verb::Events => serve_events(alloc, line, files, found, opened, input, output, error),
    }
}
