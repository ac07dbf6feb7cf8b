//! Runs what was gathered.
ghost use Rattle.std.specs.IoError.{error_kind};
ghost use Rattle.std.specs.Prelude.{◌≡◌, List, map, option_map, string_bytes};
ghost use Rattle.text_bytes.specs.Text.{Text};
ghost use Rattle.engine_sessions.specs.Delivery.{ReportsFailure, out_of_memory};
ghost use Rattle.devdry_gathering.specs.Words.{AreWords};
ghost use Rattle.devdry.specs.Runs.{Does, Runs, RunsGathered, not_text};

use devdry_files::Disk;
use devdry_gathering::{Ended, Gathered, Inputs, Terminals, Work, all_words, gather};
use engine_checks::serve_links;
use engine_core::{serve, serve_compare};
use engine_sessions::{
    DeviceFault, Sink, Source, deliver, hand_on, report_failure, report_out_of_memory,
};
use std::alloc::Global;
use std::io::{self, ErrorKind};
use text_bytes::Bytes;

const NOT_TEXT: &[u8] = b"error: an argument is not UTF-8

For more information, try '--help'.
";

/// Reports why the words could not be obtained: one of them is not UTF-8, or memory ran out.
pub(crate) fn report_arguments_fault<E: Sink>(fault: &io::Error, error: &mut E) -> u8
    ensures memory { error_kind fault.now ≡ ErrorKind.OutOfMemory
        → ReportsFailure out_of_memory 4 result (E.shown error.old) (E.shown error.new) }
    ensures no_text { (error_kind fault.now ≡ ErrorKind.OutOfMemory → ⊥)
        → ReportsFailure not_text 2 result (E.shown error.old) (E.shown error.new) }
{
    match fault.kind() {
        ErrorKind::OutOfMemory => report_out_of_memory(error),
        _ => report_failure(error, NOT_TEXT, 2),
    }
}

/// The bytes of an index, if there is one.
fn bytes_of(index: &Option<Bytes>) -> Option<&[u8]>
    ensures { option_map (λ bytes. bytes.now) result ≡ index.now }
{
    index.as_ref().map(Bytes::as_slice)
}

/// Does the work that is left, and returns its status.
fn do_work<I: Source, W: Sink, E: Sink>(
    alloc: Global,
    work: Work<'_>,
    input: &mut I,
    output: &mut W,
    error: &mut E,
) -> u8
    ensures { Does work.entry result
        (record { input = I.shown input.old; out = W.shown output.old; err = E.shown error.old })
        (record { input = I.shown input.new; out = W.shown output.new; err = E.shown error.new }) }
{
    match work {
        Work::Nothing => 0,
        Work::Tell(text) => deliver(b"", text.as_slice(), 0, output, error),
        Work::CheckLinks(line, files) => serve_links(alloc, &line, &files, output, error),
        Work::Answer(inputs) => {
            let Inputs {
                line,
                files,
                index,
                found,
            } = inputs;
            let index = bytes_of(&index);
            serve(alloc, &line, files, &found, index, input, output, error)
        }
        Work::Compare(old, new) => {
            let (old_files, new_files) = (old.files, new.files);
            let index = bytes_of(&new.index);
            serve_compare(
                alloc, &old.line, &new.line, old_files, new_files, &old.found, &new.found, index,
                input, output, error,
            )
        }
    }
}

/// Writes what is reported, and then does the work that is left. The status is at least the one that was gathered.
fn run<I: Source, W: Sink, E: Sink>(
    alloc: Global,
    gathered: Gathered<'_>,
    input: &mut I,
    output: &mut W,
    error: &mut E,
) -> u8
    ensures { RunsGathered gathered.entry result
        (record { input = I.shown input.old; out = W.shown output.old; err = E.shown error.old })
        (record { input = I.shown input.new; out = W.shown output.new; err = E.shown error.new }) }
{
    let Gathered { work, report } = gathered;
    match hand_on(error, &report.lines) {
        Ok(()) => {
            let own = do_work(alloc, work, input, output, error);
            own.max(report.least)
        }
        Err(DeviceFault) => 3,
    }
}

/// Runs all words of a command line, of which some may come from a file of options that the given ones name.
fn run_all<D: Disk, I: Source, W: Sink, E: Sink>(
    alloc: Global,
    disk: &D,
    words: &[String],
    terminals: Terminals,
    input: &mut I,
    output: &mut W,
    error: &mut E,
) -> u8
    ensures { (given : List Text) → AreWords (D.may_answer disk.now) given (map string_bytes words.now)
        → Runs terminals (D.may_answer disk.now) given result
        (record { input = I.shown input.old; out = W.shown output.old; err = E.shown error.old })
        (record { input = I.shown input.new; out = W.shown output.new; err = E.shown error.new }) }
{
    match gather(alloc, disk, words, terminals, input) {
        Ok(gathered) => run(alloc, gathered, input, output, error),
        Err(_) => report_out_of_memory(error),
    }
}

/// Runs the words that follow the program's name, and returns the status to exit with.
pub(crate) fn run_words<D: Disk, I: Source, W: Sink, E: Sink>(
    alloc: Global,
    disk: &D,
    words: Vec<String>,
    terminals: Terminals,
    input: &mut I,
    output: &mut W,
    error: &mut E,
) -> u8
    ensures { Runs terminals (D.may_answer disk.now) (map string_bytes words.items) result
        (record { input = I.shown input.old; out = W.shown output.old; err = E.shown error.old })
        (record { input = I.shown input.new; out = W.shown output.new; err = E.shown error.new }) }
{
    match all_words(alloc, disk, words) {
        Ok(all) => run_all(alloc, disk, &all, terminals, input, output, error),
        Err(Ended::Said(report)) => {
            let work = Work::Nothing;
            run(alloc, Gathered { work, report }, input, output, error)
        }
        Err(Ended::Memory) => report_out_of_memory(error),
    }
}
