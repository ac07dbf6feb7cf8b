//! The way from words to a status.
ghost use Rattle.std.specs.IoError.{error_kind};
ghost use Rattle.std.specs.Prelude.{◌≡◌, map, string_bytes};
ghost use Rattle.engine_sessions.specs.Delivery.{ReportsFailure, out_of_memory};
ghost use Rattle.devdry_lsp.specs.Runs.{RunsWords, no_text};

use crate::words::{Asked, asked_of};
use engine_sessions::{Sink, Source, deliver, report_failure, report_out_of_memory};
use lsp_server::{Server, serve_editor};
use std::alloc::Global;
use std::io::{self, ErrorKind};

/// The words are not understood.
const USAGE: u8 = 2;

const VERSION: &[u8] = b"devdry-lsp 0.1.0\n";

const HELP: &[u8] = b"A language server for udev rules and files of the hardware database

Usage: devdry-lsp [--stdio]

An editor starts it and speaks the Language Server Protocol 3.17 with it over the standard input and output.

Options:
      --stdio    Speak over the standard input and output, as it does anyway
  -h, --help     Print help
  -V, --version  Print version

Status: 0 after shutdown and exit, 1 without one of these, 2 for words that are not understood, 3 if the input or an
output fails, 4 if memory runs out.

See docs/editors.md for the set-up of editors, and devdry-lsp(1).
";

const UNKNOWN: &[u8] = b"error: devdry-lsp takes --stdio, --help or --version, or nothing

For more information, try '--help'.
";

const NOT_TEXT: &[u8] = b"error: an argument is not UTF-8

For more information, try '--help'.
";

/// Reports why the words could not be obtained: one of them is not UTF-8, or memory ran out.
pub(crate) fn report_arguments_fault<E: Sink>(fault: &io::Error, error: &mut E) -> u8
    ensures memory { error_kind fault.now ≡ ErrorKind.OutOfMemory
        → ReportsFailure out_of_memory 4 result (E.shown error.old) (E.shown error.new) }
    ensures no_text { (error_kind fault.now ≡ ErrorKind.OutOfMemory → ⊥)
        → ReportsFailure no_text 2 result (E.shown error.old) (E.shown error.new) }
{
    match fault.kind() {
        ErrorKind::OutOfMemory => report_out_of_memory(error),
        _ => report_failure(error, NOT_TEXT, USAGE),
    }
}

/// Does what words ask for, and returns the status to exit with: without words a client is served, help and the version go to
/// `output` with status 0, and other words are reported on `error` with status 2.
pub(crate) fn run_words<I: Source, W: Sink, E: Sink>(
    alloc: Global,
    words: &[String],
    input: &mut I,
    output: &mut W,
    error: &mut E,
) -> u8
    ensures { RunsWords (map string_bytes words.now) result
        (record { input = I.shown input.old; out = W.shown output.old; err = E.shown error.old })
        (record { input = I.shown input.new; out = W.shown output.new; err = E.shown error.new }) }
{
    match asked_of(words) {
        Asked::Serve => serve_editor(alloc, b"", &mut Server::new(alloc), input, output, error),
        Asked::Help => deliver(b"", HELP, 0, output, error),
        Asked::Version => deliver(b"", VERSION, 0, output, error),
        Asked::Unknown => report_failure(error, UNKNOWN, USAGE),
    }
}
