//! The language server as a program.
//!
//! This crate connects the server of `lsp_server` with the standard streams, and answers `--help` and `--version`. It opens
//! no file: documents come from the client.
#![tactic(auto)]

ghost use Rattle.std.specs.Prelude.{◌≡◌, drop};

mod running;
mod words;

use crate::running::{report_arguments_fault, run_words};
use devdry_files::Again;
use engine_sessions::{SinkOver, SourceOver};
use std::process::ExitCode;
use std::rt::Env;
use std::{env, io};

// The words of a command line after the first, which is the program's name.
fn words_of(mut all: Vec<String>) -> Vec<String>
    ensures { result.items ≡ drop 1 all.items }
{
    if !all.is_empty() {
        all.remove(0);
    }
    all
}

// The words after the program's name.
fn arguments<R: Env + AllocGlobal>(rt: &R) -> io::Result<Vec<String>> {
    Ok(words_of(env::args(rt)?.collect(rt.alloc())?))
}

fn main(rt: HostRuntime) -> ExitCode {
    let mut input = SourceOver::new(Again::new(rt.stdin()));
    let mut output = SinkOver::new(Again::new(rt.stdout()));
    let mut error = SinkOver::new(Again::new(rt.stderr()));
    let status = match arguments(&rt) {
        Ok(words) => run_words(rt.alloc(), &words, &mut input, &mut output, &mut error),
        Err(fault) => report_arguments_fault(&fault, &mut error),
    };
    ExitCode::from(status)
}
