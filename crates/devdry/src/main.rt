//! The program.
//!
//! `devdry_gathering` reads the words and all that they ask for; this crate writes what is reported on that, and then does the work
//! that is left. Everything is done by functions over a disk, a source and sinks; `main` passes the real ones.
#![tactic(auto)]

ghost use Rattle.std.specs.Prelude.{◌≡◌, drop};

mod running;

use crate::running::{report_arguments_fault, run_words};
use devdry_files::{Again, RealDisk, RealSystem};
use devdry_gathering::Terminals;
use engine_sessions::{SinkOver, SourceOver};
use std::env::{self, VarError};
use std::io::{self, IsTerminal};
use std::process::ExitCode;
use std::rt::Env;

// The words of a command line after the first, which is the program's name.
fn words_of(mut all: Vec<String>) -> Vec<String>
    ensures { result.items ≡ drop 1 all.items }
{
    if !all.is_empty() {
        all.remove(0);
    }
    all
}

// The words after the program's name.
fn arguments<R: Env + AllocGlobal>(rt: &R) -> io::Result<Vec<String>> {
    Ok(words_of(env::args(rt)?.collect(rt.alloc())?))
}

// Whether the environment refuses colors: `NO_COLOR` has a text.
fn refuses_colors<R: Env + AllocGlobal>(rt: &R) -> bool {
    match env::var(rt, "NO_COLOR") {
        Ok(text) => !text.is_empty(),
        Err(VarError::NotPresent) => false,
        Err(_) => true,
    }
}

fn main(rt: HostRuntime) -> ExitCode {
    let terminals = Terminals {
        input: rt.stdin().is_terminal(),
        colors: rt.stderr().is_terminal() && !refuses_colors(&rt),
    };
    let mut input = SourceOver::new(Again::new(rt.stdin()));
    let mut output = SinkOver::new(Again::new(rt.stdout()));
    let mut error = SinkOver::new(Again::new(rt.stderr()));
    let disk = RealDisk::new(RealSystem::new(&rt));
    let status = match arguments(&rt) {
        Ok(words) => run_words(
            rt.alloc(),
            &disk,
            words,
            terminals,
            &mut input,
            &mut output,
            &mut error,
        ),
        Err(fault) => report_arguments_fault(&fault, &mut error),
    };
    ExitCode::from(status)
}
