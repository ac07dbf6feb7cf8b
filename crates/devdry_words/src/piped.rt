//! The standard input as a file: `-`, and the name that `--stdin-name` gives it.
ghost use Rattle.std.specs.List.{list_any};
ghost use Rattle.std.specs.Prelude.{◌≡◌, IfOk, codes, false, map};
ghost use Rattle.std.specs.Str.{bytes_eq};
ghost use Rattle.clap.specs.Words.{found_of, rows_of, rule_of};
ghost use Rattle.devdry_words.specs.Commands.{option_rule};
ghost use Rattle.devdry_words.specs.Lines.{file_named, files_of, input_name_of, is_input};
ghost use Rattle.devdry_words.specs.Refusals.{compares_input, lacks_input, names_input, reads_twice};

use crate::values::{every_value, is_given, text, texts, value};
use clap::{Arg, ArgMatches};
use std::alloc::{AllocError, Global};

/// `--stdin-name PATH`, the name of the standard input as a file.
pub(crate) fn input_name_option<'a>(alloc: Global) -> Arg<'a>
    ensures { (rule_of result ≡ option_rule (codes "stdin-name")) × (result.global ≡ false) }
{
    Arg::new(alloc, "stdin-name")
        .long("stdin-name")
        .value_name("PATH")
        .help("Name of the standard input, which is the FILE -")
}

/// The name of the standard input as a file, `-` if matches give it none.
pub(crate) fn input_name_of<'a>(matches: &ArgMatches<'a>) -> &'a str
    ensures { result.now ≡ input_name_of (rows_of (found_of matches.now)) }
{
    match value(matches, "stdin-name") {
        Some(name) => name,
        None => "-",
    }
}

/// Whether a FILE is the standard input.
fn is_input(file: &str) -> bool
    ensures { result ≡ is_input file.now }
{
    file == "-"
}

/// A FILE by its name: that of the standard input is given to it.
fn file_named<'a>(input_name: &'a str, file: &'a str) -> &'a str
    ensures { result.now ≡ file_named input_name.entry.now file.entry.now }
{
    if is_input(file) { input_name } else { file }
}

/// Files by their names.
fn files_named<'a>(
    alloc: Global,
    input_name: &'a str,
    files: &[&'a str],
) -> Result<Vec<&'a str>, AllocError>
    ensures { IfOk result (λ named. map (λ f. f.now) named.items ≡ map (file_named input_name.entry.now) (map (λ f. f.now) files.now)) }
{
    let mut named = Vec::with_capacity(alloc, files.len())?;
    for file in files {
        named.push(file_named(input_name, file))?;
    }
    Ok(named)
}

/// The files that matches name, each by its name.
pub(crate) fn files_of<'a>(
    alloc: Global,
    matches: &ArgMatches<'a>,
) -> Result<Vec<&'a str>, AllocError>
    ensures { IfOk result (λ files. map (λ f. f.now) files.items ≡ files_of (rows_of (found_of matches.now))) }
{
    let files = texts(alloc, matches, "FILE")?;
    files_named(alloc, input_name_of(matches), &files)
}

/// Whether one of these files is the standard input, as it stands among them.
fn has_input(files: &[&str]) -> bool
    ensures { result ≡ list_any (λ f. is_input f.now) files.now }
{
    files.iter().any(|file| is_input(file))
}

/// Whether one of these files is the standard input.
fn has_input_among(files: &[&str]) -> bool
    ensures { result ≡ list_any is_input (map (λ f. f.now) files.now) }
{
    has_input(files)
}

/// Whether matches name the standard input as a file.
fn names_input(matches: &ArgMatches<'_>) -> bool
    ensures { result ≡ names_input (rows_of (found_of matches.now)) }
{
    match every_value(matches, "FILE") {
        Some(files) => has_input_among(files),
        None => false,
    }
}

/// Whether matches name the standard input as one of the rules files that `compare` compares.
fn compares_input(matches: &ArgMatches<'_>) -> bool
    ensures { result ≡ compares_input (rows_of (found_of matches.now)) }
{
    is_given(matches, "rules") & (is_input(text(matches, "OLD")) | is_input(text(matches, "NEW")))
}

/// Whether the matches of a subcommand name the standard input as a file, and read something else from it.
pub(crate) fn reads_twice(name: &str, matches: &ArgMatches<'_>) -> bool
    ensures { result ≡ reads_twice name.now (rows_of (found_of matches.now)) }
{
    (names_input(matches) & ((name == "events") | is_input(text(matches, "MODALIAS"))))
        | compares_input(matches)
}

/// Whether matches give the standard input a name, and do not name it as a file.
pub(crate) fn lacks_input(matches: &ArgMatches<'_>) -> bool
    ensures { result ≡ lacks_input (rows_of (found_of matches.now)) }
{
    value(matches, "stdin-name").is_some() & !names_input(matches)
}
