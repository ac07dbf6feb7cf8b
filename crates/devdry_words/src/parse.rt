//! Reads the words of a command line.
//!
//! `clap` decides which words it takes and what it says about others; here its matches become a request, and its
//! errors the faults that the program distinguishes by their status.
ghost use Rattle.std.specs.Prelude.{◌≡◌, ◌↔◌, ◌⊎◌, IsTrue, IfErr, IfOk, MatchResult, None, Ok, Err, [], map, string_bytes, true};
ghost use Rattle.clap.specs.Words.{fault_of, found_of, kind_of, rows_of, subcommand_of, subcommand_rows_of, takes};
ghost use Rattle.devdry_words.specs.Answers.{AnswersWords, AsksForHelp};
ghost use Rattle.devdry_words.specs.Commands.{devdry};
ghost use Rattle.devdry_words.specs.Named.{AnswersKind, AnswersMatches, AnswersSubcommand, IsSubcommandName, NamesSubcommand};
ghost use Rattle.devdry_words.specs.Refusals.{refusal_of};
ghost use Rattle.devdry_words.specs.Requests.{AsksFor, IsRequestOf};

use crate::commands::devdry_command;
use crate::refusals::{refusal_of, usage_of};
use crate::reporting::explained;
use crate::subcommands::{Subcommand, compare_request, files_request, run_request, subcommand_of};
use crate::values::text;
use clap::error::ErrorKind;
use clap::{ArgMatches, Error};
use engine_sessions::{LineFault, Request};
use std::alloc::{AllocError, Global};

/// Whether help or the version was asked for.
fn asks_for_help(kind: ErrorKind) -> bool
    ensures { IsTrue result ↔ AsksForHelp kind }
{
    matches!(kind, ErrorKind::DisplayHelp | ErrorKind::DisplayVersion)
}

/// The fault of an error of `clap`, with its text.
fn fault_from(alloc: Global, error: &Error) -> LineFault
    ensures memory { kind_of error.now ≡ ErrorKind.OutOfMemory → result ≡ LineFault.Memory }
    ensures kind { AnswersKind result (kind_of error.now) }
{
    if error.kind() == ErrorKind::OutOfMemory {
        return LineFault::Memory;
    }
    match error.to_string(alloc) {
        Ok(text) => {
            if asks_for_help(error.kind()) {
                LineFault::Help(text)
            } else {
                LineFault::Usage(text)
            }
        }
        Err(_) => LineFault::Memory,
    }
}

/// A request, with out of memory as a fault.
fn or_memory<'a>(request: Result<Request<'a>, AllocError>) -> Result<Request<'a>, LineFault>
    ensures { MatchResult request.entry (λ r. result ≡ Ok r) (λ _. result ≡ Err LineFault.Memory) }
{
    match request {
        Ok(request) => Ok(request),
        Err(_) => Err(LineFault::Memory),
    }
}

/// What the matches of a subcommand ask for if they are not refused.
fn taken<'a>(alloc: Global, name: &str, matches: &ArgMatches<'a>) -> Result<Request<'a>, LineFault>
    requires name { IsSubcommandName name.now }
    requires free { refusal_of name.now (rows_of (found_of matches.now)) ≡ None }
    ensures request { IfOk result (AsksFor name.now (rows_of (found_of matches.now))) }
    ensures fault { IfErr result (λ fault. (fault ≡ LineFault.Memory)
        ⊎ AnswersMatches name.now (rows_of (found_of matches.now)) fault) }
{
    match subcommand_of(name) {
        Subcommand::Run(verb) => or_memory(run_request(alloc, verb, matches)),
        Subcommand::Files => or_memory(files_request(alloc, matches)),
        Subcommand::Compare => or_memory(compare_request(alloc, matches)),
        Subcommand::Explain => Err(explained(alloc, text(matches, "CODE"))),
    }
}

/// What the matches, which name a subcommand, ask for, or why there is no request.
fn request_of<'a>(alloc: Global, matches: &ArgMatches<'a>) -> Result<Request<'a>, LineFault>
    requires { NamesSubcommand (subcommand_rows_of matches.now) }
    ensures request { IfOk result (IsRequestOf (subcommand_rows_of matches.now)) }
    ensures fault { IfErr result (λ fault. (fault ≡ LineFault.Memory)
        ⊎ AnswersSubcommand (subcommand_rows_of matches.now) fault) }
{
    let Some((name, inner)) = matches.subcommand() else {
        prove!(false);
        return Err(LineFault::Memory);
    };
    match refusal_of(name, inner) {
        Some(refusal) => Err(usage_of(alloc, refusal, inner)),
        None => taken(alloc, name, inner),
    }
}

/// Reads the words after the program's name.
///
/// The subcommands and their options are those of `systemd-hwdb(8)` and `udevadm(8)` as far as `devdry` has them,
/// and its own:
/// `verify [-r DIR] [--with FILE].. [--all] [--format FORMAT] [--color WHEN] [--ignore CODES].. [--no-summary]
/// [--no-style] [--lint] [--links] [--udev] [--users FILE] [--groups FILE] [FILE]..`,
/// `query [-r DIR] [--sources] [--index FILE] MODALIAS [FILE]..`,
/// `update [-r DIR] [-s] [--all] [--format FORMAT] [--color WHEN] [--ignore CODES].. [FILE]..`,
/// `events [-r DIR] [--with FILE].. [--all] [--format FORMAT] [--sources] [--why FILE[:LINE]].. [--unused] [--questions]
/// [--index FILE] [--udev] [FILE]..`, `files [-r DIR] [--with FILE]..`,
/// `compare [--with FILE].. [--all] [--format FORMAT] [--index FILE] [--udev] OLD NEW`, `fmt [--check] FILE..` and `explain CODE`. Each but
/// the last also takes `--options FILE`, of which nothing comes here: `options_in` finds the file, and `with_options` puts its
/// words before the others.
///
/// `LineFault::Help` comes for `--help`, `-h`, `help`, `--version` and `-V`, also after a
/// subcommand, and for `explain` with a code, whose text is then the section on its message.
/// `LineFault::Usage` comes for all else that `clap` does not take, no words at all among it; for a `query` with both
/// files and an index; for `--links` with `--with`, `--udev`, `--users`, `--groups` or `--strict`; for `--with` with
/// files, or with an index if it adds to the database, and for a path there that ends neither in `.rules` nor, but for
/// `verify`, in `.hwdb`; for `--questions` with `--sources`, `--why` or `--unused`; for `--format=json` with `--unused` or
/// `--questions`; for `--all`, `files` or `compare` with a root that is given and empty; for `--users` or `--groups`
/// without `--udev`; for a format that there is not, or in which `events` and `compare` do not answer; for colors that are
/// asked for in no known way; for a part of `--ignore` that is neither a code, nor the letter of a class, nor the
/// word `comments`; and for `explain` with a code that there is not.
pub fn parse_line<'a>(alloc: Global, words: &'a [String]) -> Result<Request<'a>, LineFault>
    // A request is that of the subcommand that the words name, with the values that they give, and nothing of them
    // is refused.
    ensures request { IfOk result (IsRequestOf (subcommand_of devdry (map string_bytes words.now))) }
    // There is no request for words that are at fault.
    ensures faultless { IfOk result (λ request. fault_of devdry (map string_bytes words.now) ≡ []) }
    // A fault answers what is wrong with the words, or what they ask for: help, or usage.
    ensures fault { IfErr result (AnswersWords (fault_of devdry (map string_bytes words.now))
        (subcommand_of devdry (map string_bytes words.now))) }
    // Words that `clap` takes are answered as words with no error of `clap`.
    ensures refusal { takes devdry (map string_bytes words.now) ≡ true
        → IfErr result (AnswersWords [] (subcommand_of devdry (map string_bytes words.now))) }
{
    let command = match devdry_command(alloc) {
        Ok(command) => command,
        Err(_) => return Err(LineFault::Memory),
    };
    match command.try_get_matches_from(words) {
        Ok(matches) => request_of(alloc, &matches),
        Err(error) => Err(fault_from(alloc, &error)),
    }
}
