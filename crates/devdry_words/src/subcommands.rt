//! The subcommands by their names, and what each of them asks for.
ghost use Rattle.std.specs.Prelude.{◌≡◌, IfOk, MatchResult, codes, map};
ghost use Rattle.clap.specs.Words.{found_of, rows_of};
ghost use Rattle.devdry_words.specs.Lines.{name_of};
ghost use Rattle.devdry_words.specs.Named.{IsSubcommandName};
ghost use Rattle.devdry_words.specs.Requests.{AsksFor, side_files, side_root, subcommand_name};

use crate::line_reading::line_with;
use crate::piped::files_of;
use crate::values::{is_given, text, texts};
use clap::ArgMatches;
use engine_sessions::{Request, Verb};
use std::alloc::{AllocError, Global};

/// A subcommand.
#[derive(Clone, Copy, PartialEq, Eq)]
pub(crate) enum Subcommand {
    /// One that is run over the files that it reads.
    Run(Verb),
    /// `files`.
    Files,
    /// `compare`.
    Compare,
    /// `explain`.
    Explain,
}

/// The subcommand with a name.
pub(crate) fn subcommand_of(name: &str) -> Subcommand
    requires { IsSubcommandName name.now }
    ensures { subcommand_name result ≡ name.now }
{
    match name {
        "verify" => Subcommand::Run(Verb::Verify),
        "query" => Subcommand::Run(Verb::Query),
        "update" => Subcommand::Run(Verb::Update),
        "events" => Subcommand::Run(Verb::Events),
        "fmt" => Subcommand::Run(Verb::Mend),
        "files" => Subcommand::Files,
        "compare" => Subcommand::Compare,
        _ => Subcommand::Explain,
    }
}

/// What a subcommand that is run asks for with these matches.
pub(crate) fn run_request<'a>(
    alloc: Global,
    verb: Verb,
    matches: &ArgMatches<'a>,
) -> Result<Request<'a>, AllocError>
    ensures { IfOk result (AsksFor (name_of verb) (rows_of (found_of matches.now))) }
{
    let root = text(matches, "root");
    let added = texts(alloc, matches, "with")?;
    let files = files_of(alloc, matches)?;
    Ok(Request::Run(line_with(alloc, verb, root, added, files, matches)?))
}

/// What `files` asks for with these matches.
pub(crate) fn files_request<'a>(
    alloc: Global,
    matches: &ArgMatches<'a>,
) -> Result<Request<'a>, AllocError>
    ensures { IfOk result (AsksFor (codes "files") (rows_of (found_of matches.now))) }
{
    let root = text(matches, "root");
    let added = texts(alloc, matches, "with")?;
    let files = files_of(alloc, matches)?;
    let line = line_with(alloc, Verb::Events, root, added, files, matches)?;
    Ok(Request::Files(line))
}

/// The root of a side of `compare`: what is named, or none where rules are compared.
fn side_root<'a>(id: &str, matches: &ArgMatches<'a>) -> &'a str
    ensures { result.now ≡ side_root id.now (rows_of (found_of matches.now)) }
{
    if is_given(matches, "rules") {
        ""
    } else {
        text(matches, id)
    }
}

/// The files of a side of `compare`: what is named where rules are compared, or none.
fn side_files<'a>(
    alloc: Global,
    id: &str,
    matches: &ArgMatches<'a>,
) -> Result<Vec<&'a str>, AllocError>
    ensures { IfOk result (λ files. map (λ f. f.now) files.items ≡ side_files id.now (rows_of (found_of matches.now))) }
{
    let mut files = Vec::new(alloc);
    if is_given(matches, "rules") {
        files.push(text(matches, id))?;
    }
    Ok(files)
}

/// What `compare` asks for with these matches: files are added to those of the new root alone.
pub(crate) fn compare_request<'a>(
    alloc: Global,
    matches: &ArgMatches<'a>,
) -> Result<Request<'a>, AllocError>
    ensures { IfOk result (AsksFor (codes "compare") (rows_of (found_of matches.now))) }
{
    let (old, new) = (side_root("OLD", matches), side_root("NEW", matches));
    let old_files = side_files(alloc, "OLD", matches)?;
    let new_files = side_files(alloc, "NEW", matches)?;
    let added = texts(alloc, matches, "with")?;
    let none = Vec::new(alloc);
    let before = line_with(alloc, Verb::Events, old, none, old_files, matches)?;
    let after = line_with(alloc, Verb::Events, new, added, new_files, matches)?;
    Ok(Request::Compare(before, after))
}
