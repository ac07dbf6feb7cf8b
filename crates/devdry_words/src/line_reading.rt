//! The line that the matches of a parse mean.
ghost use Rattle.std.specs.Prelude.{◌≡◌, [], IfOk, map};
ghost use Rattle.clap.specs.Words.{first_of, found_of, rows_of};
ghost use Rattle.devdry_words.specs.Lines.{IsUnreadFile, Reads, account_path, asks_every, color_named, color_of, format_named, format_of};
ghost use Rattle.devdry_words.specs.Lines.{asks_all_of, is_set_or_every, profile_of};

use crate::ignored::ignored_codes;
use crate::piped::input_name_of;
use crate::values::{is_given, text, texts, value};
use clap::ArgMatches;
use engine_sessions::{AccountFile, Color, Format, Line, Verb};
use std::alloc::{AllocError, Global};
use text_bytes::{Bytes, Profile};

/// The format with a name, if there is one.
fn format_named(name: &str) -> Option<Format>
    ensures { result ≡ format_named name.now }
{
    match name {
        "plain" => Some(Format::Plain),
        "gcc" => Some(Format::Gcc),
        "github" => Some(Format::Github),
        "gitlab" => Some(Format::Gitlab),
        "json" => Some(Format::Json),
        "sarif" => Some(Format::Sarif),
        "human" => Some(Format::Human),
        _ => None,
    }
}

/// The format that matches ask for, plain if they ask for none; `None` if the name is unknown.
pub(crate) fn format_of(matches: &ArgMatches<'_>) -> Option<Format>
    ensures { result ≡ format_of (rows_of (found_of matches.now)) }
{
    match value(matches, "format") {
        Some(name) => format_named(name),
        None => Some(Format::Plain),
    }
}

/// When messages for people are in colors, by its name, if there is one.
fn color_named(name: &str) -> Option<Color>
    ensures { result ≡ color_named name.now }
{
    match name {
        "auto" => Some(Color::Auto),
        "always" => Some(Color::Always),
        "never" => Some(Color::Never),
        _ => None,
    }
}

/// When matches ask for colors, by the terminal if they do not ask; `None` if the name is unknown.
pub(crate) fn color_of(matches: &ArgMatches<'_>) -> Option<Color>
    ensures { result ≡ color_of (rows_of (found_of matches.now)) }
{
    match value(matches, "color") {
        Some(name) => color_named(name),
        None => Some(Color::Auto),
    }
}

/// Whether every check is asked for: `verify` is strict.
fn asks_every(verb: Verb, matches: &ArgMatches<'_>) -> bool
    ensures { result ≡ asks_every verb (rows_of (found_of matches.now)) }
{
    match verb {
        Verb::Verify => is_given(matches, "strict"),
        Verb::Update | Verb::Query | Verb::Events | Verb::Mend => false,
    }
}

/// Whether a flag is given, or every check is asked for, which is more.
fn is_given_or_every(verb: Verb, matches: &ArgMatches<'_>, id: &str) -> bool
    ensures { result ≡ is_set_or_every verb id.now (rows_of (found_of matches.now)) }
{
    is_given(matches, id) || asks_every(verb, matches)
}

/// The profile by which matches ask to read and evaluate rules.
fn profile_of(verb: Verb, matches: &ArgMatches<'_>) -> Profile
    ensures { result ≡ profile_of verb (rows_of (found_of matches.now)) }
{
    if is_given_or_every(verb, matches, "udev") {
        Profile::Udev
    } else {
        Profile::Manual
    }
}

/// A file of users or groups, of which no byte has been read yet.
fn unread_file<'a>(alloc: Global, path: &'a str, of_root: bool) -> AccountFile<'a>
    ensures path { result.path.now ≡ path.entry.now }
    ensures of_root { result.of_root ≡ of_root }
    ensures unread { result.bytes ≡ [] }
{
    AccountFile {
        path,
        of_root,
        bytes: Bytes::new(Vec::new(alloc)),
    }
}

/// The file of users or groups that an option names, if it was given; if it was not and every check is asked for,
/// that of the root, at its own path. None of its bytes has been read yet.
fn account_file<'a>(
    alloc: Global,
    verb: Verb,
    matches: &ArgMatches<'a>,
    id: &str,
    own: &'a str,
) -> Option<AccountFile<'a>>
    ensures { IsUnreadFile (account_path (asks_every verb (rows_of (found_of matches.now)))
        (first_of id.now (rows_of (found_of matches.now))) own.entry.now) result }
{
    match value(matches, id) {
        Some(path) => Some(unread_file(alloc, path, false)),
        None if asks_every(verb, matches) => Some(unread_file(alloc, own, true)),
        None => None,
    }
}

/// Whether all is asked for: also where rules files or folders of them are compared.
fn asks_all_of(verb: Verb, matches: &ArgMatches<'_>) -> bool
    ensures { result ≡ asks_all_of verb (rows_of (found_of matches.now)) }
{
    is_given_or_every(verb, matches, "all") || is_given(matches, "rules")
}

/// The line of a verb below a root, with these added and named files, and otherwise with these matches.
pub(crate) fn line_with<'a>(
    alloc: Global,
    verb: Verb,
    root: &'a str,
    added: Vec<&'a str>,
    files: Vec<&'a str>,
    matches: &ArgMatches<'a>,
) -> Result<Line<'a>, AllocError>
    ensures { IfOk result (Reads verb root.entry.now (map (λ f. f.now) added.entry.items) (map (λ f. f.now) files.entry.items)
        (rows_of (found_of matches.now))) }
{
    Ok(Line {
        verb,
        root,
        files,
        added,
        input_name: input_name_of(matches),
        index: value(matches, "index"),
        strict: is_given(matches, "strict"),
        sources: is_given(matches, "sources"),
        why: texts(alloc, matches, "why")?,
        questions: is_given(matches, "questions"),
        unused: is_given(matches, "unused"),
        modalias: text(matches, "MODALIAS"),
        summary: !is_given(matches, "no-summary"),
        style: !is_given(matches, "no-style"),
        lint: is_given_or_every(verb, matches, "lint"),
        checks_links: is_given(matches, "links"),
        check: is_given(matches, "check"),
        format: format_of(matches).unwrap_or(Format::Plain),
        color: color_of(matches).unwrap_or(Color::Auto),
        all: asks_all_of(verb, matches),
        ignored: ignored_codes(alloc, matches)?,
        profile: profile_of(verb, matches),
        users: account_file(alloc, verb, matches, "users", "/etc/passwd"),
        groups: account_file(alloc, verb, matches, "groups", "/etc/group"),
        links: Vec::new(alloc),
    })
}
