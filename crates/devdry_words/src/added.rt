//! `--with`: files that are read among those of the folders.
ghost use Rattle.std.specs.Prelude.{◌≡◌, [], false, find, map, not, option_map, unwrap_or};
ghost use Rattle.clap.specs.Words.{found_of, rows_of, rule_of};
ghost use Rattle.devdry_words.specs.Commands.{added_rule};
ghost use Rattle.devdry_words.specs.Refusals.{adds_to_index, adds_to_named, adds_to_rules, first_unaddable, is_addable, is_of_database, is_of_rules, unaddable};

use crate::values::{every_value, has_value, is_given, value};
use clap::{Arg, ArgAction, ArgMatches};
use std::alloc::Global;
use text_bytes::FileKind;

/// The help of `verify`.
pub(crate) const ADDED_RULES: &str = "Rules file to read among those of the folders, by its name";

/// The help of `events` and `files`.
pub(crate) const ADDED_FILES: &str =
    "Rules or database file to read among those of the folders, by its name";

/// The help of `compare`.
pub(crate) const ADDED_AFTER: &str =
    "Rules or database file to read among those of NEW, by its name";

/// `--with FILE`, which may be given any number of times, with the help that its subcommand has for it.
pub(crate) fn with_option<'a>(alloc: Global, help: &'a str) -> Arg<'a>
    ensures { (rule_of result ≡ added_rule) × (result.global ≡ false) }
{
    Arg::new(alloc, "with")
        .long("with")
        .value_name("FILE")
        .action(ArgAction::Append)
        .help(help)
}

/// Whether matches add files to those of the folders, and name others to read in place of these.
pub(crate) fn adds_to_named(matches: &ArgMatches<'_>) -> bool
    ensures { result ≡ adds_to_named (rows_of (found_of matches.now)) }
{
    has_value(matches, "with") & has_value(matches, "FILE")
}

/// Whether matches add files to those of a root, and compare rules in place of roots.
pub(crate) fn adds_to_rules(matches: &ArgMatches<'_>) -> bool
    ensures { result ≡ adds_to_rules (rows_of (found_of matches.now)) }
{
    has_value(matches, "with") & is_given(matches, "rules")
}

/// Whether a path ends as those of database files do.
fn is_of_database(path: &str) -> bool
    ensures { result ≡ is_of_database path.now }
{
    path.as_bytes()
        .ends_with(FileKind::Hwdb.suffix().as_bytes())
}

/// Whether a path ends as those of rules files do.
fn is_of_rules(path: &str) -> bool
    ensures { result ≡ is_of_rules path.now }
{
    path.as_bytes()
        .ends_with(FileKind::Rules.suffix().as_bytes())
}

/// Whether a file may be added, by how its path ends: as rules, or, if not only rules are read, as a database.
fn is_addable(rules_alone: bool, path: &str) -> bool
    ensures { result ≡ is_addable rules_alone path.now }
{
    is_of_rules(path) || (!rules_alone && is_of_database(path))
}

/// The first of these paths at which no file may be added, as it stands among them.
fn find_unaddable<'a>(rules_alone: bool, paths: &[&'a str]) -> Option<&'a str>
    ensures { result ≡ find (λ p. not (is_addable rules_alone p.now)) paths.now }
{
    paths
        .iter()
        .copied()
        .find(|path| !is_addable(rules_alone, path))
}

/// The first of these paths at which no file may be added.
fn first_unaddable<'a>(rules_alone: bool, paths: &[&'a str]) -> Option<&'a str>
    ensures { option_map (λ p. p.now) result ≡ first_unaddable rules_alone (map (λ p. p.now) paths.now) }
{
    find_unaddable(rules_alone, paths)
}

/// The first path at which matches add a file that may not be added, if there is one.
pub(crate) fn unaddable<'a>(rules_alone: bool, matches: &ArgMatches<'a>) -> Option<&'a str>
    ensures { option_map (λ p. p.now) result ≡ unaddable rules_alone (rows_of (found_of matches.now)) }
{
    match every_value(matches, "with") {
        Some(paths) => first_unaddable(rules_alone, paths),
        None => None,
    }
}

/// The same, as a text that is empty if there is none.
pub(crate) fn unaddable_text<'a>(rules_alone: bool, matches: &ArgMatches<'a>) -> &'a str
    ensures { result.now ≡ unwrap_or (unaddable rules_alone (rows_of (found_of matches.now))) [] }
{
    match unaddable(rules_alone, matches) {
        Some(path) => path,
        None => "",
    }
}

/// Whether matches add a file that is no rules file, and name an index to read in place of all files of the database.
pub(crate) fn adds_to_index(matches: &ArgMatches<'_>) -> bool
    ensures { result ≡ adds_to_index (rows_of (found_of matches.now)) }
{
    value(matches, "index").is_some() & unaddable(true, matches).is_some()
}
