//! Which of the words that `clap` takes are refused.
//!
//! A rule of one argument on another would cost what `clap` proves about the words that it takes, and so would
//! values split at commas, so these few cases are looked at here.
ghost use Rattle.std.specs.Option.{option_map_or};
ghost use Rattle.std.specs.Prelude.{◌≡◌, false};
ghost use Rattle.clap.specs.Words.{found_of, rows_of};
ghost use Rattle.devdry_words.specs.Named.{IsUsageOf};
ghost use Rattle.devdry_words.specs.Refusals.{added_reasons, answers_blocks, asks_all, asks_both, breaks_json, first_met, is_for_answers, is_strict};
ghost use Rattle.devdry_words.specs.Refusals.{lacks_answer_format, lacks_root, lacks_side, lacks_udev, links_as_rules, names_two, refusal_of, said_of};
ghost use Rattle.devdry_words.specs.Refusals.{value_reasons};

use crate::added::{adds_to_index, adds_to_named, adds_to_rules, unaddable, unaddable_text};
use crate::ignored::{unknown_part, unknown_text};
use crate::line_reading::{color_of, format_of};
use crate::piped::{lacks_input, reads_twice};
use crate::reporting::{usage, usage_on_code, usage_on_value};
use crate::values::{has_value, is_empty, is_given, text, value};
use clap::ArgMatches;
use engine_sessions::{Format, LineFault};
use std::alloc::Global;

const TWO_DATABASES: &str = "error: the argument '--index <FILE>' cannot be used with '[FILE]...'

Usage: devdry query --index <FILE> <MODALIAS>

For more information, try '--help'.
";

const LINKS_AS_RULES: &str =
    "error: the argument '--links' cannot be used with '--with <FILE>', '--udev', '--users <FILE>', '--groups <FILE>' or '--strict'

Usage: devdry verify --links [FILE]...

For more information, try '--help'.
";

const ADDED_TO_RULES: &str = "error: the argument '--with <FILE>' cannot be used with '--rules'

Usage: devdry compare --rules <OLD> <NEW>

For more information, try '--help'.
";

const ADDED_TO_NAMED: &str = "error: the argument '--with <FILE>' cannot be used with '[FILE]...'

For more information, try '--help'.
";

const ADDED_TO_INDEX: &str =
    "error: the argument '--with <FILE>' cannot add to the database with '--index <FILE>'

For more information, try '--help'.
";

const NOT_RULES: &str = "' for '--with <FILE>': its name has to end in .rules

For more information, try '--help'.
";

const NOT_A_FILE: &str = "' for '--with <FILE>': its name has to end in .rules or .hwdb

For more information, try '--help'.
";

const TWO_ANSWERS: &str =
    "error: the argument '--questions' cannot be used with '--sources', '--why <FILE[:LINE]>' or '--unused'

Usage: devdry events --questions [FILE]...

For more information, try '--help'.
";

const LINES_BESIDE_JSON: &str =
    "error: the argument '--format=json' cannot be used with '--unused' or '--questions'

Usage: devdry events --format=json [FILE]...

For more information, try '--help'.
";

const INPUT_TWICE: &str =
    "error: '-' can't be '[FILE]...' where the standard input has event blocks or modaliases

For more information, try '--help'.
";

const UNREAD_INPUT: &str = "error: the argument '--stdin-name <PATH>' needs '-' as '[FILE]...'

For more information, try '--help'.
";

const EMPTY_ROOT: &str = "error: an empty value of '--root <DIR>' names no folder

For more information, try '--help'.
";

const EMPTY_SIDE: &str =
    "error: an empty value of '<OLD>' or '<NEW>' names no folder; '/' is that of the running system

For more information, try '--help'.
";

const NO_UDEV: &str =
    "error: the arguments '--users <FILE>' and '--groups <FILE>' need '--udev' or '--strict'

Usage: devdry verify --udev --users <FILE> --groups <FILE> [FILE]...

For more information, try '--help'.
";

const NO_SUCH_FORMAT: &str = "' for '--format <FORMAT>'
  [possible values: plain, gcc, github, gitlab, json, sarif, human]

For more information, try '--help'.
";

const NO_ANSWER_FORMAT: &str = "' for '--format <FORMAT>'
  [possible values: plain, json, human]

For more information, try '--help'.
";

const NO_SUCH_COLOR: &str = "' for '--color <WHEN>'
  [possible values: auto, always, never]

For more information, try '--help'.
";

/// Why words that `clap` takes are refused.
#[derive(Clone, Copy, PartialEq, Eq)]
pub(crate) enum Refusal {
    /// A query names two databases: files and an index.
    TwoDatabases,
    /// `.link` files are to be checked in place of rules, and what is asked beside it is about rules alone.
    LinksAsRules,
    /// A file is added to those of the folders, and others are named to be read in place of these.
    AddedToNamed,
    /// A file is added to those of a root, and rules are compared in place of roots.
    AddedToRules,
    /// A file is added to those of the database, and an index is named to be read in place of these.
    AddedToIndex,
    /// Events are to give questions in place of answers, and are to say more of their answers.
    TwoAnswers,
    /// Answers are to be objects of JSON, and lines are asked for that are none.
    LinesBesideJson,
    /// The standard input is named as a file, and something else is read from it.
    InputTwice,
    /// The standard input has a name as a file, and is not named as one.
    UnreadInput,
    /// All is asked for, or which files count, below a root that is given and empty: so a variable without a value,
    /// as in `-r "$image"`, does not mean the system itself.
    EmptyRoot,
    /// A root that is compared is empty.
    EmptySide,
    /// Users or groups are named, which only udev looks up, and rules are not read as it reads them.
    NoUdev,
    /// There is no such format.
    UnknownFormat,
    /// Answers can't be written in the format, or there is no such format.
    NoAnswerFormat,
    /// Colors are asked for in no known way.
    UnknownColor,
    /// A part of `--ignore` is neither the code of a remark nor the word `comments`.
    UnknownPart,
    /// The name of a file that `verify` adds does not end as those of rules do.
    NotRules,
    /// The name of a file that is added ends neither as those of rules nor as those of the database.
    NotFile,
}

/// Whether the matches of a subcommand name two databases.
fn names_two(name: &str, matches: &ArgMatches<'_>) -> bool
    ensures { result ≡ names_two name.now (rows_of (found_of matches.now)) }
{
    (name == "query") & value(matches, "index").is_some() & has_value(matches, "FILE")
}

/// Whether matches ask to check `.link` files in place of rules, and for something that is about rules alone.
fn links_as_rules(matches: &ArgMatches<'_>) -> bool
    ensures { result ≡ links_as_rules (rows_of (found_of matches.now)) }
{
    is_given(matches, "links")
        & (has_value(matches, "with")
            | is_given(matches, "udev")
            | is_given(matches, "strict")
            | value(matches, "users").is_some()
            | value(matches, "groups").is_some())
}

/// Whether matches ask for questions in place of answers, and for more about the answers.
fn asks_both(matches: &ArgMatches<'_>) -> bool
    ensures { result ≡ asks_both (rows_of (found_of matches.now)) }
{
    is_given(matches, "questions")
        & (is_given(matches, "sources") | has_value(matches, "why") | is_given(matches, "unused"))
}

/// Whether matches ask for answers as objects of JSON, and for lines that are none.
fn breaks_json(matches: &ArgMatches<'_>) -> bool
    ensures { result ≡ breaks_json (rows_of (found_of matches.now)) }
{
    (text(matches, "format") == "json")
        & (is_given(matches, "questions") | is_given(matches, "unused"))
}

/// Whether the matches of a subcommand are those of a strict `verify`, and so ask for every check.
fn is_strict(name: &str, matches: &ArgMatches<'_>) -> bool
    ensures { result ≡ is_strict name.now (rows_of (found_of matches.now)) }
{
    (name == "verify") & is_given(matches, "strict")
}

/// Whether the matches of a subcommand ask for all.
fn asks_all(name: &str, matches: &ArgMatches<'_>) -> bool
    ensures { result ≡ asks_all name.now (rows_of (found_of matches.now)) }
{
    is_given(matches, "all") | is_strict(name, matches)
}

/// Whether the matches of a subcommand ask for all, or which files count, below a root that is given and empty.
fn lacks_root(name: &str, matches: &ArgMatches<'_>) -> bool
    ensures { result ≡ lacks_root name.now (rows_of (found_of matches.now)) }
{
    (asks_all(name, matches) | (name == "files")) & is_empty(matches, "root")
}

/// Whether a root that matches compare is empty.
fn lacks_side(matches: &ArgMatches<'_>) -> bool
    ensures { result ≡ lacks_side (rows_of (found_of matches.now)) }
{
    is_empty(matches, "OLD") | is_empty(matches, "NEW")
}

/// Whether matches name users or groups, and do not ask to read rules as udev reads them.
fn lacks_udev(name: &str, matches: &ArgMatches<'_>) -> bool
    ensures { result ≡ lacks_udev name.now (rows_of (found_of matches.now)) }
{
    (value(matches, "users").is_some() | value(matches, "groups").is_some())
        & !(is_given(matches, "udev") | is_strict(name, matches))
}

/// Whether a subcommand answers event blocks.
fn answers_blocks(name: &str) -> bool
    ensures { result ≡ answers_blocks name.now }
{
    (name == "events") | (name == "compare")
}

/// Whether answers can be written in a format.
fn is_for_answers(format: Format) -> bool
    ensures { result ≡ is_for_answers format }
{
    matches!(format, Format::Plain | Format::Json | Format::Human)
}

/// Whether there is a format, and answers can be written in it.
fn has_answers(format: Option<Format>) -> bool
    ensures { result ≡ option_map_or is_for_answers format false }
{
    match format {
        Some(format) => is_for_answers(format),
        None => false,
    }
}

/// Whether matches ask for answers in a format in which they can't be written, or in one that there is not.
fn lacks_answer_format(name: &str, matches: &ArgMatches<'_>) -> bool
    ensures { result ≡ lacks_answer_format name.now (rows_of (found_of matches.now)) }
{
    answers_blocks(name) & !has_answers(format_of(matches))
}

/// Why a file may not be added for a subcommand, if one may not.
fn wrong_added(name: &str, matches: &ArgMatches<'_>) -> Option<Refusal>
    ensures { result ≡ first_met (added_reasons name.now (rows_of (found_of matches.now))) }
{
    if (name == "verify") & unaddable(true, matches).is_some() {
        Some(Refusal::NotRules)
    } else if unaddable(false, matches).is_some() {
        Some(Refusal::NotFile)
    } else if adds_to_index(matches) {
        Some(Refusal::AddedToIndex)
    } else {
        None
    }
}

/// Why a value of the matches of a subcommand that has to be one of a few is refused, if it is.
fn unknown_value(name: &str, matches: &ArgMatches<'_>) -> Option<Refusal>
    ensures { result ≡ first_met (value_reasons name.now (rows_of (found_of matches.now))) }
{
    if lacks_answer_format(name, matches) {
        Some(Refusal::NoAnswerFormat)
    } else if format_of(matches).is_none() {
        Some(Refusal::UnknownFormat)
    } else if color_of(matches).is_none() {
        Some(Refusal::UnknownColor)
    } else if unknown_part(matches).is_some() {
        Some(Refusal::UnknownPart)
    } else {
        wrong_added(name, matches)
    }
}

/// Why the matches of a subcommand are refused, if they are.
pub(crate) fn refusal_of(name: &str, matches: &ArgMatches<'_>) -> Option<Refusal>
    ensures { result ≡ refusal_of name.now (rows_of (found_of matches.now)) }
{
    if names_two(name, matches) {
        Some(Refusal::TwoDatabases)
    } else if links_as_rules(matches) {
        Some(Refusal::LinksAsRules)
    } else if adds_to_named(matches) {
        Some(Refusal::AddedToNamed)
    } else if adds_to_rules(matches) {
        Some(Refusal::AddedToRules)
    } else if asks_both(matches) {
        Some(Refusal::TwoAnswers)
    } else if breaks_json(matches) {
        Some(Refusal::LinesBesideJson)
    } else if reads_twice(name, matches) {
        Some(Refusal::InputTwice)
    } else if lacks_input(matches) {
        Some(Refusal::UnreadInput)
    } else if lacks_root(name, matches) {
        Some(Refusal::EmptyRoot)
    } else if lacks_side(matches) {
        Some(Refusal::EmptySide)
    } else if lacks_udev(name, matches) {
        Some(Refusal::NoUdev)
    } else {
        unknown_value(name, matches)
    }
}

/// What is said about matches that are refused.
pub(crate) fn usage_of(alloc: Global, refusal: Refusal, matches: &ArgMatches<'_>) -> LineFault
    ensures { IsUsageOf (said_of refusal (rows_of (found_of matches.now))) result }
{
    match refusal {
        Refusal::TwoDatabases => usage(alloc, TWO_DATABASES),
        Refusal::LinksAsRules => usage(alloc, LINKS_AS_RULES),
        Refusal::AddedToNamed => usage(alloc, ADDED_TO_NAMED),
        Refusal::AddedToRules => usage(alloc, ADDED_TO_RULES),
        Refusal::AddedToIndex => usage(alloc, ADDED_TO_INDEX),
        Refusal::TwoAnswers => usage(alloc, TWO_ANSWERS),
        Refusal::LinesBesideJson => usage(alloc, LINES_BESIDE_JSON),
        Refusal::InputTwice => usage(alloc, INPUT_TWICE),
        Refusal::UnreadInput => usage(alloc, UNREAD_INPUT),
        Refusal::EmptyRoot => usage(alloc, EMPTY_ROOT),
        Refusal::EmptySide => usage(alloc, EMPTY_SIDE),
        Refusal::NoUdev => usage(alloc, NO_UDEV),
        Refusal::UnknownFormat => usage_on_value(alloc, text(matches, "format"), NO_SUCH_FORMAT),
        Refusal::NoAnswerFormat => {
            usage_on_value(alloc, text(matches, "format"), NO_ANSWER_FORMAT)
        }
        Refusal::UnknownColor => usage_on_value(alloc, text(matches, "color"), NO_SUCH_COLOR),
        Refusal::UnknownPart => usage_on_code(
            alloc,
            unknown_text(matches),
            "' for '--ignore <CODES>'\n  [possible values: ",
            ", V, S, H, W, D, L, I, comments]\n\nFor more information, try '--help'.\n",
        ),
        Refusal::NotRules => usage_on_value(alloc, unaddable_text(true, matches), NOT_RULES),
        Refusal::NotFile => usage_on_value(alloc, unaddable_text(false, matches), NOT_A_FILE),
    }
}
