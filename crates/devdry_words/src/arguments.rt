//! The arguments of the command line, as `clap` is given them.
//!
//! An argument that several subcommands take is a function of its own, so that it is the same in each.
ghost use Rattle.std.specs.Prelude.{◌≡◌, codes, false};
ghost use Rattle.clap.specs.Words.{rule_of};
ghost use Rattle.devdry_words.specs.Commands.{files_rule, flag_rule, mended_rule, option_rule, repeated_rule, required_rule, root_rule, strict_rule};

use clap::{Arg, ArgAction};
use std::alloc::Global;

/// `-r DIR`, the folder that is put before each folder that is read.
pub(crate) fn root_option<'a>(alloc: Global) -> Arg<'a>
    ensures { (rule_of result ≡ root_rule) × (result.global ≡ false) }
{
    Arg::new(alloc, "root")
        .short('r')
        .long("root")
        .value_name("DIR")
        .help("Folder to put before each folder that is read")
}

/// `--options FILE`, the file whose options stand before those of the command line.
pub(crate) fn options_option<'a>(alloc: Global) -> Arg<'a>
    ensures { (rule_of result ≡ option_rule (codes "options")) × (result.global ≡ false) }
{
    Arg::new(alloc, "options")
        .long("options")
        .value_name("FILE")
        .help("File of options to put before these, one a line, as --lint or --ignore=S2")
}

/// An option without a value, by its name.
fn flag<'a>(alloc: Global, name: &'a str, help: &'a str) -> Arg<'a>
    ensures { (rule_of result ≡ flag_rule name.entry.now) × (result.global ≡ false) }
{
    Arg::new(alloc, name)
        .long(name)
        .action(ArgAction::SetTrue)
        .help(help)
}

/// `-s`, `--strict`, with the help that its subcommand has for it: a message makes the status of `update` 1, and
/// `verify` makes every check.
pub(crate) fn strict_flag<'a>(alloc: Global, help: &'a str) -> Arg<'a>
    ensures { (rule_of result ≡ strict_rule) × (result.global ≡ false) }
{
    flag(alloc, "strict", help).short('s')
}

/// `--check`: files are listed in place of their mended texts.
pub(crate) fn check_flag<'a>(alloc: Global) -> Arg<'a>
    ensures { (rule_of result ≡ flag_rule (codes "check")) × (result.global ≡ false) }
{
    flag(
        alloc,
        "check",
        "Only list the files that would change, with status 1",
    )
}

/// `--links`: files that name network interfaces are checked in place of rules.
pub(crate) fn links_flag<'a>(alloc: Global) -> Arg<'a>
    ensures { (rule_of result ≡ flag_rule (codes "links")) × (result.global ≡ false) }
{
    flag(alloc, "links", "Check .link files in place of rules")
}

/// `--sources`: each line says where it comes from.
pub(crate) fn sources_flag<'a>(alloc: Global) -> Arg<'a>
    ensures { (rule_of result ≡ flag_rule (codes "sources")) × (result.global ≡ false) }
{
    flag(alloc, "sources", "Say where each line comes from")
}

/// `--why FILE[:LINE]`, which may be given any number of times.
pub(crate) fn why_option<'a>(alloc: Global) -> Arg<'a>
    ensures { (rule_of result ≡ repeated_rule (codes "why")) × (result.global ≡ false) }
{
    Arg::new(alloc, "why")
        .long("why")
        .value_name("FILE[:LINE]")
        .action(ArgAction::Append)
        .help("Say what the rules of this file, or the one of this line, met")
}

/// `--unused`: the rules of which the blocks say nothing, after the last answer.
pub(crate) fn unused_flag<'a>(alloc: Global) -> Arg<'a>
    ensures { (rule_of result ≡ flag_rule (codes "unused")) × (result.global ≡ false) }
{
    flag(
        alloc,
        "unused",
        "Report, after the last answer, the rules that no block reached or met",
    )
}

/// `--questions`: the commands that the blocks do not answer, in place of answers.
pub(crate) fn questions_flag<'a>(alloc: Global) -> Arg<'a>
    ensures { (rule_of result ≡ flag_rule (codes "questions")) × (result.global ≡ false) }
{
    flag(
        alloc,
        "questions",
        "Print the commands that the blocks do not answer, in place of answers",
    )
}

/// `--index FILE`, the index to read in place of the database's folders.
pub(crate) fn index_option<'a>(alloc: Global) -> Arg<'a>
    ensures { (rule_of result ≡ option_rule (codes "index")) × (result.global ≡ false) }
{
    Arg::new(alloc, "index")
        .long("index")
        .value_name("FILE")
        .help("Index to read in place of the database's folders")
}

/// `--no-summary`: good and bad files are not counted.
pub(crate) fn no_summary_flag<'a>(alloc: Global) -> Arg<'a>
    ensures { (rule_of result ≡ flag_rule (codes "no-summary")) × (result.global ≡ false) }
{
    flag(
        alloc,
        "no-summary",
        "Do not count the good and the bad files",
    )
}

/// `--no-style`: there are no messages about style.
pub(crate) fn no_style_flag<'a>(alloc: Global) -> Arg<'a>
    ensures { (rule_of result ≡ flag_rule (codes "no-style")) × (result.global ≡ false) }
{
    flag(alloc, "no-style", "Give no messages about style")
}

/// `--lint`: what is most likely not what was meant is reported, too; with the help that its subcommand has for it.
pub(crate) fn lint_flag<'a>(alloc: Global, help: &'a str) -> Arg<'a>
    ensures { (rule_of result ≡ flag_rule (codes "lint")) × (result.global ≡ false) }
{
    flag(alloc, "lint", help)
}

/// `--udev`, with the help that its subcommand has for it.
pub(crate) fn udev_flag<'a>(alloc: Global, help: &'a str) -> Arg<'a>
    ensures { (rule_of result ≡ flag_rule (codes "udev")) × (result.global ≡ false) }
{
    flag(alloc, "udev", help)
}

/// An option that names a list of accounts, by its own name.
fn accounts_option<'a>(alloc: Global, name: &'a str, help: &'a str) -> Arg<'a>
    ensures { (rule_of result ≡ option_rule name.entry.now) × (result.global ≡ false) }
{
    Arg::new(alloc, name)
        .long(name)
        .value_name("FILE")
        .help(help)
}

/// `--users FILE`, the users that OWNER may name.
pub(crate) fn users_option<'a>(alloc: Global) -> Arg<'a>
    ensures { (rule_of result ≡ option_rule (codes "users")) × (result.global ≡ false) }
{
    accounts_option(
        alloc,
        "users",
        "With --udev: users that OWNER may name, as in /etc/passwd",
    )
}

/// `--groups FILE`, the groups that GROUP may name.
pub(crate) fn groups_option<'a>(alloc: Global) -> Arg<'a>
    ensures { (rule_of result ≡ option_rule (codes "groups")) × (result.global ≡ false) }
{
    accounts_option(
        alloc,
        "groups",
        "With --udev: groups that GROUP may name, as in /etc/group",
    )
}

/// `--all`: the run goes on after what can't be read, and fails if there is no file.
pub(crate) fn all_flag<'a>(alloc: Global) -> Arg<'a>
    ensures { (rule_of result ≡ flag_rule (codes "all")) × (result.global ≡ false) }
{
    flag(
        alloc,
        "all",
        "Go on where a file can't be read, and fail where there is none",
    )
}

/// `--format FORMAT`, with the help that its subcommand has for it.
pub(crate) fn format_option<'a>(alloc: Global, help: &'a str) -> Arg<'a>
    ensures { (rule_of result ≡ option_rule (codes "format")) × (result.global ≡ false) }
{
    Arg::new(alloc, "format")
        .long("format")
        .value_name("FORMAT")
        .help(help)
}

/// `--color WHEN`, when messages for people are in colors.
pub(crate) fn color_option<'a>(alloc: Global) -> Arg<'a>
    ensures { (rule_of result ≡ option_rule (codes "color")) × (result.global ≡ false) }
{
    Arg::new(alloc, "color")
        .long("color")
        .value_name("WHEN")
        .help("When messages for people are in colors: auto, always or never")
}

/// `--ignore CODES`, which may be given any number of times.
pub(crate) fn ignore_option<'a>(alloc: Global) -> Arg<'a>
    ensures { (rule_of result ≡ repeated_rule (codes "ignore")) × (result.global ≡ false) }
{
    Arg::new(alloc, "ignore")
        .long("ignore")
        .value_name("CODES")
        .action(ArgAction::Append)
        .help("Leave out the messages of these codes, as V6,S; comments: as the files say")
}

/// An argument that has to be given.
fn required_argument<'a>(alloc: Global, name: &'a str, help: &'a str) -> Arg<'a>
    ensures { (rule_of result ≡ required_rule name.entry.now) × (result.global ≡ false) }
{
    Arg::new(alloc, name).required(true).help(help)
}

/// MODALIAS of `query`.
pub(crate) fn modalias_argument<'a>(alloc: Global) -> Arg<'a>
    ensures { (rule_of result ≡ required_rule (codes "MODALIAS")) × (result.global ≡ false) }
{
    required_argument(
        alloc,
        "MODALIAS",
        "Device to look up, by its modalias; -: those of the standard input",
    )
}

/// `--rules` of `compare`.
pub(crate) fn rules_flag<'a>(alloc: Global) -> Arg<'a>
    ensures { (rule_of result ≡ flag_rule (codes "rules")) × (result.global ≡ false) }
{
    Arg::new(alloc, "rules")
        .long("rules")
        .action(ArgAction::SetTrue)
        .help("OLD and NEW are rules files, or folders of them")
}

/// OLD of `compare`, the root of the system before.
pub(crate) fn old_argument<'a>(alloc: Global) -> Arg<'a>
    ensures { (rule_of result ≡ required_rule (codes "OLD")) × (result.global ≡ false) }
{
    required_argument(alloc, "OLD", "Root of the system before")
}

/// NEW of `compare`, the root of the system after.
pub(crate) fn new_argument<'a>(alloc: Global) -> Arg<'a>
    ensures { (rule_of result ≡ required_rule (codes "NEW")) × (result.global ≡ false) }
{
    required_argument(alloc, "NEW", "Root of the system after")
}

/// CODE of `explain`.
pub(crate) fn code_argument<'a>(alloc: Global) -> Arg<'a>
    ensures { (rule_of result ≡ required_rule (codes "CODE")) × (result.global ≡ false) }
{
    required_argument(alloc, "CODE", "Code of a message, as V6")
}

/// FILE.. of `fmt`, of which there has to be one.
pub(crate) fn mended_argument<'a>(alloc: Global) -> Arg<'a>
    ensures { (rule_of result ≡ mended_rule) × (result.global ≡ false) }
{
    Arg::new(alloc, "FILE")
        .action(ArgAction::Append)
        .required(true)
        .help("Rules files to mend; -: the standard input")
}

/// FILE.., the files to read in place of folders.
pub(crate) fn files_argument<'a>(alloc: Global, help: &'a str) -> Arg<'a>
    ensures { (rule_of result ≡ files_rule) × (result.global ≡ false) }
{
    Arg::new(alloc, "FILE").action(ArgAction::Append).help(help)
}
