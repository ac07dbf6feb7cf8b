//! The command line of `devdry`, as `clap` is given it.
//!
//! `clap` wraps no text here, so the texts of the help are broken by hand.
ghost use Rattle.std.specs.Prelude.{◌≡◌, IfOk};
ghost use Rattle.clap.specs.Words.{app_of};
ghost use Rattle.devdry_words.specs.Built.{IsCommand};
ghost use Rattle.devdry_words.specs.Commands.{compare_shape, devdry, events_shape, explain_shape, files_shape, fmt_shape, program as program_app, query_shape};
ghost use Rattle.devdry_words.specs.Commands.{update_shape, verify_shape};

use crate::added::{ADDED_AFTER, ADDED_FILES, ADDED_RULES, with_option};
use crate::arguments::{
    all_flag, check_flag, code_argument, color_option, files_argument, format_option,
    groups_option, ignore_option, index_option, links_flag, lint_flag, mended_argument,
    modalias_argument, new_argument, no_style_flag, no_summary_flag, old_argument, options_option,
    questions_flag, root_option, rules_flag, sources_flag, strict_flag, udev_flag, unused_flag,
    users_option, why_option,
};
use crate::endings;
use crate::piped::input_name_option;
use clap::Command;
use std::alloc::{AllocError, Global};

const STATUSES: &str = "Status:
  0  all went well, or help was asked for
  1  verify found a bad file, or there was a message and
     --strict was given, or an event block is faulty, or a
     line of query - is too long, or there are too many rules
     or entries, or the index is refused, or compare found a
     difference, or fmt --check a file that would change, or
     files, compare or --all no file
  2  the command line is wrong
  3  a file, a folder, the input or an output failed
  4  out of memory

Examples:
  devdry verify 60-mine.rules
  devdry query usb:v1D6Bp0002 20-usb.hwdb
  devdry events 60-mine.rules < disk.block
  devdry update 20-usb.hwdb > hwdb.index
  devdry query --index hwdb.index usb:v1D6Bp0002
  devdry compare /mnt/old /mnt/new < disk.block
  devdry fmt 60-mine.rules > mended.rules
  devdry explain V6
";

const DATABASE_FILES: &str = "Database files to read in place of the folders";

const RULES_FILES: &str = "Rules files to read in place of the folders";

const CHECKED_FILES: &str =
    "Rules files, or with --links .link files, to read in place of the folders";

const EVERY_CHECK: &str = "Make every check: --lint, --udev, --all, users and groups of the root";

const LINT_RULES: &str = "Also tell of rules that are most likely not the ones that were meant";

const LINT_RECORDS: &str = "Also tell of lines that are most likely not the ones that were meant";

const MESSAGE_FORMATS: &str =
    "How messages are written: plain, gcc, github, gitlab, json, sarif or human";

const ANSWER_FORMATS: &str =
    "How answers are written: plain, json or human (plain, with advice on faults)";

const EVALUATE_AS_UDEV: &str = "Read and evaluate rules as udev itself does";

/// The subcommand `update`.
fn update_command<'a>(alloc: Global) -> Result<Command<'a>, AllocError>
    ensures { IfOk result (IsCommand update_shape) }
{
    Command::new(alloc, "update")
        .about("Checks the files of the hardware database and writes its index")
        .after_help(endings::UPDATE)
        .arg(options_option(alloc))?
        .arg(root_option(alloc))?
        .arg(strict_flag(alloc, "Exit with status 1 if there is a message"))?
        .arg(all_flag(alloc))?
        .arg(format_option(alloc, MESSAGE_FORMATS))?
        .arg(color_option(alloc))?
        .arg(ignore_option(alloc))?
        .arg(lint_flag(alloc, LINT_RECORDS))?
        .arg(input_name_option(alloc))?
        .arg(files_argument(alloc, DATABASE_FILES))
}

/// The subcommand `query`.
fn query_command<'a>(alloc: Global) -> Result<Command<'a>, AllocError>
    ensures { IfOk result (IsCommand query_shape) }
{
    Command::new(alloc, "query")
        .about("Prints the properties that the hardware database has for a device")
        .after_help(endings::QUERY)
        .override_usage("devdry query [OPTIONS] <MODALIAS> [FILE]...")
        .arg(options_option(alloc))?
        .arg(root_option(alloc))?
        .arg(all_flag(alloc))?
        .arg(sources_flag(alloc))?
        .arg(index_option(alloc))?
        .arg(input_name_option(alloc))?
        .arg(modalias_argument(alloc))?
        .arg(files_argument(alloc, DATABASE_FILES))
}

/// The subcommand `verify`.
fn verify_command<'a>(alloc: Global) -> Result<Command<'a>, AllocError>
    ensures { IfOk result (IsCommand verify_shape) }
{
    Command::new(alloc, "verify")
        .about("Checks rules files")
        .after_help(endings::VERIFY)
        .arg(options_option(alloc))?
        .arg(root_option(alloc))?
        .arg(with_option(alloc, ADDED_RULES))?
        .arg(strict_flag(alloc, EVERY_CHECK))?
        .arg(all_flag(alloc))?
        .arg(format_option(alloc, MESSAGE_FORMATS))?
        .arg(color_option(alloc))?
        .arg(ignore_option(alloc))?
        .arg(no_summary_flag(alloc))?
        .arg(no_style_flag(alloc))?
        .arg(lint_flag(alloc, LINT_RULES))?
        .arg(links_flag(alloc))?
        .arg(udev_flag(alloc, "Read rules as udev itself reads them"))?
        .arg(users_option(alloc))?
        .arg(groups_option(alloc))?
        .arg(input_name_option(alloc))?
        .arg(files_argument(alloc, CHECKED_FILES))
}

/// The subcommand `events`.
fn events_command<'a>(alloc: Global) -> Result<Command<'a>, AllocError>
    ensures { IfOk result (IsCommand events_shape) }
{
    Command::new(alloc, "events")
        .about("Answers the event blocks of the standard input")
        .after_help(endings::EVENTS)
        .arg(options_option(alloc))?
        .arg(root_option(alloc))?
        .arg(with_option(alloc, ADDED_FILES))?
        .arg(all_flag(alloc))?
        .arg(format_option(alloc, ANSWER_FORMATS))?
        .arg(sources_flag(alloc))?
        .arg(why_option(alloc))?
        .arg(unused_flag(alloc))?
        .arg(questions_flag(alloc))?
        .arg(index_option(alloc))?
        .arg(udev_flag(alloc, EVALUATE_AS_UDEV))?
        .arg(files_argument(alloc, RULES_FILES))
}

/// The subcommand `files`.
fn files_command<'a>(alloc: Global) -> Result<Command<'a>, AllocError>
    ensures { IfOk result (IsCommand files_shape) }
{
    Command::new(alloc, "files")
        .about("Lists the files of the folders, and says which of them are read")
        .after_help(endings::FILES)
        .arg(options_option(alloc))?
        .arg(root_option(alloc))?
        .arg(with_option(alloc, ADDED_FILES))
}

/// The subcommand `compare`.
fn compare_command<'a>(alloc: Global) -> Result<Command<'a>, AllocError>
    ensures { IfOk result (IsCommand compare_shape) }
{
    Command::new(alloc, "compare")
        .about("Tells where two systems answer the event blocks of the standard input differently")
        .after_help(endings::COMPARE)
        .arg(options_option(alloc))?
        .arg(with_option(alloc, ADDED_AFTER))?
        .arg(all_flag(alloc))?
        .arg(format_option(alloc, ANSWER_FORMATS))?
        .arg(sources_flag(alloc))?
        .arg(index_option(alloc))?
        .arg(udev_flag(alloc, EVALUATE_AS_UDEV))?
        .arg(rules_flag(alloc))?
        .arg(old_argument(alloc))?
        .arg(new_argument(alloc))
}

/// The subcommand `fmt`.
fn fmt_command<'a>(alloc: Global) -> Result<Command<'a>, AllocError>
    ensures { IfOk result (IsCommand fmt_shape) }
{
    Command::new(alloc, "fmt")
        .about("Mends commas and blanks in rules files")
        .after_help(endings::FMT)
        .arg(options_option(alloc))?
        .arg(check_flag(alloc))?
        .arg(input_name_option(alloc))?
        .arg(mended_argument(alloc))
}

/// The subcommand `explain`.
fn explain_command<'a>(alloc: Global) -> Result<Command<'a>, AllocError>
    ensures { IfOk result (IsCommand explain_shape) }
{
    Command::new(alloc, "explain")
        .about("Explains a message by its code, with a faulty file and the fixed one")
        .after_help(endings::EXPLAIN)
        .arg(code_argument(alloc))
}

/// The command line without its subcommands.
fn program<'a>(alloc: Global) -> Result<Command<'a>, AllocError>
    ensures { IfOk result (λ c. app_of c ≡ program_app) }
{
    Command::new(alloc, "devdry")
        .no_binary_name(true)
        .version("0.1.0")
        .propagate_version(true)
        .about("A dry run of udev's rules and hardware database")
        .after_help(STATUSES)
        .arg_required_else_help(true)
        .subcommand_required(true)
        .bin_name("devdry")
}

/// The command line of `devdry`, with its subcommands.
pub(crate) fn devdry_command<'a>(alloc: Global) -> Result<Command<'a>, AllocError>
    ensures { IfOk result (λ c. app_of c ≡ devdry) }
{
    program(alloc)?
        .subcommand(verify_command(alloc)?)?
        .subcommand(query_command(alloc)?)?
        .subcommand(update_command(alloc)?)?
        .subcommand(events_command(alloc)?)?
        .subcommand(files_command(alloc)?)?
        .subcommand(compare_command(alloc)?)?
        .subcommand(fmt_command(alloc)?)?
        .subcommand(explain_command(alloc)?)
}
