//! What a command line of `devdry` asks for, whatever read it.
//!
//! These types are below the crate that reads the words and below those that do the work, so that none of them
//! needs another. Which files a line is about is defined here too, so that the crate that reads files and the one
//! that answers from them can't differ.

use link_files::LinkFile;
use std::error::Error;
use std::fmt;
use text_bytes::{Bytes, Profile};

/// The subcommand.
#[derive(Clone, Copy, PartialEq, Eq)]
pub enum Verb {
    /// Checks database files.
    Update,
    /// Answers a modalias.
    Query,
    /// Checks rules files.
    Verify,
    /// Answers events.
    Events,
    /// Mends the style of rules files.
    Mend,
}

/// How messages about files, or answers, are written.
#[derive(Clone, Copy, PartialEq, Eq)]
pub enum Format {
    /// `FILE:LINE: CODE TEXT: WORD`, the word cut after 32 bytes.
    Plain,
    /// `PATH:LINE:COLUMN: error: TEXT: WORD [CODE]`, as compilers write it.
    Gcc,
    /// Commands of a workflow, as GitHub reads them.
    Github,
    /// A report on code quality, as GitLab reads it.
    Gitlab,
    /// One JSON object a line.
    Json,
    /// A log of static analysis, as SARIF 2.1.0 has it.
    Sarif,
    /// For people: the line with its place marked, and how to mend it.
    Human,
    /// The same in colors. No word names it.
    HumanInColor,
}

impl Format {
    ghost use Rattle.std.specs.Prelude.{◌≡◌};
    ghost use Rattle.engine_sessions.specs.Readers.{is_for_people};

    /// Whether messages, and what is said about files and blocks, are for people.
    pub fn is_for_people(self) -> bool
        ensures { result ≡ is_for_people self }
    {
        matches!(self, Format::Human | Format::HumanInColor)
    }
}

/// When messages for people are in colors.
#[derive(Clone, Copy, PartialEq, Eq)]
pub enum Color {
    /// If they go to a terminal, and the environment does not refuse colors.
    Auto,
    /// Always.
    Always,
    /// Never.
    Never,
}

/// A file that lists users or groups, in the form of /etc/passwd or of /etc/group.
#[derive(Drop)]
pub struct AccountFile<'a> {
    /// Its path, as it is named.
    pub path: &'a str,
    /// Whether it is that of the root: its path is that inside the root, and nothing is known of its names if it is
    /// not there.
    pub of_root: bool,
    /// Its bytes; empty before it is read.
    pub bytes: Bytes,
}

/// What a command line asks for.
#[derive(Drop)]
pub struct Line<'a> {
    /// The subcommand.
    pub verb: Verb,
    /// What comes before each folder; empty if nothing was given.
    pub root: &'a str,
    /// The files that are named, in the order given.
    pub files: Vec<&'a str>,
    /// The files that stand among those of the folders as if they were in the first of these, by their names, in the
    /// order given.
    pub added: Vec<&'a str>,
    /// The name of the standard input as a file, `-` if none was given. It is a file of the run if one of `files` has this name.
    pub input_name: &'a str,
    /// The index that is named, if any: it replaces the database's folders. `update` and `verify` name none.
    pub index: Option<&'a str>,
    /// Whether a message makes `update` fail.
    pub strict: bool,
    /// Whether `query` says where each property comes from, and `events` where each line does.
    pub sources: bool,
    /// The rules for which `events` reports what they met, each as `FILE` or `FILE:LINE`, in the order given.
    pub why: Vec<&'a str>,
    /// Whether `events` gives, in place of its answers, the commands that rules ask for and the blocks do not answer.
    pub questions: bool,
    /// Whether `events` reports, after its last answer, the rules that no block reached or met.
    pub unused: bool,
    /// The modalias to look up; empty for the other subcommands.
    pub modalias: &'a str,
    /// Whether `verify` counts the files at its end; true for the other subcommands.
    pub summary: bool,
    /// Whether `verify` gives messages about style; true for the other subcommands.
    pub style: bool,
    /// Whether `verify` and `update` also report what is most likely not what was meant.
    pub lint: bool,
    /// Whether `verify` checks `.link` files in place of rules.
    pub checks_links: bool,
    /// Whether `fmt` only lists the files that it would change.
    pub check: bool,
    /// How `verify` and `update` write messages, how `events` and `compare` write answers, and whether what is said about
    /// files and blocks is for people; plain for `query`.
    pub format: Format,
    /// When messages for people are in colors.
    pub color: Color,
    /// Whether the run goes on after what can't be read, and fails if there is no file.
    pub all: bool,
    /// The codes of the messages that `verify` and `update` leave out, in the order given; `comments` among them
    /// says that comments in the files count, too.
    pub ignored: Vec<&'a str>,
    /// The profile by which `verify` reads rules, and `events` and `compare` read and evaluate them; the manual's
    /// for the other subcommands.
    pub profile: Profile,
    /// The users that `verify` knows if it reads rules as udev does; without a list it reports no name of a user.
    pub users: Option<AccountFile<'a>>,
    /// The groups, likewise.
    pub groups: Option<AccountFile<'a>>,
    /// The `.link` files by which `events` and `compare` name interfaces if they evaluate rules as udev does, in order;
    /// none before they are read.
    pub links: Vec<LinkFile>,
}

/// What the words of a command line ask for.
#[derive(Drop)]
pub enum Request<'a> {
    /// A run of one of the five subcommands over the files that it reads.
    Run(Line<'a>),
    /// `files`: which files of the folders count, for the line of `events` that reads them.
    Files(Line<'a>),
    /// `compare`: what comes or goes in the answers to events between two lines of `events`, the
    /// old one and the new one.
    Compare(Line<'a>, Line<'a>),
}

/// Why words are not a line.
#[derive(Debug, Drop)]
pub enum LineFault {
    /// Help or the version was asked for: its text, for the standard output.
    Help(String),
    /// The words are not understood: the text for the user.
    Usage(String),
    /// Memory runs out.
    Memory,
}

impl fmt::Display for LineFault {
    ghost use Rattle.std.specs.Prelude.{Some};
    ghost use Rattle.engine_sessions.specs.EndFaultTexts.{line_text};

    ghost output = { λ fault. Some (line_text fault) };

    fn fmt<W: fmt::Write>(&self, f: &mut fmt::Formatter<W>) -> fmt::Result {
        match self {
            LineFault::Help(text) | LineFault::Usage(text) => f.write_str(text),
            LineFault::Memory => f.write_str("out of memory"),
        }
    }
}

impl Error for LineFault {}
