//! The kinds of files that a line is about.
//!
//! A subcommand may read files of several kinds. The files that its line names are of one of them, and they replace
//! the folders of that kind only. An index replaces those of the database.
ghost use Rattle.std.specs.Prelude.{◌≡◌};
ghost use Rattle.engine_sessions.specs.Kinds.{kind_named, kinds_read, names_files_of, reads_folders_of, same_kind};

use crate::line::{Line, Verb};
use text_bytes::FileKind;

impl Verb {
    /// The kind of the files that a line of this subcommand names.
    pub fn kind_named(self) -> FileKind
        ensures { result ≡ kind_named self }
    {
        match self {
            Verb::Update | Verb::Query => FileKind::Hwdb,
            Verb::Verify | Verb::Events | Verb::Mend => FileKind::Rules,
        }
    }

    /// The kinds of files that this subcommand reads, each once.
    pub fn kinds_read(self) -> &'static [FileKind]
        ensures { result.now ≡ kinds_read self }
    {
        match self {
            Verb::Update | Verb::Query => &[FileKind::Hwdb],
            Verb::Verify | Verb::Mend => &[FileKind::Rules],
            Verb::Events => &[FileKind::Rules, FileKind::Hwdb],
        }
    }
}

impl Line<'_> {
    /// Whether the line names the files of a kind: it names files, and they are of that kind.
    pub fn names_files_of(&self, kind: FileKind) -> bool
        ensures { result ≡ names_files_of self.now kind }
    {
        let is_named = same_kind(kind, self.verb.kind_named());
        is_named & !self.files.is_empty()
    }

    /// Whether a subcommand that reads files of a kind has them from the folders: the line names none of them, and
    /// no index instead of those of the database.
    pub fn reads_folders_of(&self, kind: FileKind) -> bool
        ensures { result ≡ reads_folders_of self.now kind }
    {
        let has_index = same_kind(kind, FileKind::Hwdb) & self.index.is_some();
        !self.names_files_of(kind) & !has_index
    }
}

/// Whether two kinds are the same.
pub fn same_kind(one: FileKind, other: FileKind) -> bool
    ensures { result ≡ same_kind one other }
{
    one == other
}
