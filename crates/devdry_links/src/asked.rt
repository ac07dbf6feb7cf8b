//! What a line asks to be told.
ghost use Rattle.std.specs.Prelude.{◌≡◌};
ghost use Rattle.devdry_links.specs.Asked.{asks_folder, asks_kinds, asks_more, asks_root, asks_rules, asks_unseen, is_as_udev, is_verify};

use engine_sessions::{Line, Verb};
use text_bytes::Profile;
use text_tables::is_name_among;

/// Whether what no editor shows is told.
pub(crate) fn asks_unseen(line: &Line<'_>) -> bool
    ensures { result ≡ asks_unseen line.now }
{
    match line.verb {
        Verb::Verify => matches!(line.profile, Profile::Udev) || line.lint,
        Verb::Query | Verb::Update | Verb::Events | Verb::Mend => false,
    }
}

/// Whether files of another kind are told.
pub(crate) fn asks_kinds(line: &Line<'_>) -> bool
    ensures { result ≡ asks_kinds line.now }
{
    match line.verb {
        Verb::Verify => line.strict || line.format.is_for_people(),
        Verb::Update => line.lint || line.format.is_for_people(),
        Verb::Query | Verb::Events | Verb::Mend => false,
    }
}

/// Whether a line asks if the file that it names by this path is a folder: messages are for people.
pub fn asks_folder(line: &Line<'_>, path: &str) -> bool
    ensures { result ≡ asks_folder line.now path.now }
{
    line.format.is_for_people() && is_name_among(&line.files, path)
}

/// Whether a line asks if the rules of its root are not read: it has a root, and a file is named in place of them.
pub fn asks_root(line: &Line<'_>) -> bool
    ensures { result ≡ asks_root line.now }
{
    let asks_rules = match line.verb {
        Verb::Verify => line.strict,
        Verb::Events => !line.why.is_empty(),
        Verb::Query | Verb::Update | Verb::Mend => false,
    };
    asks_rules && !line.root.is_empty() && !line.files.is_empty()
}
