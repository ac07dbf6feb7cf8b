//! The folders of the system that are read if a line names no files.
ghost use Rattle.std.specs.Prelude.{◌≡◌};
ghost use Rattle.engine_sessions.specs.Folders.{folder_path};

use text_bytes::FileKind;

/// The folder of a kind at a rank, without what a line puts before it, as udev(7) and hwdb(7) name
/// it. It is empty if a kind has no folder of that rank: rules have four, the database two.
pub fn folder_path(kind: FileKind, rank: u8) -> &'static str
    ensures { result.now ≡ folder_path kind rank }
{
    match kind {
        FileKind::Hwdb => hwdb_folder(rank),
        FileKind::Rules => rules_folder(rank),
    }
}

/// The folder of the database at a rank.
fn hwdb_folder(rank: u8) -> &'static str
    ensures { result.now ≡ folder_path FileKind.Hwdb rank }
{
    match rank {
        0 => "/etc/udev/hwdb.d",
        1 => "/usr/lib/udev/hwdb.d",
        _ => "",
    }
}

/// The folder of rules at a rank.
fn rules_folder(rank: u8) -> &'static str
    ensures { result.now ≡ folder_path FileKind.Rules rank }
{
    match rank {
        0 => "/etc/udev/rules.d",
        1 => "/run/udev/rules.d",
        2 => "/usr/local/lib/udev/rules.d",
        3 => "/usr/lib/udev/rules.d",
        _ => "",
    }
}
