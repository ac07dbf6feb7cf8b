//! Files as they are passed in, whole and in memory: no crate below the program opens one.
ghost use Rattle.std.specs.Prelude.{◌≡◌};
ghost use Rattle.text_bytes.specs.Kinds.{suffix_of};

use crate::bytes::Bytes;

/// What a file holds.
#[derive(Clone, Copy, PartialEq, Eq)]
pub enum FileKind {
    /// Records of the hardware database, as hwdb(7) says.
    Hwdb,
    /// Rules, as udev(7) says.
    Rules,
}

impl FileKind {
    /// How the names of a folder's files of this kind end; files that are named one by one may have any name.
    pub fn suffix(self) -> &'static str
        ensures { result.now ≡ suffix_of self }
    {
        match self {
            FileKind::Hwdb => ".hwdb",
            FileKind::Rules => ".rules",
        }
    }
}

/// A file that was read whole.
#[derive(Drop)]
pub struct SourceFile {
    /// What it holds.
    pub kind: FileKind,
    /// The place of its folder among those of its kind: of equal names the least wins.
    pub rank: u8,
    /// Its name: as given, or for a file of a folder the name without the folder.
    pub name: Bytes,
    /// Its bytes.
    pub bytes: Bytes,
}
